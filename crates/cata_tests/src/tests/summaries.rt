//! Summaries: what is pushed is what a site tells.

use super::makers::{self, empty_site, id, lang, site};
use super::shown;
use super::words::{Words, gives_in};
use cata_core::Summary;
use std::alloc::{AllocError, Global};
use std::test::Fail;

/// A summary of one key.
fn pushed(alloc: Global) -> Result<Summary, Fail> {
    let stamp = makers::stamp(&mut Words::new("5 1 0"))?;
    let mut summary = Summary::new(alloc, makers::name("1")?);
    summary.push(id(alloc, "m")?, lang(alloc, "en")?, stamp)?;
    Ok(summary)
}

/// What a site of this name that holds these edits tells.
fn told(alloc: Global, name: &str, edits: &str) -> Result<Summary, Fail> {
    Ok(site(alloc, name, edits)?.summary(alloc)?)
}

/// Whether what a site of this name tells is the one that is pushed, for this owner.
fn compared(alloc: Global, name: &str, owner: &str) -> Result<String, Fail> {
    let told = told(alloc, name, "m en 5 1 0 a")?;
    let pushed = pushed(alloc)?.with_owner(makers::name(owner)?);
    let shown = if told == pushed { "equal" } else { "not equal" };
    Ok(shown.to_string(alloc)?)
}

/// All keys with their stamps.
fn listed(alloc: Global, summary: &Summary) -> Result<String, AllocError> {
    let mut list = String::new(alloc);
    for (id, lang, stamp) in summary.iter() {
        let stamp = shown::stamp(alloc, stamp)?;
        let item = format!(in alloc; "{} {} {stamp};", id.as_str(), lang.as_str())?;
        list.push_str(&item)?;
    }
    Ok(list)
}

fn listed_of(alloc: Global, edits: &str) -> Result<String, Fail> {
    Ok(listed(alloc, &told(alloc, "1", edits)?)?)
}

/// The key and stamp at a place.
fn key_at(alloc: Global, summary: &Summary, place: usize) -> Result<String, AllocError> {
    match summary.nth(place) {
        Some((id, lang, stamp)) => {
            let stamp = shown::stamp(alloc, stamp)?;
            format!(in alloc; "{} {} {stamp}", id.as_str(), lang.as_str())
        }
        None => "none".to_string(alloc),
    }
}

fn told_at(alloc: Global, edits: &str, place: usize) -> Result<String, Fail> {
    Ok(key_at(alloc, &told(alloc, "1", edits)?, place)?)
}

fn shown_owner(alloc: Global, summary: &Summary) -> Result<String, AllocError> {
    format!(in alloc; "{} of {}", summary.len(), summary.owner().as_str())
}

fn told_of_nothing(alloc: Global, name: &str) -> Result<String, Fail> {
    let told = empty_site(alloc, name)?.summary(alloc)?;
    Ok(shown_owner(alloc, &told)?)
}

#[test]
fn equalities(rt: HostRuntime) -> Result<(), Fail> {
    let alloc = rt.alloc();
    gives_in("what is pushed", compared(alloc, "1", "1"), "equal")?;
    gives_in("another owner", compared(alloc, "2", "1"), "not equal")?;
    gives_in("for another owner", compared(alloc, "2", "2"), "equal")
}

#[test]
fn keys(rt: HostRuntime) -> Result<(), Fail> {
    let alloc = rt.alloc();
    gives_in(
        "the ascending order",
        listed_of(
            alloc,
            "n en 7 2 0 a; m fr 4 1 0 -; m en 5 1 3 a; m @none 6 1 0 b",
        ),
        "m @none 6 0000000001 0;m en 5 0000000001 3;m fr 4 0000000001 0;n en 7 0000000002 0;",
    )?;
    let edits = "m en 5 1 0 -; k en 4 1 0 a";
    gives_in(
        "a deletion",
        told_at(alloc, edits, 1),
        "m en 5 0000000001 0",
    )?;
    gives_in("the end", told_at(alloc, edits, 2), "none")?;
    gives_in(
        "an empty site",
        told_of_nothing(alloc, "2"),
        "0 of 0000000002",
    )
}
