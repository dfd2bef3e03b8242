//! Sites: stamps of their own, and deltas.

use super::makers::{empty_site, id, lang, put, site};
use super::shown;
use super::words::{Words, gives_in};
use cata_core::{CataFault, Delta, Site};
use cell_core::Stamp;
use std::alloc::{AllocError, Global};
use std::test::Fail;

/// How a put of a text ends, and what the site then holds.
fn putting(alloc: Global, site: &mut Site, now: u64, text: &str) -> Result<String, Fail> {
    let ended = put(alloc, site, now, text)?;
    Ok(told(alloc, site, &ended)?)
}

/// How a deletion of `m` in English ends, and what the site then holds.
fn deleting(alloc: Global, site: &mut Site, now: u64) -> Result<String, Fail> {
    let (id, lang) = (id(alloc, "m")?, lang(alloc, "en")?);
    let ended = site.delete(alloc, now, &id, &lang);
    Ok(told(alloc, site, &ended)?)
}

/// The last stamp, and what the site holds.
fn held(alloc: Global, site: &Site) -> Result<String, AllocError> {
    let last = shown::last(alloc, site.last())?;
    let cells = shown::cells(alloc, site.catalogue())?;
    format!(in alloc; "last {last}: {cells}")
}

/// How it ended, the last stamp, and what the site holds.
fn told(
    alloc: Global,
    site: &Site,
    ended: &Result<Stamp, CataFault>,
) -> Result<String, AllocError> {
    let outcome = shown::stamped(alloc, ended)?;
    let held = held(alloc, site)?;
    format!(in alloc; "{outcome}, {held}")
}

/// A put, with its time and text, or a deletion, with its time.
fn stamping(alloc: Global, site: &mut Site, mut words: Words) -> Result<String, Fail> {
    match words.word() {
        "put" => putting(alloc, site, words.number()?, words.word()),
        _ => deleting(alloc, site, words.number()?),
    }
}

fn stamped(alloc: Global, name: &str, edits: &str, act: &str) -> Result<String, Fail> {
    stamping(alloc, &mut site(alloc, name, edits)?, Words::new(act))
}

/// A case, a site's name, what it holds, what is done, and how that ends.
const STAMPED: &[(&str, &str, &str, &str, &str)] = &[
    (
        "a put is stamped by the clock",
        "1",
        "",
        "put 5 a",
        "5 0000000001 0, last 5 0000000001 0: m en 5 0000000001 0 a",
    ),
    (
        "a deletion is stamped above the put",
        "1",
        "m en 5 1 0 a",
        "delete 3",
        "5 0000000001 1, last 5 0000000001 1: m en 5 0000000001 1 -",
    ),
    (
        "a spent clock refuses a put",
        "6",
        "m en 18446744073709551615 7 0 x",
        "put 3 y",
        "14 clock is spent, last 18446744073709551615 0000000007 0: m en 18446744073709551615 0000000007 0 x",
    ),
    (
        "a spent clock refuses a deletion",
        "6",
        "m en 18446744073709551615 7 0 x",
        "delete 3",
        "14 clock is spent, last 18446744073709551615 0000000007 0: m en 18446744073709551615 0000000007 0 x",
    ),
];

#[test]
fn stamps(rt: HostRuntime) -> Result<(), Fail> {
    for (case, name, edits, act, wanted) in STAMPED {
        gives_in(case, stamped(rt.alloc(), name, edits, act), wanted)?;
    }
    Ok(())
}

fn last(alloc: Global, site: &Site) -> Result<String, AllocError> {
    let last = shown::last(alloc, site.last())?;
    format!(in alloc; "{}: {last}", site.name().as_str())
}

fn last_of_empty(alloc: Global, name: &str) -> Result<String, Fail> {
    Ok(last(alloc, &empty_site(alloc, name)?)?)
}

/// The delta of a site for another.
fn delta(alloc: Global, sender: &Site, taker: &Site) -> Result<Delta, AllocError> {
    let summary = taker.summary(alloc)?;
    sender.delta_for(alloc, &summary)
}

/// The delta of a site of these edits, for a site of this name that holds nothing.
fn delta_for(alloc: Global, edits: &str, addressee: &str) -> Result<Delta, Fail> {
    let sender = site(alloc, "1", edits)?;
    Ok(delta(alloc, &sender, &empty_site(alloc, addressee)?)?)
}

fn shown_delta(alloc: Global, delta: &Delta) -> Result<String, AllocError> {
    let cells = shown::cells(alloc, delta.cells())?;
    format!(in alloc; "for {}: {cells}", delta.addressee().as_str())
}

fn shown_delta_for(alloc: Global, edits: &str, addressee: &str) -> Result<String, Fail> {
    Ok(shown_delta(alloc, &delta_for(alloc, edits, addressee)?)?)
}

/// How a take ends, and what the site then holds.
fn taken(alloc: Global, taker: &mut Site, delta: &Delta) -> Result<String, AllocError> {
    let result = taker.take(alloc, delta);
    let outcome = shown::outcome(alloc, &result)?;
    let cells = shown::cells(alloc, taker.catalogue())?;
    format!(in alloc; "{outcome}: {cells}")
}

/// A site takes the delta of these edits for a site of this name that holds nothing.
struct Delivery {
    case: &'static str,
    edits: &'static str,
    addressee: &'static str,
    taker: &'static str,
    held: &'static str,
    gives: &'static str,
}

const DELIVERIES: &[Delivery] = &[
    Delivery {
        case: "a late delta does no harm",
        edits: "m en 5 1 0 a",
        addressee: "2",
        taker: "2",
        held: "m en 7 3 0 -",
        gives: "done: m en 7 0000000003 0 -",
    },
    Delivery {
        case: "a delta for another site",
        edits: "m en 5 1 0 a",
        addressee: "2",
        taker: "3",
        held: "m en 7 3 0 -",
        gives: "15 delta is for site 0000000002: m en 7 0000000003 0 -",
    },
    Delivery {
        case: "the addressee is looked at before a clash",
        edits: "m en 5 berlin 0 a",
        addressee: "paris-2",
        taker: "3",
        held: "m en 5 berlin 0 b",
        gives: "15 delta is for site paris-2: m en 5 berlin 0 b",
    },
    Delivery {
        case: "a clash is told at its place in the site",
        edits: "m en 5 berlin 0 a",
        addressee: "paris-2",
        taker: "paris-2",
        held: "m de 1 1 0 b; m en 5 berlin 0 b",
        gives: "13 stamp 5 berlin 0 used twice, cell 1: m de 1 0000000001 0 b; m en 5 berlin 0 b",
    },
];

/// How the taker takes it, and what it then holds.
fn delivered(alloc: Global, row: &Delivery) -> Result<String, Fail> {
    let delta = delta_for(alloc, row.edits, row.addressee)?;
    let mut taker = site(alloc, row.taker, row.held)?;
    Ok(taken(alloc, &mut taker, &delta)?)
}

#[test]
fn deliveries(rt: HostRuntime) -> Result<(), Fail> {
    for row in DELIVERIES {
        gives_in(row.case, delivered(rt.alloc(), row), row.gives)?;
    }
    Ok(())
}

/// How a site takes its own delta, and what it then holds.
fn taken_by_itself(alloc: Global, name: &str, edits: &str) -> Result<String, Fail> {
    let mut site = site(alloc, name, edits)?;
    let delta = delta(alloc, &site, &site)?;
    Ok(taken(alloc, &mut site, &delta)?)
}

#[test]
fn single_cases(rt: HostRuntime) -> Result<(), Fail> {
    let (alloc, edits) = (rt.alloc(), "m en 5 1 0 a");
    gives_in(
        "an empty site",
        last_of_empty(alloc, "1"),
        "0000000001: none",
    )?;
    gives_in(
        "a delta has the cells that are lacked",
        shown_delta_for(alloc, edits, "2"),
        "for 0000000002: m en 5 0000000001 0 a",
    )?;
    gives_in(
        "a site takes a delta for itself",
        taken_by_itself(alloc, "paris-2", edits),
        "done: m en 5 0000000001 0 a",
    )
}
