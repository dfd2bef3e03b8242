//! Runs written as texts: steps between semicolons.

use super::makers::{default, edit_of, id, list, scheme};
use super::shown;
use super::words::{Words, gives_in};
use cata_core::{Answers, PlayFault, Step, play};
use nego_core::Scheme;
use std::alloc::Global;
use std::test::Fail;

/// The answers of a run over so many sites.
pub fn answered(alloc: Global, sites: u8, text: &str) -> Result<Answers, Fail> {
    let steps = steps(alloc, text)?;
    Ok(play(alloc, usize::from(sites), &steps)?)
}

/// What a run over so many sites answers, or its refusal.
pub fn played(alloc: Global, sites: u8, text: &str) -> Result<String, Fail> {
    let steps = steps(alloc, text)?;
    match play(alloc, usize::from(sites), &steps) {
        Ok(answers) => Ok(shown::answers(alloc, &answers)?),
        Err(fault) => shown_fault(alloc, fault),
    }
}

/// A case: a run over so many sites, and what it answers.
pub struct Run {
    pub case: &'static str,
    pub sites: u8,
    pub steps: &'static str,
    pub gives: &'static str,
}

pub fn all_give(alloc: Global, runs: &[Run]) -> Result<(), Fail> {
    for run in runs {
        gives_in(run.case, played(alloc, run.sites, run.steps), run.gives)?;
    }
    Ok(())
}

/// A site, a message, a scheme and a list.
fn filter_step(alloc: Global, words: &mut Words) -> Result<Step, Fail> {
    let site = words.place()?;
    let id = id(alloc, words.word())?;
    let scheme = scheme(words.word());
    let list = list(alloc, scheme, words.rest())?;
    Ok(Step::AskFilter {
        site,
        id,
        scheme,
        list,
    })
}

/// A site, a message, a default or "-", and a list.
fn lookup_step(alloc: Global, words: &mut Words) -> Result<Step, Fail> {
    let site = words.place()?;
    let id = id(alloc, words.word())?;
    let default = default(alloc, words.word())?;
    let list = list(alloc, Scheme::Basic, words.rest())?;
    Ok(Step::AskLookup {
        site,
        id,
        list,
        default,
    })
}

/// A step that asks, or that edits.
fn step_with_text(alloc: Global, kind: &str, words: &mut Words) -> Result<Step, Fail> {
    match kind {
        "filter" => filter_step(alloc, words),
        "lookup" => lookup_step(alloc, words),
        _ => {
            let site = words.place()?;
            let edit = edit_of(alloc, words)?;
            Ok(Step::Edit { site, edit })
        }
    }
}

/// A step of numbers alone, or another.
fn step(alloc: Global, words: &mut Words) -> Result<Step, Fail> {
    match words.word() {
        "merge" => Ok(Step::Merge {
            into: words.place()?,
            source: words.place()?,
        }),
        "cells" => Ok(Step::AskCells {
            site: words.place()?,
        }),
        "tell" => Ok(Step::Tell {
            site: words.place()?,
        }),
        "post" => Ok(Step::Post {
            site: words.place()?,
            told: words.place()?,
        }),
        "deliver" => Ok(Step::Deliver {
            post: words.place()?,
        }),
        kind => step_with_text(alloc, kind, words),
    }
}

fn steps(alloc: Global, text: &str) -> Result<Vec<Step>, Fail> {
    let mut steps = Vec::new(alloc);
    for step_text in text.split("; ") {
        steps.push(step(alloc, &mut Words::new(step_text))?)?;
    }
    Ok(steps)
}

fn shown_fault(alloc: Global, fault: PlayFault) -> Result<String, Fail> {
    Ok(shown::play_fault(alloc, &fault)?)
}
