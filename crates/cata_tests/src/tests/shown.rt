//! Shows what the calls answer as texts.

use cata_core::{
    Answer, Answers, CataFault, Catalogue, Changes, Edit, Edits, Entries, PlayFault, Reply,
};
use cell_core::{Cell, Label, Stamp};
use lang_core::Lang;
use std::alloc::{AllocError, Global};

/// The first text of a label.
pub fn text_of(label: &Label) -> &str {
    match label.texts().first() {
        Some(text) => text.as_str(),
        None => "",
    }
}

pub fn stamp(alloc: Global, stamp: Stamp) -> Result<String, AllocError> {
    format!(in alloc; "{} {} {}", stamp.time, stamp.site.as_str(), stamp.count)
}

/// The stamp, or none.
pub fn last(alloc: Global, last: Option<Stamp>) -> Result<String, AllocError> {
    match last {
        Some(last) => stamp(alloc, last),
        None => "none".to_string(alloc),
    }
}

/// A stamp with the text of its label, or "-" for a deletion.
pub fn cell(alloc: Global, cell: &Cell) -> Result<String, AllocError> {
    let stamp = stamp(alloc, cell.stamp())?;
    let label = match cell.label() {
        Some(label) => text_of(label),
        None => "-",
    };
    format!(in alloc; "{stamp} {label}")
}

/// All cells of a catalogue.
pub fn cells(alloc: Global, catalogue: &Catalogue) -> Result<String, AllocError> {
    let mut list = String::new(alloc);
    for (id, lang, held) in catalogue.iter() {
        let held = cell(alloc, held)?;
        let item = format!(in alloc; "{} {} {held}", id.as_str(), lang.as_str())?;
        push(&mut list, &item)?;
    }
    Ok(list)
}

/// Each key that changed, with the cells before and after.
pub fn changes(alloc: Global, changes: Changes<'_>) -> Result<String, AllocError> {
    let mut list = String::new(alloc);
    for change in changes {
        let (id, lang) = (change.id.as_str(), change.lang.as_str());
        let before = cell_if(alloc, change.before)?;
        let after = cell_if(alloc, change.after)?;
        let item = format!(in alloc; "{id} {lang}: {before}, {after}")?;
        push(&mut list, &item)?;
    }
    Ok(list)
}

pub fn entries(alloc: Global, entries: &Entries) -> Result<String, AllocError> {
    let mut list = "filter".to_string(alloc)?;
    for place in 0..entries.len() {
        if let Some((lang, label, weight)) = entries.nth(place) {
            let found = labelled(alloc, lang, label)?;
            let item = format!(in alloc; "{found} {weight}")?;
            push(&mut list, &item)?;
        }
    }
    Ok(list)
}

pub fn reply(alloc: Global, reply: &Reply) -> Result<String, AllocError> {
    match reply {
        Reply::Matched(lang, label) => {
            let found = labelled(alloc, lang, label)?;
            format!(in alloc; "matched {found}")
        }
        Reply::Default(lang, label) => {
            let found = labelled(alloc, lang, label)?;
            format!(in alloc; "default {found}")
        }
        Reply::Nothing => "nothing".to_string(alloc),
    }
}

/// All answers, one after the other.
pub fn answers(alloc: Global, answers: &Answers) -> Result<String, AllocError> {
    let mut list = String::new(alloc);
    for place in 0..answers.len() {
        if let Some(found) = answers.nth(place) {
            let item = answer(alloc, found)?;
            push(&mut list, &item)?;
        }
    }
    Ok(list)
}

/// The number and the text of a refusal.
pub fn fault(alloc: Global, fault: &CataFault) -> Result<String, AllocError> {
    format!(in alloc; "{} {fault}", fault.number())
}

/// The same of a run.
pub fn play_fault(alloc: Global, fault: &PlayFault) -> Result<String, AllocError> {
    format!(in alloc; "{} {fault}", fault.number())
}

/// "done", or the refusal.
pub fn outcome(alloc: Global, ended: &Result<(), CataFault>) -> Result<String, AllocError> {
    match ended {
        Ok(()) => "done".to_string(alloc),
        Err(found) => fault(alloc, found),
    }
}

/// The stamp, or the refusal.
pub fn stamped(alloc: Global, ended: &Result<Stamp, CataFault>) -> Result<String, AllocError> {
    match ended {
        Ok(found) => stamp(alloc, *found),
        Err(found) => fault(alloc, found),
    }
}

/// Adds an item to a list.
fn push(list: &mut String, item: &str) -> Result<(), AllocError> {
    if !list.is_empty() {
        list.push_str("; ")?;
    }
    list.push_str(item)
}

/// The cell, or none.
fn cell_if(alloc: Global, held: Option<&Cell>) -> Result<String, AllocError> {
    match held {
        Some(held) => cell(alloc, held),
        None => "none".to_string(alloc),
    }
}

fn edit(alloc: Global, edit: &Edit) -> Result<String, AllocError> {
    let held = cell(alloc, edit.cell())?;
    format!(in alloc; "{} {} {held}", edit.id().as_str(), edit.lang().as_str())
}

fn edits(alloc: Global, edits: &Edits) -> Result<String, AllocError> {
    let mut list = "cells".to_string(alloc)?;
    for place in 0..edits.len() {
        if let Some(found) = edits.nth(place) {
            let item = edit(alloc, found)?;
            push(&mut list, &item)?;
        }
    }
    Ok(list)
}

fn labelled(alloc: Global, lang: &Lang, label: &Label) -> Result<String, AllocError> {
    format!(in alloc; "{} {}", lang.as_str(), text_of(label))
}

fn answer(alloc: Global, answer: &Answer) -> Result<String, AllocError> {
    match answer {
        Answer::Cells(found) => edits(alloc, found),
        Answer::Filter(found) => entries(alloc, found),
        Answer::Lookup(found) => reply(alloc, found),
    }
}
