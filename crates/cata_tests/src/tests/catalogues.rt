//! Catalogues: what wins, at which place a key is, and which clash is reported.

use super::makers::{catalogue, cell, edit, id, lang};
use super::shown;
use super::words::{Words, gives, gives_in};
use cata_core::{CataFault, Catalogue};
use cell_core::Cell;
use std::alloc::Global;
use std::test::Fail;

/// What a catalogue holds after these edits.
fn applied(alloc: Global, edits: &str) -> Result<String, Fail> {
    Ok(shown::cells(alloc, &catalogue(alloc, edits)?)?)
}

/// How one more edit ends, and what the catalogue then holds.
fn applying(alloc: Global, held: &str, coming: &str) -> Result<String, Fail> {
    let mut own = catalogue(alloc, held)?;
    let coming = edit(alloc, coming)?;
    shown_end(alloc, own.apply(alloc, &coming), &own)
}

/// How a merge ends, and what the first then holds.
fn merging(alloc: Global, own: &str, other: &str) -> Result<String, Fail> {
    let mut own = catalogue(alloc, own)?;
    let other = catalogue(alloc, other)?;
    shown_end(alloc, own.merge(alloc, &other), &own)
}

fn shown_end(
    alloc: Global,
    ended: Result<(), CataFault>,
    left: &Catalogue,
) -> Result<String, Fail> {
    let outcome = shown::outcome(alloc, &ended)?;
    let cells = shown::cells(alloc, left)?;
    Ok(format!(in alloc; "{outcome}: {cells}")?)
}

/// The message and language at a place.
fn key_at(alloc: Global, held: &Catalogue, place: u128) -> Result<String, Fail> {
    match held.nth(place) {
        Some((id, lang, _)) => Ok(format!(in alloc; "{} {}", id.as_str(), lang.as_str())?),
        None => Ok("none".to_string(alloc)?),
    }
}

/// A case, a place, and the message and language there.
const PLACES: &[(&str, u128, &str)] = &[
    ("the first place is without language", 0, "m @none"),
    ("places go on over messages", 2, "n en"),
    ("no key stands behind the last", 3, "none"),
];

#[test]
fn keys_by_place(rt: HostRuntime) -> Result<(), Fail> {
    let held = catalogue(rt.alloc(), "n en 1 1 0 a; m fr 1 1 0 b; m @none 1 1 0 c")?;
    for (case, place, wanted) in PLACES {
        gives_in(case, key_at(rt.alloc(), &held, *place), wanted)?;
    }
    Ok(())
}

fn lengths(alloc: Global, held: &str) -> Result<String, Fail> {
    let held = catalogue(alloc, held)?;
    Ok(format!(in alloc; "{} in {}", held.len(), held.map().len())?)
}

#[test]
fn lengths_count_cells_and_messages(rt: HostRuntime) -> Result<(), Fail> {
    gives(
        lengths(rt.alloc(), "n en 1 1 0 a; m fr 1 1 0 b; m @none 1 1 0 -"),
        "3 in 2",
    )
}

/// The cell of a message in a language.
fn cell_at(alloc: Global, held: &Catalogue, message: &str, tag: &str) -> Result<String, Fail> {
    let id = id(alloc, message)?;
    let lang = lang(alloc, tag)?;
    shown_cell(alloc, held.cell(&id, &lang))
}

fn shown_cell(alloc: Global, cell: Option<&Cell>) -> Result<String, Fail> {
    match cell {
        Some(cell) => Ok(shown::cell(alloc, cell)?),
        None => Ok("none".to_string(alloc)?),
    }
}

/// A case, what is held, a message, a language, and the cell.
const CELLS: &[(&str, &str, &str, &str, &str)] = &[
    (
        "a cell is found by its language",
        "m en 1 1 0 a; m fr 2 1 0 b",
        "m",
        "fr",
        "2 0000000001 0 b",
    ),
    (
        "no cell is found in another language",
        "m en 1 1 0 a; n fr 2 1 0 b",
        "m",
        "fr",
        "none",
    ),
];

fn cell_in(alloc: Global, held: &str, message: &str, tag: &str) -> Result<String, Fail> {
    cell_at(alloc, &catalogue(alloc, held)?, message, tag)
}

#[test]
fn cells_by_message_and_language(rt: HostRuntime) -> Result<(), Fail> {
    for (case, held, message, tag, wanted) in CELLS {
        gives_in(case, cell_in(rt.alloc(), held, message, tag), wanted)?;
    }
    Ok(())
}

/// What a catalogue holds after a cell is put after all others.
fn pushed(alloc: Global) -> Result<String, Fail> {
    let cell = cell(alloc, &mut Words::new("5 1 0 a"))?;
    let (id, lang) = (id(alloc, "m")?, lang(alloc, "en")?);
    let mut catalogue = Catalogue::new(alloc);
    catalogue.push(alloc, id, lang, cell)?;
    Ok(shown::cells(alloc, &catalogue)?)
}

#[test]
fn a_pushed_cell_is_held(rt: HostRuntime) -> Result<(), Fail> {
    gives(pushed(rt.alloc()), "m en 5 0000000001 0 a")
}

/// What changed between two catalogues.
fn changed(alloc: Global, before: &str, after: &str) -> Result<String, Fail> {
    let (before, after) = (catalogue(alloc, before)?, catalogue(alloc, after)?);
    Ok(shown::changes(alloc, before.changes(&after))?)
}

/// Whether two catalogues agree.
fn agreeing(alloc: Global, one: &str, other: &str) -> Result<String, Fail> {
    let (one, other) = (catalogue(alloc, one)?, catalogue(alloc, other)?);
    Ok(format!(in alloc; "{}", one.agrees(&other))?)
}

/// What is asked of one text, and another.
fn asked(alloc: Global, kind: &str, one: &str, other: &str) -> Result<String, Fail> {
    match kind {
        "edits" => applied(alloc, one),
        "edit" => applying(alloc, one, other),
        "merge" => merging(alloc, one, other),
        "agree" => agreeing(alloc, one, other),
        _ => changed(alloc, one, other),
    }
}

/// A case, what is asked, of which texts, and what it gives: how it ends, and what is then
/// held, or what changed.
const ROWS: &[(&str, &str, &str, &str, &str)] = &[
    (
        "a later deletion stays",
        "edits",
        "m en 9 1 0 -; m en 5 2 0 x",
        "",
        "m en 9 0000000001 0 -",
    ),
    (
        "keys ascend by id then language",
        "edits",
        "n en 1 1 0 a; m fr 1 1 0 b; m @none 1 1 0 c; m de 1 1 0 -; M en 1 1 0 d",
        "",
        "M en 1 0000000001 0 d; m @none 1 0000000001 0 c; m de 1 0000000001 0 -; m fr 1 0000000001 0 b; n en 1 0000000001 0 a",
    ),
    (
        "an equal cell is no clash",
        "edit",
        "m en 4 1 0 x",
        "m en 4 1 0 x",
        "done: m en 4 0000000001 0 x",
    ),
    (
        "a deletion clashes with a label",
        "edit",
        "a en 1 1 0 x; b en 4 1 0 x",
        "b en 4 1 0 -",
        "13 stamp 4 0000000001 0 used twice, cell 1: a en 1 0000000001 0 x; b en 4 0000000001 0 x",
    ),
    (
        "the least clash is told",
        "merge",
        "a en 1 1 0 x; b de 3 1 0 x; b en 4 1 0 x",
        "b en 4 1 0 y; b de 3 1 0 y; c en 1 1 0 y",
        "13 stamp 3 0000000001 0 used twice, cell 1: a en 1 0000000001 0 x; b de 3 0000000001 0 x; b en 4 0000000001 0 x",
    ),
    (
        "both are kept",
        "merge",
        "m en 1 1 0 a; m fr 1 1 1 b",
        "m en 2 1 0 -; z en 3 1 0 c",
        "done: m en 2 0000000001 0 -; m fr 1 0000000001 1 b; z en 3 0000000001 0 c",
    ),
    (
        "cells of one stamp and one label agree, as do those of several stamps",
        "agree",
        "m en 1 1 0 a; m fr 2 1 0 b",
        "m en 1 1 0 a; m fr 3 1 0 c; n en 1 1 0 d",
        "true",
    ),
    (
        "cells of one stamp and two labels do not agree",
        "agree",
        "m en 1 1 0 a; n en 4 1 0 x",
        "n en 4 1 0 y",
        "false",
    ),
    (
        "an equal cell is left out",
        "changes",
        "m en 5 paris 0 Hello; m fr 5 paris 1 Salut",
        "m en 5 paris 0 Hello; m fr 9 tokyo 0 -; n de 7 tokyo 0 a",
        "m fr: 5 paris 1 Salut, 9 tokyo 0 -; n de: none, 7 tokyo 0 a",
    ),
    (
        "nothing changed",
        "changes",
        "m en 5 paris 0 x",
        "m en 5 paris 0 x",
        "",
    ),
    (
        "one stamp with two labels is a change",
        "changes",
        "m en 5 paris 0 x",
        "m en 5 paris 0 y",
        "m en: 5 paris 0 x, 5 paris 0 y",
    ),
    (
        "what was there alone is left out of neither end",
        "changes",
        "a en 1 paris 0 x; m de 2 paris 0 y; z fr 3 paris 0 -",
        "m de 2 paris 0 y",
        "a en: 1 paris 0 x, none; z fr: 3 paris 0 -, none",
    ),
    (
        "from nothing",
        "changes",
        "",
        "m de 2 paris 0 y; m en 3 paris 0 z",
        "m de: none, 2 paris 0 y; m en: none, 3 paris 0 z",
    ),
    ("of two empty ones", "changes", "", "", ""),
];

#[test]
fn rows(rt: HostRuntime) -> Result<(), Fail> {
    for (case, kind, one, other, wanted) in ROWS {
        gives_in(case, asked(rt.alloc(), kind, one, other), wanted)?;
    }
    Ok(())
}
