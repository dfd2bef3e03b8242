//! When values are equal, and that copies are.

use super::makers::{catalogue, edit, id, list, name, site};
use super::steps;
use super::words::gives_in;
use cata_core::{Catalogue, Delta, Entries};
use nego_core::Scheme;
use std::alloc::Global;
use std::test::Fail;

/// "equal" or "not equal".
fn compared(alloc: Global, are_equal: bool) -> Result<String, Fail> {
    let shown = if are_equal { "equal" } else { "not equal" };
    Ok(shown.to_string(alloc)?)
}

fn edits_compared(alloc: Global, one: &str, other: &str) -> Result<String, Fail> {
    let (one, other) = (edit(alloc, one)?, edit(alloc, other)?);
    compared(alloc, one == other)
}

fn catalogues_compared(alloc: Global, one: &str, other: &str) -> Result<String, Fail> {
    let (one, other) = (catalogue(alloc, one)?, catalogue(alloc, other)?);
    compared(alloc, one == other)
}

fn delta(alloc: Global, addressee: &str) -> Result<Delta, Fail> {
    let cells = catalogue(alloc, "m en 5 1 0 a")?;
    Ok(Delta::from_catalogue(name(addressee)?, cells))
}

fn deltas_compared(alloc: Global, one: &str, other: &str) -> Result<String, Fail> {
    let (one, other) = (delta(alloc, one)?, delta(alloc, other)?);
    compared(alloc, one == other)
}

fn sites_compared(alloc: Global, one: &str, other: &str) -> Result<String, Fail> {
    let (one, other) = (
        site(alloc, one, "m en 5 1 0 a")?,
        site(alloc, other, "m en 5 1 0 a")?,
    );
    compared(alloc, one == other)
}

/// A message in three languages.
fn greetings(alloc: Global) -> Result<Catalogue, Fail> {
    catalogue(
        alloc,
        "m en 1 1 1 Hello; m fr 1 1 2 Bonjour; m de 1 1 3 Hallo",
    )
}

/// What a list takes of it.
fn filtered(alloc: Global, catalogue: &Catalogue, field: &str) -> Result<Entries, Fail> {
    let id = id(alloc, "m")?;
    let list = list(alloc, Scheme::Basic, field)?;
    let lent = catalogue.ask_filter(alloc, &id, &list, Scheme::Basic)?;
    Ok(lent.copy(alloc)?)
}

fn filtered_compared(
    alloc: Global,
    catalogue: &Catalogue,
    one: &str,
    other: &str,
) -> Result<String, Fail> {
    let one = filtered(alloc, catalogue, one)?;
    let other = filtered(alloc, catalogue, other)?;
    compared(alloc, one == other)
}

fn filters_compared(alloc: Global, one: &str, other: &str) -> Result<String, Fail> {
    filtered_compared(alloc, &greetings(alloc)?, one, other)
}

fn runs_compared(alloc: Global, one: &str, other: &str) -> Result<String, Fail> {
    let (one, other) = (
        steps::answered(alloc, 2, one)?,
        steps::answered(alloc, 2, other)?,
    );
    compared(alloc, one == other)
}

/// Whether a copy of the answers of this run is equal to them.
fn copied_answers(alloc: Global, text: &str) -> Result<String, Fail> {
    let answers = steps::answered(alloc, 2, text)?;
    compared(alloc, answers.copy(alloc)? == answers)
}

fn copied_site(alloc: Global, edits: &str) -> Result<String, Fail> {
    let site = site(alloc, "1", edits)?;
    let copy = site.copy(alloc)?;
    compared(alloc, copy == site && copy.last() == site.last())
}

fn copied_delta(alloc: Global, addressee: &str) -> Result<String, Fail> {
    let delta = delta(alloc, addressee)?;
    compared(alloc, delta.copy(alloc)? == delta)
}

fn copied_edit(alloc: Global, text: &str) -> Result<String, Fail> {
    let edit = edit(alloc, text)?;
    compared(alloc, edit.copy(alloc)? == edit)
}

fn copied_summary(alloc: Global, edits: &str) -> Result<String, Fail> {
    let summary = site(alloc, "1", edits)?.summary(alloc)?;
    compared(alloc, summary.copy(alloc)? == summary)
}

/// Whether a copy of the catalogue, after one more edit, is equal to it.
fn copied_and_edited(alloc: Global, edits: &str, text: &str) -> Result<String, Fail> {
    let edit = edit(alloc, text)?;
    let catalogue = catalogue(alloc, edits)?;
    let mut copy = catalogue.copy(alloc)?;
    copy.apply(alloc, &edit)?;
    compared(alloc, copy == catalogue)
}

/// What is asked of one text, and another.
fn asked(alloc: Global, kind: &str, one: &str, other: &str) -> Result<String, Fail> {
    match kind {
        "edits" => edits_compared(alloc, one, other),
        "catalogues" => catalogues_compared(alloc, one, other),
        "deltas" => deltas_compared(alloc, one, other),
        "sites" => sites_compared(alloc, one, other),
        "filters" => filters_compared(alloc, one, other),
        "runs" => runs_compared(alloc, one, other),
        "copied answers" => copied_answers(alloc, one),
        "copied site" => copied_site(alloc, one),
        "copied delta" => copied_delta(alloc, one),
        "copied edit" => copied_edit(alloc, one),
        "copied summary" => copied_summary(alloc, one),
        _ => copied_and_edited(alloc, one, other),
    }
}

/// A case, what is asked, of which texts, and whether the two values are equal.
const ROWS: &[(&str, &str, &str, &str, &str)] = &[
    (
        "edits of one cell are equal",
        "edits",
        "m en 5 1 0 a",
        "m EN 5 1 0 a",
        "equal",
    ),
    (
        "edits of two stamps differ",
        "edits",
        "m en 5 1 0 a",
        "m en 5 1 1 a",
        "not equal",
    ),
    (
        "a deletion is no label",
        "edits",
        "m en 5 1 0 a",
        "m en 5 1 0 -",
        "not equal",
    ),
    (
        "the same edits in any order make equal catalogues",
        "catalogues",
        "m en 5 1 0 a; m fr 4 1 0 b; m en 6 2 0 c",
        "m en 6 2 0 c; m en 5 1 0 a; m fr 4 1 0 b; m en 5 1 0 a",
        "equal",
    ),
    (
        "a catalogue of fewer cells differs",
        "catalogues",
        "m en 5 1 0 a",
        "m en 5 1 0 a; n en 5 1 0 a",
        "not equal",
    ),
    ("deltas for one site are equal", "deltas", "1", "1", "equal"),
    (
        "deltas for two sites differ",
        "deltas",
        "1",
        "2",
        "not equal",
    ),
    ("sites of two names differ", "sites", "1", "2", "not equal"),
    (
        "answers of a filter go by weight alone",
        "filters",
        "en, fr;q=0.5",
        "fr;q=0.5, en, es",
        "equal",
    ),
    (
        "answers of a filter differ by weights",
        "filters",
        "en, fr;q=0.5",
        "en, fr;q=0.6",
        "not equal",
    ),
    (
        "answers of a filter differ by languages",
        "filters",
        "en, fr",
        "en, de",
        "not equal",
    ),
    (
        "runs of the same edits answer equally",
        "runs",
        "edit 0 m en 5 1 0 a; edit 0 m fr 4 1 0 b; lookup 0 m - fr; filter 0 m basic *; cells 0",
        "edit 1 m fr 4 1 0 b; edit 0 m en 5 1 0 a; merge 0 1; lookup 0 m - fr; filter 0 m basic *; cells 0",
        "equal",
    ),
    (
        "another label is another answer",
        "runs",
        "edit 0 m en 5 1 0 a; lookup 0 m - en",
        "edit 0 m en 5 1 0 b; lookup 0 m - en",
        "not equal",
    ),
    (
        "a default is no match",
        "runs",
        "edit 0 m en 5 1 0 a; lookup 0 m en fr",
        "edit 0 m en 5 1 0 a; lookup 0 m - en",
        "not equal",
    ),
    (
        "fewer answers differ",
        "runs",
        "edit 0 m en 5 1 0 a; cells 0; cells 0",
        "edit 0 m en 5 1 0 a; cells 0",
        "not equal",
    ),
    (
        "a copy of answers of each kind",
        "copied answers",
        "edit 0 m en 5 1 0 a; lookup 0 m - en; lookup 0 m en fr; lookup 0 m - fr; filter 0 m basic *; cells 0; cells 1",
        "",
        "equal",
    ),
    (
        "a copy of a site",
        "copied site",
        "m en 5 1 0 a; m fr 4 1 0 -",
        "",
        "equal",
    ),
    ("a copy of a delta", "copied delta", "1", "", "equal"),
    (
        "a copy of an edit",
        "copied edit",
        "m en 5 1 0 -",
        "",
        "equal",
    ),
    (
        "a copy of a summary",
        "copied summary",
        "m en 5 1 0 a; n fr 4 1 0 -",
        "",
        "equal",
    ),
    (
        "a copy of a catalogue is one of its own",
        "copied and edited",
        "m en 5 1 0 a",
        "m en 6 1 0 b",
        "not equal",
    ),
];

#[test]
fn rows(rt: HostRuntime) -> Result<(), Fail> {
    for (case, kind, one, other, wanted) in ROWS {
        gives_in(case, asked(rt.alloc(), kind, one, other), wanted)?;
    }
    Ok(())
}
