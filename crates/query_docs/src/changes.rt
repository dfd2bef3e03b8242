//! What changed between two states of a site.
ghost use Rattle.std.specs.Prelude.{◌≡◌, IfOk, MatchResult, OnOk, Some, length, option_map};
ghost use Rattle.std.specs.Option.{option_copied};
ghost use Rattle.cell_core.specs.Label.{texts_of};
ghost use Rattle.catalogue.specs.Changes.{AreChanges, Changed};
ghost use Rattle.catalogue.specs.ChangesLeft.{change_seen};
ghost use Rattle.json_docs.specs.FaultChecks.{OrMemory};
ghost use Rattle.row_docs.specs.Reading.{no_memory};
ghost use Rattle.row_docs.specs.WritingTexts.{Adds, value_tokens};
ghost use Rattle.query_docs.specs.Changes.{IsChanged, RefusesChanged, change_value, changes_lines};
ghost use Rattle.query_docs.specs.Changes.{has_change, side_value};

use crate::lines::Lines;
use cata_core::{Catalogue, Change};
use cell_core::{Cell, Stamp};
use json::Writer;
use json_docs::{Doc, DocFault};
use row_docs::write_texts;
use site_docs::site_at;
use std::alloc::{AllocError, Global};

/// `changes N`, then N lines in ascending order of key, and whether there is a change: one line for
/// each key whose cells in the two sites are not equal, or that one of them lacks.
///
/// A line is the compact text of `[ID,LANGUAGE,BEFORE,AFTER]`. BEFORE and AFTER are
/// `[TIME,SITE,COUNT,LABEL]`, with null for the label of a deletion, or null where that site has no
/// cell of the key. Cells are equal where their stamps and their labels are. Which sites the
/// documents name does not matter.
///
/// Refusals, in their order: a reader's with document 1, a reader's with document 2. Out of memory
/// (26) may come before.
pub fn changes_document(alloc: Global, before: &[u8], after: &[u8]) -> Result<(Doc, bool), DocFault>
    ensures { MatchResult result (λ answer. IsChanged before.now after.now answer.0 answer.1)
        (OrMemory no_memory (RefusesChanged before.now after.now)) }
{
    let before = site_at(alloc, 1, before)?;
    let after = site_at(alloc, 2, after)?;
    let answer = changes_lines(alloc, before.catalogue(), after.catalogue())?;
    Ok(answer)
}

/// The same of catalogues in memory: what [`changes_document`] gives for the documents of their
/// sites.
///
/// Its one refusal is out of memory (26).
pub fn changes_lines(
    alloc: Global,
    before: &Catalogue,
    after: &Catalogue,
) -> Result<(Doc, bool), AllocError>
    ensures { IfOk result (λ answer. (changes : Changed) × AreChanges before.now after.now changes
        × (answer.0 ≡ changes_lines changes) × (answer.1 ≡ has_change changes)) }
{
    let count = change_count(before, after)?;
    let head = format!(in alloc; "changes {count}\n")?;
    let mut written = Lines::new(alloc).text(head.as_str())?;
    for change in before.changes(after) {
        written = written.change(&change)?;
    }
    Ok((written.into_doc(), count != 0))
}

/// Adds `[id, language, before, after]`.
pub(crate) fn write_change(out: &mut Writer, change: &Change<'_>) -> Result<(), AllocError>
    ensures { OnOk result (Adds out.old out.new (value_tokens (change_value
        (change_seen change.now)))) }
{
    out.begin_array()?;
    out.string(change.id.as_str())?;
    out.string(change.lang.as_str())?;
    write_side(out, change.before)?;
    write_side(out, change.after)?;
    out.end_array()
}

/// How many keys changed; there is no memory for more than 128 bits count.
fn change_count(before: &Catalogue, after: &Catalogue) -> Result<u128, AllocError>
    ensures { IfOk result (λ count. (changes : Changed) → AreChanges before.now after.now changes
        → count ≡ length changes) }
{
    let mut count = 0u128;
    for _ in before.changes(after) {
        let Some(more) = count.checked_add(1) else {
            return Err(AllocError);
        };
        count = more;
    }
    Ok(count)
}

/// Adds `[time, site, count, label]` of a cell, or null where there is none.
fn write_side(out: &mut Writer, cell: Option<&Cell>) -> Result<(), AllocError>
    ensures { OnOk result (Adds out.old out.new (value_tokens (side_value
        (option_copied cell.entry)))) }
{
    match cell {
        Some(cell) => write_held(out, cell),
        None => out.null(),
    }
}

/// Adds `[time, site, count, label]` of a cell.
fn write_held(out: &mut Writer, cell: &Cell) -> Result<(), AllocError>
    ensures { OnOk result (Adds out.old out.new (value_tokens (side_value (Some cell.now)))) }
{
    match cell.label() {
        Some(label) => write_stamped(out, cell.stamp(), Some(label.texts())),
        None => write_stamped(out, cell.stamp(), None),
    }
}

/// Adds `[time, site, count, label]`; no label is null.
fn write_stamped(out: &mut Writer, stamp: Stamp, label: Option<&[String]>) -> Result<(), AllocError>
    ensures { OnOk result (Adds out.old out.new (value_tokens (side_value (Some
        (record {
          stamp = stamp;
          label = option_map
              (λ texts. texts_of texts.now) label.entry;
        }))))) }
{
    out.begin_array()?;
    out.u64(stamp.time)?;
    out.string(stamp.site.as_str())?;
    out.u64(u64::from(stamp.count))?;
    match label {
        None => out.null()?,
        Some(texts) => write_texts(out, texts)?,
    }
    out.end_array()
}
