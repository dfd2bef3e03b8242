//! The entries of a catalogue and of a summary as rows of documents.
ghost use Rattle.std.specs.Prelude.{OnOk};
ghost use Rattle.row_docs.specs.Entries.{row_of, stamped_value};
ghost use Rattle.row_docs.specs.WritingTexts.{Adds, value_tokens};
ghost use Rattle.row_docs.specs.EntriesValid.{IsKeptCell, IsKeptStamp};
ghost use Rattle.row_docs.specs.EntriesValues.{cell_value};

use crate::writing::{WrittenRow, write_cell, write_stamp};
use cell_core::{Cell, MessageId, Stamp};
use json::Writer;
use lang_core::Lang;
use std::alloc::AllocError;

/// Adds `[id, language, time, site, count, label]` of the cell at this key.
pub fn write_entry(
    out: &mut Writer,
    id: &MessageId,
    lang: &Lang,
    cell: &Cell,
) -> Result<(), AllocError>
    ensures tokens { OnOk result (Adds out.old out.new
        (value_tokens (cell_value (row_of ((id.now, lang.now), cell.now)) cell.now.label))) }
    ensures kept { OnOk result (IsKeptCell ((id.now, lang.now), cell.now)) }
{
    let stamp = cell.stamp();
    let row = WrittenRow {
        id: id.as_str(),
        language: lang.as_str(),
        time: stamp.time,
        site: stamp.site.as_str(),
        count: stamp.count,
    };
    match cell.label() {
        Some(label) => write_cell(out, &row, Some(label.texts())),
        None => write_cell(out, &row, None),
    }
}

/// Adds `[id, language, time, site, count]` of the stamp at this key.
pub fn write_stamped(
    out: &mut Writer,
    id: &MessageId,
    lang: &Lang,
    stamp: Stamp,
) -> Result<(), AllocError>
    ensures tokens { OnOk result (Adds out.old out.new
        (value_tokens (stamped_value ((id.now, lang.now), stamp)))) }
    ensures kept { OnOk result (IsKeptStamp ((id.now, lang.now), stamp)) }
{
    let row = WrittenRow {
        id: id.as_str(),
        language: lang.as_str(),
        time: stamp.time,
        site: stamp.site.as_str(),
        count: stamp.count,
    };
    write_stamp(out, &row)
}
