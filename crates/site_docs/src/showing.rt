//! The cells of a site, shown to a sink one after another: of a document, or of a catalogue.
ghost use Rattle.std.specs.Prelude.{◌≡◌, [], IfOk, MatchResult, OnOk};
ghost use Rattle.cell_core.specs.Keyed.{IsMap};
ghost use Rattle.cell_core.specs.Entry.{key_cmp};
ghost use Rattle.catalogue.specs.Entries.{Entries};
ghost use Rattle.json_docs.specs.FaultChecks.{OrMemory};
ghost use Rattle.row_docs.specs.Reading.{IsOfDocument, no_memory};
ghost use Rattle.site_docs.specs.Reading.{ReadsAsSite, RefusesSite};
ghost use Rattle.site_docs.specs.Sink.{IsLabelRef, texts_of};

use crate::document::site_documents::show_members;
use crate::plain::documents::show_written;
use crate::sink::{CellRef, CellSink, LabelRef};
use cata_core::Catalogue;
use cell_core::{Cell, SiteName};
use json_docs::DocFault;
use row_docs::Kind;
use std::alloc::{AllocError, Global};

/// Shows the cells of the site of a document to a sink as this one, and answers the name of the
/// site, and the sink.
///
/// Refused as the document is by its reader, with its number, or since memory ran out (26).
pub fn show_document<'t, S: CellSink<'t>>(
    alloc: Global,
    document: usize,
    bytes: &'t [u8],
    start: &S,
) -> Result<(SiteName, S), DocFault>
    ensures { MatchResult result (λ shown. (cells : Entries)
        × ReadsAsSite bytes.now (record { name = shown.0; cells = cells }) × IsMap key_cmp cells
        × S.Holds start.now shown.1 cells)
        (OrMemory no_memory (IsOfDocument document (RefusesSite bytes.now))) }
{
    let mut sink = start.begin(alloc)?;
    match show_written(alloc, bytes, &mut sink) {
        Some(name) => Ok((name, sink)),
        None => match show_members(alloc, bytes, Kind::Site, start) {
            Ok(shown) => Ok(shown),
            Err(cause) => Err(DocFault::of_document(document, cause)),
        },
    }
}

/// Shows the cells of a catalogue to the sink.
///
/// Its one refusal is out of memory (26).
pub fn show_catalogue<'t, S: CellSink<'t>>(
    alloc: Global,
    cells: &'t Catalogue,
    start: &S,
) -> Result<S, AllocError>
    ensures { IfOk result (λ sink. IsMap key_cmp cells.now
        × S.Holds start.now sink cells.now) }
{
    let mut sink = start.begin(alloc)?;
    for (id, lang, cell) in cells.iter() {
        let label = held_label(cell);
        let stamp = cell.stamp();
        sink.see(
            alloc,
            CellRef {
                id,
                lang,
                stamp,
                label,
                row: None,
            },
        )?;
    }
    Ok(sink)
}

/// The label of a cell.
fn held_label(cell: &Cell) -> LabelRef<'_>
    ensures texts { texts_of result ≡ cell.now.label }
    ensures label { IsLabelRef result }
{
    match cell.label() {
        Some(label) => LabelRef::Held(label),
        None => LabelRef::Deleted,
    }
}
