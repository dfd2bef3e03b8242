//! The live labels of a site, as language maps.
ghost use Rattle.std.specs.Prelude.{◌≡◌, IfOk, IfSome, MatchResult};
ghost use Rattle.std.specs.Option.{option_copied};
ghost use Rattle.json_docs.specs.FaultChecks.{OrMemory};
ghost use Rattle.row_docs.specs.Reading.{IsOfDocument, no_memory};
ghost use Rattle.site_docs.specs.Reading.{RefusesSite};
ghost use Rattle.map_docs.specs.WritingTexts.{IsTextOf};
ghost use Rattle.query_docs.specs.Exporting.{IsExported, label_at, live_labels};

use crate::draft::Draft;
use cata_core::Catalogue;
use cell_core::{Label, MessageId};
use json_docs::{Doc, DocFault};
use lang_core::Lang;
use site_docs::{show_catalogue, show_document};
use std::alloc::{AllocError, Global};

/// The language-map document of the live labels of the site: deletions are left out, and so is a
/// message without a live label.
///
/// Refusals: a reader's with document 1. Out of memory (26) may come before.
pub fn export_document(alloc: Global, site: &[u8]) -> Result<Doc, DocFault>
    ensures { MatchResult result (IsExported site.now)
        (OrMemory no_memory (IsOfDocument 1 (RefusesSite site.now))) }
{
    let start = Draft::new(alloc)?;
    let (_, draft) = show_document(alloc, 1, site, &start)?;
    let (doc, _) = draft.close()?;
    Ok(doc)
}

/// The language-map document of the live labels of a catalogue: what
/// [`export_document`](crate::export_document) gives for the document of its site.
///
/// Its one refusal is out of memory (26).
pub fn write_live_labels(alloc: Global, catalogue: &Catalogue) -> Result<Doc, AllocError>
    ensures { IfOk result (λ doc. IsTextOf (live_labels catalogue.now) doc) }
{
    let start = Draft::new(alloc)?;
    let draft = show_catalogue(alloc, catalogue, &start)?;
    let (doc, _) = draft.close()?;
    Ok(doc)
}

/// The live label of a message in a language.
pub fn label_at<'a>(catalogue: &'a Catalogue, id: &MessageId, lang: &Lang) -> Option<&'a Label>
    ensures { option_copied result ≡ label_at (id.now, lang.now) catalogue.now }
{
    match catalogue.cell(id, lang) {
        Some(cell) => cell.label(),
        None => None,
    }
}
