//! What a translator has to do: the messages that lack a language.
ghost use Rattle.std.specs.Prelude.{IfOk, MatchResult};
ghost use Rattle.json_docs.specs.FaultChecks.{OrMemory};
ghost use Rattle.row_docs.specs.Reading.{IsOfDocument, no_memory};
ghost use Rattle.site_docs.specs.Reading.{RefusesSite};
ghost use Rattle.map_docs.specs.WritingTexts.{AreWritten};
ghost use Rattle.query_docs.specs.Missing.{IsMissing, missing_labels};

use crate::chosen::{chosen_document, write_chosen};
use crate::messages::Messages;
use cata_core::Catalogue;
use json_docs::{Doc, DocFault};
use lang_core::Lang;
use std::alloc::{AllocError, Global};

/// The language-map document of the messages that have a live label but none of just this language,
/// each with all its live labels, and whether there is one. A deleted label is none, and `fr-ca` is
/// not `fr`. The document reads as these labels.
///
/// Refusals: a reader's with document 1. Out of memory (26) may come before.
pub fn missing_document(alloc: Global, site: &[u8], lang: &Lang) -> Result<(Doc, bool), DocFault>
    ensures { MatchResult result (λ answer. IsMissing site.now lang.now answer.0 answer.1)
        (OrMemory no_memory (IsOfDocument 1 (RefusesSite site.now))) }
{
    chosen_document(alloc, site, Messages::Lacking(lang))
}

/// The language-map document of the messages of a catalogue that have no live label in this
/// language, and whether there is one: what [`missing_document`](crate::missing_document) gives for
/// the document of its site.
///
/// Its one refusal is out of memory (26).
pub fn write_missing(
    alloc: Global,
    catalogue: &Catalogue,
    lang: &Lang,
) -> Result<(Doc, bool), AllocError>
    ensures { IfOk result (λ written. AreWritten
        (missing_labels lang.now catalogue.now) written.0 written.1) }
{
    write_chosen(alloc, catalogue, Messages::Lacking(lang))
}
