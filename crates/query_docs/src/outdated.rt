//! What a translator has to look at again.
ghost use Rattle.std.specs.Prelude.{◌≡◌, IfOk, MatchResult};
ghost use Rattle.json_docs.specs.FaultChecks.{OrMemory};
ghost use Rattle.row_docs.specs.Reading.{IsOfDocument, no_memory};
ghost use Rattle.site_docs.specs.Reading.{RefusesSite};
ghost use Rattle.map_docs.specs.WritingTexts.{AreWritten};
ghost use Rattle.query_docs.specs.Outdated.{IsOutdated, outdated_labels};

use crate::chosen::{chosen_document, write_chosen};
use crate::messages::Messages;
use cata_core::Catalogue;
use json_docs::{Doc, DocFault};
use lang_core::Lang;
use std::alloc::{AllocError, Global};

/// The language-map document of the messages that have a live label in both languages, where that
/// of the source has the greater time, each with all its live labels; and whether there is one.
///
/// Times alone are compared, so of labels that came in by one import none is older. Just these
/// languages count: `en-us` is not `en`.
///
/// Refusals: a reader's with document 1. Out of memory (26) may come before.
pub fn outdated_document(
    alloc: Global,
    site: &[u8],
    lang: &Lang,
    source: &Lang,
) -> Result<(Doc, bool), DocFault>
    ensures { MatchResult result (λ answer. IsOutdated site.now lang.now source.now answer.0
        answer.1) (OrMemory no_memory (IsOfDocument 1 (RefusesSite site.now))) }
{
    chosen_document(alloc, site, Messages::Outdated(lang, source))
}

/// The same for a catalogue in memory: what [`outdated_document`] gives for its document.
///
/// Its one refusal is out of memory (26).
pub fn write_outdated(
    alloc: Global,
    catalogue: &Catalogue,
    lang: &Lang,
    source: &Lang,
) -> Result<(Doc, bool), AllocError>
    ensures { IfOk result (λ written. AreWritten
        (outdated_labels lang.now source.now catalogue.now) written.0 written.1) }
{
    write_chosen(alloc, catalogue, Messages::Outdated(lang, source))
}
