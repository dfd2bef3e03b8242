//! How many labels each language has.
ghost use Rattle.std.specs.Prelude.{◌≡◌, ◌==◌, ◌+◌, [], IfOk, MatchResult, OnOk, length, not};
ghost use Rattle.std.specs.FinMap.Entries.{put};
ghost use Rattle.cell_core.specs.Entry.{text_cmp};
ghost use Rattle.json_docs.specs.FaultChecks.{OrMemory};
ghost use Rattle.row_docs.specs.Reading.{IsOfDocument, no_memory};
ghost use Rattle.site_docs.specs.Reading.{RefusesSite};
ghost use Rattle.query_docs.specs.Labels.{AnswersLabels, AreLabelCounts, IsLabels, count_of};
ghost use Rattle.query_docs.specs.Labels.{labels_lines};

use crate::lines::Lines;
use cata_core::Catalogue;
use cell_core::{Key, Keyed};
use json_docs::{Doc, DocFault};
use lang_core::Lang;
use site_docs::{CellRef, CellSink, show_catalogue, show_document};
use std::alloc::{AllocError, Global};

/// `labels N`, then N lines `LANGUAGE COUNT`, and whether N is more than 0: one line for each
/// language that has a live label, with the number of messages that have a live label of it.
///
/// The languages are in ascending order of their bytes, so `@none` is the first. Just this language
/// counts: `en-us` is not `en`. A deleted label is none.
///
/// Refusals: a reader's with document 1. Out of memory (26) may come before.
pub fn labels_document(alloc: Global, site: &[u8]) -> Result<(Doc, bool), DocFault>
    ensures { MatchResult result (λ answer. IsLabels site.now answer.0 answer.1)
        (OrMemory no_memory (IsOfDocument 1 (RefusesSite site.now))) }
{
    let start = SeenLabels::new(alloc);
    let (_, seen) = show_document(alloc, 1, site, &start)?;
    let answer = lines_of(alloc, &seen.counts)?;
    Ok(answer)
}

/// The same for a catalogue in memory: what [`labels_document`](crate::labels_document) gives for
/// the document of its site.
///
/// Its one refusal is out of memory (26).
pub fn labels_lines(alloc: Global, catalogue: &Catalogue) -> Result<(Doc, bool), AllocError>
    ensures { IfOk result (λ answer. AnswersLabels catalogue.now answer.0 answer.1) }
{
    let start = SeenLabels::new(alloc);
    let seen = show_catalogue(alloc, catalogue, &start)?;
    lines_of(alloc, &seen.counts)
}

/// The languages of the live labels that were seen, each with how many there were.
#[derive(Drop)]
struct SeenLabels {
    counts: Keyed<Lang, usize>,
}

impl SeenLabels {
    /// Those of no cells.
    fn new(alloc: Global) -> SeenLabels
        ensures { result.counts ≡ [] }
    {
        SeenLabels {
            counts: Keyed::new(alloc),
        }
    }
}

/// Counts the live label of each cell.
impl<'t> CellSink<'t> for SeenLabels {
    ghost Holds = { λ first seen cells. AreLabelCounts cells seen.counts };

    fn begin(&self, alloc: Global) -> Result<SeenLabels, AllocError> {
        Ok(SeenLabels::new(alloc))
    }

    #[inline(always)]
    fn see(&mut self, alloc: Global, cell: CellRef<'_, 't>) -> Result<(), AllocError> {
        if cell.label.is_label() {
            add_label(&mut self.counts, alloc, cell.lang)
        } else {
            Ok(())
        }
    }
}

/// Counts one label more of a language.
fn add_label(counts: &mut Keyed<Lang, usize>, alloc: Global, lang: &Lang) -> Result<(), AllocError>
    ensures { OnOk result (counts.new
        ≡ put text_cmp lang.now (count_of lang.now counts.old + 1) counts.old) }
{
    match counts.get_mut(lang) {
        Some(count) => add_one(count),
        None => put_first(counts, lang.copy(alloc)?),
    }
}

/// One more, unless that is more than is counted.
fn add_one(count: &mut usize) -> Result<(), AllocError>
    ensures { OnOk result (count.new ≡ count.old + 1) }
{
    match count.checked_add(1) {
        Some(more) => {
            *count = more;
            Ok(())
        }
        None => Err(AllocError),
    }
}

/// Counts the first label of a language.
fn put_first(counts: &mut Keyed<Lang, usize>, lang: Lang) -> Result<(), AllocError>
    ensures { OnOk result (counts.new ≡ put text_cmp lang 1 counts.old) }
{
    match counts.put(lang, 1) {
        Ok(()) => Ok(()),
        Err(_) => Err(AllocError),
    }
}

/// `labels N`, then the line of each language, and whether there is one.
fn lines_of(alloc: Global, counts: &Keyed<Lang, usize>) -> Result<(Doc, bool), AllocError>
    ensures lines { IfOk result (λ answer. answer.0 ≡ labels_lines counts.now) }
    ensures found { IfOk result (λ answer. answer.1 ≡ not (length counts.now == 0)) }
{
    let count = counts.len();
    let mut written = Lines::new(alloc).count("labels", count)?;
    for (lang, labels) in counts.iter() {
        written = written.count(lang.as_str(), *labels)?;
    }
    Ok((written.into_doc(), count != 0))
}
