//! The live labels of some of the messages, written.
ghost use Rattle.std.specs.Prelude.{◌≡◌, ◌++◌, [], ℕ, IfOk, List, MatchResult, OnOk};
ghost use Rattle.std.specs.Prelude.{Some};
ghost use Rattle.cell_core.specs.Keyed.{IsMap};
ghost use Rattle.cell_core.specs.Entry.{key_cmp};
ghost use Rattle.catalogue.specs.Entries.{Entries};
ghost use Rattle.json_docs.specs.FaultChecks.{OrMemory};
ghost use Rattle.row_docs.specs.Reading.{IsOfDocument, no_memory};
ghost use Rattle.site_docs.specs.Reading.{RefusesSite};
ghost use Rattle.map_docs.specs.WritingTexts.{AreWritten};
ghost use Rattle.map_docs.specs.Maps.{Labelled};
ghost use Rattle.query_docs.specs.inner.ByMessage.{AreLabelRefs, HasSeen, cell_of, cells_of};
ghost use Rattle.query_docs.specs.inner.Chosen.{AreChosenOf, HasChosen, chosen_labels, is_chosen};
ghost use Rattle.query_docs.specs.inner.Draft.{HasWritten};
ghost use Rattle.query_docs.specs.Exporting.{live_labels};
ghost use Rattle.query_docs.specs.Outdated.{is_before, labelled_at, live_time};
ghost use Rattle.query_docs.specs.declared.chosen.ChosenLabels.{ChosenLabels};

use crate::by_message::{ByMessage, MessageCell, MessageSink};
use crate::draft::Draft;
use crate::messages::Messages;
use cata_core::Catalogue;
use cell_core::MessageId;
use json_docs::{Doc, DocFault};
use lang_core::Lang;
use site_docs::{show_catalogue, show_document};
use std::alloc::{AllocError, Global};

/// The language-map document of the live labels of these messages of the site of a document, and
/// whether there is one.
///
/// Refusals: a reader's with document 1. Out of memory (26) may come before.
pub(crate) fn chosen_document(
    alloc: Global,
    site: &[u8],
    messages: Messages<'_>,
) -> Result<(Doc, bool), DocFault>
    ensures { MatchResult result
        (λ answer. AreChosenOf messages.entry site.now answer.0 answer.1)
        (OrMemory no_memory (IsOfDocument 1 (RefusesSite site.now))) }
{
    let start = begin(alloc, messages)?;
    let (_, shown) = show_document(alloc, 1, site, &start)?;
    let answer = close(alloc, shown)?;
    Ok(answer)
}

/// The language-map document of the live labels of these messages of a catalogue, and whether there
/// is one.
pub(crate) fn write_chosen(
    alloc: Global,
    catalogue: &Catalogue,
    messages: Messages<'_>,
) -> Result<(Doc, bool), AllocError>
    ensures { IfOk result (λ written. AreWritten
        (chosen_labels messages.entry catalogue.now) written.0 written.1) }
{
    let start = begin(alloc, messages)?;
    let shown = show_catalogue(alloc, catalogue, &start)?;
    close(alloc, shown)
}

/// The live labels of these messages, written.
#[derive(Drop)]
struct ChosenLabels<'a> {
    messages: Messages<'a>,
    draft: Draft,
}

/// Writes the live labels of the messages that are among these.
impl<'t> MessageSink<'t> for ChosenLabels<'_> {
    ghost Holds = { λ first chosen seen. HasChosen first chosen seen };

    fn begin(&self, alloc: Global) -> Result<Self, AllocError> {
        Ok(ChosenLabels {
            messages: self.messages,
            draft: Draft::new(alloc)?,
        })
    }

    fn see_message(
        &mut self,
        alloc: Global,
        id: &MessageId,
        cells: &[MessageCell<'t>],
    ) -> Result<(), AllocError> {
        if is_chosen(cells, self.messages) {
            add_all(alloc, &mut self.draft, id, cells)
        } else {
            Ok(())
        }
    }
}

/// The sink of these messages, before the first.
fn begin<'t, 'a>(
    alloc: Global,
    messages: Messages<'a>,
) -> Result<ByMessage<'t, ChosenLabels<'a>>, AllocError>
    ensures { IfOk result (λ start. start.sink.messages ≡ messages.entry) }
{
    let draft = Draft::new(alloc)?;
    Ok(ByMessage::new(alloc, ChosenLabels { messages, draft }))
}

/// The document of the labels that were written, and whether there is one.
fn close(alloc: Global, shown: ByMessage<'_, ChosenLabels<'_>>) -> Result<(Doc, bool), AllocError>
    requires { AreLabelRefs shown.cells.items }
    ensures { IfOk result (λ written. (first : ChosenLabels) → (seen : Entries)
        → HasSeen HasChosen first shown.entry seen → IsMap key_cmp seen
        → AreWritten (chosen_labels first.messages seen) written.0 written.1) }
{
    let chosen = shown.finish(alloc)?;
    let ChosenLabels { draft, .. } = chosen;
    draft.close()
}

/// Adds all live labels of a message.
fn add_all(
    alloc: Global,
    draft: &mut Draft,
    id: &MessageId,
    cells: &[MessageCell<'_>],
) -> Result<(), AllocError>
    requires { AreLabelRefs cells.now }
    ensures { OnOk result ((labels : List Labelled) → HasWritten draft.old labels
        → HasWritten draft.new (labels ++ live_labels (cells_of id.now cells.now))) }
{
    for cell in cells {
        draft.add_seen(alloc, id, &cell.lang, &cell.label)?;
    }
    Ok(())
}

/// Whether a message with these cells is one of these.
fn is_chosen(cells: &[MessageCell<'_>], messages: Messages<'_>) -> bool
    ensures { (id : List ℕ) → result ≡ is_chosen messages.entry (cells_of id cells.now) id }
{
    match messages {
        Messages::Lacking(lang) => live_time(cells, lang).is_none(),
        Messages::Outdated(lang, source) => {
            is_before(live_time(cells, lang), live_time(cells, source))
        }
    }
}

/// Whether both are there, and the first is the lesser.
fn is_before(time: Option<u64>, other: Option<u64>) -> bool
    ensures { result ≡ is_before time other }
{
    match (time, other) {
        (Some(time), Some(other)) => time < other,
        _ => false,
    }
}

/// The time of the live label in a language.
fn live_time(cells: &[MessageCell<'_>], lang: &Lang) -> Option<u64>
    ensures { (id : List ℕ) → result ≡ live_time (id, lang.now) (cells_of id cells.now) }
{
    for cell in cells {
        if lang.cmp(&cell.lang).is_eq() {
            return labelled_time(cell);
        }
    }
    None
}

/// The time of a cell that has a label.
fn labelled_time(cell: &MessageCell<'_>) -> Option<u64>
    ensures { (id : List ℕ) → result ≡ labelled_at (Some (cell_of id cell.now).1) }
{
    if cell.label.is_label() {
        Some(cell.stamp.time)
    } else {
        None
    }
}
