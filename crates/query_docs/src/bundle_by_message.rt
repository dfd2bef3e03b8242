//! The labels of one reader, looked up message by message as a document is read.
ghost use Rattle.std.specs.Prelude.{MatchResult, option_map};
ghost use Rattle.json_docs.specs.FaultChecks.{OrMemory};
ghost use Rattle.row_docs.specs.Reading.{IsOfDocument, no_memory};
ghost use Rattle.site_docs.specs.Reading.{RefusesSite};
ghost use Rattle.query_docs.specs.inner.BundleByMessage.{HasBundled};
ghost use Rattle.query_docs.specs.Bundling.{IsBundledUnder};
ghost use Rattle.nego_core.specs.Offer.{items_of};

use crate::by_message::{ByMessage, MessageCell, MessageSink};
use crate::draft::Draft;
use crate::live_cells::LiveCells;
use crate::offered_cells::OfferedCells;
use cell_core::MessageId;
use json_docs::{Doc, DocFault};
use lang_core::Lang;
use nego_core::{Offer, PriorityList, Widening};
use site_docs::show_document;
use std::alloc::{AllocError, Global};

/// What [`bundle_document_by`](crate::bundle_document_by) gives where each message is looked up by
/// the whole list.
pub(crate) fn bundle_by_message(
    alloc: Global,
    site: &[u8],
    offer: Offer<'_>,
    list: &PriorityList,
    widening: Widening,
    default: Option<&Lang>,
) -> Result<(Doc, bool), DocFault>
    ensures { MatchResult result (λ answer. IsBundledUnder (items_of offer.entry) widening site.now
        list.now (option_map (λ l. l.now) default.entry) answer.0 answer.1)
        (OrMemory no_memory (IsOfDocument 1 (RefusesSite site.now))) }
{
    let bundle = Bundle {
        list,
        widening,
        default,
        draft: Draft::new(alloc)?,
    };
    let start = OfferedCells {
        offer,
        sink: ByMessage::new(alloc, bundle),
    };
    let (_, shown) = show_document(alloc, 1, site, &start)?;
    let OfferedCells { sink, .. } = shown;
    let bundle = sink.finish(alloc)?;
    let Bundle { draft, .. } = bundle;
    let answer = draft.close()?;
    Ok(answer)
}

/// The labels that a list looks up, written.
#[derive(Drop)]
struct Bundle<'a> {
    list: &'a PriorityList,
    widening: Widening,
    default: Option<&'a Lang>,
    draft: Draft,
}

/// Writes the label that the lookup of a message answers.
impl<'t> MessageSink<'t> for Bundle<'_> {
    ghost Holds = { λ first bundle seen. HasBundled first bundle seen };

    fn begin(&self, alloc: Global) -> Result<Self, AllocError> {
        Ok(Bundle {
            list: self.list,
            widening: self.widening,
            default: self.default,
            draft: Draft::new(alloc)?,
        })
    }

    fn see_message(
        &mut self,
        alloc: Global,
        id: &MessageId,
        cells: &[MessageCell<'t>],
    ) -> Result<(), AllocError> {
        if cells.is_empty() {
            return Ok(());
        }
        let live = LiveCells::new(cells);
        match live.look_up(self.list, self.widening, self.default) {
            Some(cell) => self.draft.add_seen(alloc, id, &cell.lang, &cell.label),
            None => Ok(()),
        }
    }
}
