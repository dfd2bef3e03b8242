//! A site that is read for one message.
ghost use Rattle.std.specs.Prelude.{IfSome, MatchResult};
ghost use Rattle.json_docs.specs.FaultChecks.{OrMemory};
ghost use Rattle.row_docs.specs.Reading.{IsOfDocument, no_memory};
ghost use Rattle.site_docs.specs.Reading.{RefusesSite};
ghost use Rattle.query_docs.specs.OneMessage.{IsReadFor};
ghost use Rattle.query_docs.specs.inner.OneMessage.{KeepsMessage};

use cata_core::{Catalogue, Site};
use cell_core::MessageId;
use json_docs::DocFault;
use site_docs::{CellRef, CellSink, show_document};
use std::alloc::{AllocError, Global};

/// The site of a document as far as a question about one message needs it: under its name, with the
/// live labels of this message. A question about the message has the answers that it has over the
/// whole. Which other cells the site has is not said (none, by the code and no clause).
///
/// Refused as the document of the site is by its reader, with document 1, or since memory ran out
/// (26).
pub fn read_message(alloc: Global, site: &[u8], id: &MessageId) -> Result<Site, DocFault>
    ensures { MatchResult result (IsReadFor site.now id.now)
        (OrMemory no_memory (IsOfDocument 1 (RefusesSite site.now))) }
{
    let start = OneMessage {
        id,
        cells: Catalogue::new(alloc),
    };
    let (name, message) = show_document(alloc, 1, site, &start)?;
    let OneMessage { cells, .. } = message;
    Ok(Site::from_catalogue(name, cells))
}

/// The cells of one message.
#[derive(Drop)]
struct OneMessage<'a> {
    id: &'a MessageId,
    cells: Catalogue,
}

/// Keeps the cells of this message alone.
impl<'t> CellSink<'t> for OneMessage<'_> {
    ghost Holds = { λ first message seen. KeepsMessage first message seen };

    fn begin(&self, alloc: Global) -> Result<Self, AllocError> {
        Ok(OneMessage {
            id: self.id,
            cells: Catalogue::new(alloc),
        })
    }

    #[inline(always)]
    fn see(&mut self, alloc: Global, cell: CellRef<'_, 't>) -> Result<(), AllocError> {
        if !self.id.cmp(cell.id).is_eq() {
            return Ok(());
        }
        self.cells.see(alloc, cell)
    }
}
