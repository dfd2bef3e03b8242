//! Cells that are seen one after another, of which those that are offered are passed on.
ghost use Rattle.query_docs.specs.inner.OfferedCells.{HasOffered};

use nego_core::Offer;
use site_docs::{CellRef, CellSink};
use std::alloc::{AllocError, Global};

/// A sink that passes on to another one the cells whose languages are offered.
#[derive(Drop)]
pub(crate) struct OfferedCells<'o, S> {
    /// What is offered.
    pub offer: Offer<'o>,
    /// The other sink.
    pub sink: S,
}

impl<'t, S: CellSink<'t>> CellSink<'t> for OfferedCells<'_, S> {
    ghost Holds = { λ first offered seen. HasOffered S.Holds first offered seen };

    fn begin(&self, alloc: Global) -> Result<Self, AllocError> {
        let sink = self.sink.begin(alloc)?;
        Ok(OfferedCells {
            offer: self.offer,
            sink,
        })
    }

    #[inline(always)]
    fn see(&mut self, alloc: Global, cell: CellRef<'_, 't>) -> Result<(), AllocError> {
        if self.offer.offers(cell.lang) {
            self.sink.see(alloc, cell)
        } else {
            Ok(())
        }
    }
}
