//! The latest stamp of a site's document.
ghost use Rattle.std.specs.Prelude.{◌≡◌, MatchResult, None, Some};
ghost use Rattle.cell_core.specs.Cell.{joined_stamps};
ghost use Rattle.cell_core.specs.Keyed.{joined_if_both};
ghost use Rattle.catalogue.specs.Entries.{Entries};
ghost use Rattle.catalogue.specs.CatalogueLatest.{latest_of};
ghost use Rattle.json_docs.specs.FaultChecks.{OrMemory};
ghost use Rattle.row_docs.specs.Reading.{IsOfDocument, no_memory};
ghost use Rattle.site_docs.specs.Reading.{ReadsAsSite, RefusesSite};

use cell_core::{SiteName, Stamp};
use json_docs::DocFault;
use site_docs::{CellRef, CellSink, show_document};
use std::alloc::{AllocError, Global};

/// The name of the site of a document, and its latest stamp.
///
/// Refused as a reader's with document 1, or since memory ran out (26).
pub(crate) fn latest_stamp(alloc: Global, site: &[u8]) -> Result<(SiteName, LatestStamp), DocFault>
    ensures { MatchResult result (λ read. (cells : Entries)
        × ReadsAsSite site.now (record { name = read.0; cells = cells })
        × (read.1.latest ≡ latest_of cells))
        (OrMemory no_memory (IsOfDocument 1 (RefusesSite site.now))) }
{
    show_document(alloc, 1, site, &LatestStamp::new())
}

/// The latest stamp of the cells that were seen.
#[derive(Drop)]
pub(crate) struct LatestStamp {
    pub(crate) latest: Option<Stamp>,
}

impl LatestStamp {
    /// That of no cell.
    pub(crate) fn new() -> LatestStamp
        ensures { result.latest ≡ None }
    {
        LatestStamp { latest: None }
    }
}

impl<'t> CellSink<'t> for LatestStamp {
    ghost Holds = { λ first stamps seen. stamps.latest ≡ latest_of seen };

    fn begin(&self, _alloc: Global) -> Result<LatestStamp, AllocError> {
        Ok(LatestStamp::new())
    }

    #[inline(always)]
    fn see(&mut self, _alloc: Global, cell: CellRef<'_, 't>) -> Result<(), AllocError> {
        self.latest = later(self.latest, cell.stamp);
        Ok(())
    }
}

/// The later of the stamps.
pub(crate) fn later(latest: Option<Stamp>, stamp: Stamp) -> Option<Stamp>
    ensures { result ≡ joined_if_both joined_stamps latest (Some stamp) }
{
    match latest {
        Some(held) if !held.cmp(&stamp).is_lt() => Some(held),
        _ => Some(stamp),
    }
}
