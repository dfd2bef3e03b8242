//! The line of a site's status.
ghost use Rattle.std.specs.Prelude.{◌≡◌, ◌+◌, [], Some, cond, is_some, IfOk};
ghost use Rattle.std.specs.Prelude.{MatchResult};
ghost use Rattle.cell_core.specs.Cell.{joined_stamps};
ghost use Rattle.cell_core.specs.Keyed.{joined_if_both};
ghost use Rattle.json_docs.specs.FaultChecks.{OrMemory};
ghost use Rattle.row_docs.specs.Reading.{IsOfDocument, no_memory};
ghost use Rattle.site_docs.specs.Reading.{RefusesSite};
ghost use Rattle.site_docs.specs.Sink.{texts_of};
ghost use Rattle.query_docs.specs.inner.StatusCounts.{AreCounts};
ghost use Rattle.query_docs.specs.Status.{IsStatus, counted_line, status_line};

use cata_core::Site;
use cell_core::{Join, SiteName, Stamp};
use json_docs::{Doc, DocFault};
use site_docs::{CellRef, CellSink, LabelRef, show_catalogue, show_document};
use std::alloc::{AllocError, Global};

/// The status line of the site: how many cells and labels it has, and its greatest stamp.
///
/// Refusals: a reader's with document 1. Out of memory (26) may come before.
pub fn status_document(alloc: Global, site: &[u8]) -> Result<Doc, DocFault>
    ensures { MatchResult result (IsStatus site.now)
        (OrMemory no_memory (IsOfDocument 1 (RefusesSite site.now))) }
{
    let start = Counts::new();
    let (name, counts) = show_document(alloc, 1, site, &start)?;
    let line = status_of(alloc, name, counts.cells, counts.labels, counts.last)?;
    Ok(line)
}

/// `site NAME cells N labels N last TIME NAME COUNT`, or `.. last none` where there is no cell. The
/// labels are the cells that have one, and the last stamp is the greatest.
pub fn status_line(alloc: Global, site: &Site) -> Result<Doc, AllocError>
    ensures { IfOk result (λ doc. doc ≡ status_line site.now) }
{
    let start = Counts::new();
    let counts = show_catalogue(alloc, site.catalogue(), &start)?;
    status_of(alloc, site.name(), counts.cells, counts.labels, counts.last)
}

/// What a status line says of the cells of a site.
#[derive(Clone, Copy)]
struct Counts {
    cells: u128,
    labels: u128,
    last: Option<Stamp>,
}

impl Counts {
    /// Those of no cells.
    fn new() -> Counts
        ensures { AreCounts result [] }
    {
        Counts {
            cells: 0,
            labels: 0,
            last: None,
        }
    }
}

impl<'t> CellSink<'t> for Counts {
    ghost Holds = { λ first counts seen. AreCounts counts seen };

    fn begin(&self, _alloc: Global) -> Result<Counts, AllocError> {
        Ok(Counts::new())
    }

    #[inline(always)]
    fn see(&mut self, alloc: Global, cell: CellRef<'_, 't>) -> Result<(), AllocError> {
        let cells = one_more(self.cells)?;
        let labels = labels_with(self.labels, &cell.label)?;
        let last = latest_of_both(alloc, self.last, cell.stamp)?;
        *self = Counts {
            cells,
            labels,
            last: Some(last),
        };
        Ok(())
    }
}

/// One more than a count, unless that is more than is counted.
fn one_more(count: u128) -> Result<u128, AllocError>
    ensures { IfOk result (λ more. more ≡ count + 1) }
{
    match count.checked_add(1) {
        Some(more) => Ok(more),
        None => Err(AllocError),
    }
}

/// The labels, with that of a cell where it has one.
fn labels_with(labels: u128, label: &LabelRef<'_>) -> Result<u128, AllocError>
    ensures { IfOk result (λ more. more ≡ labels + cond (is_some (texts_of label.now)) 1 0) }
{
    if label.is_label() {
        one_more(labels)
    } else {
        Ok(labels)
    }
}

/// The later of two stamps, or the second alone.
fn latest_of_both(alloc: Global, stamp: Option<Stamp>, other: Stamp) -> Result<Stamp, AllocError>
    ensures { IfOk result
        (λ later. Some later ≡ joined_if_both joined_stamps stamp (Some other)) }
{
    let Some(mut later) = stamp else {
        return Ok(other);
    };
    later.join(alloc, &other)?;
    Ok(later)
}

/// The status line of a site of this name with so many cells and labels, and this greatest stamp.
fn status_of(
    alloc: Global,
    name: SiteName,
    cells: u128,
    labels: u128,
    last: Option<Stamp>,
) -> Result<Doc, AllocError>
    ensures { IfOk result (λ doc. doc ≡ counted_line name cells labels last) }
{
    let line = match last {
        Some(last) => {
            format!(in alloc; "site {name} cells {cells} labels {labels} last {last}\n")?
        }
        None => format!(in alloc; "site {name} cells {cells} labels {labels} last none\n")?,
    };
    Ok(Doc::from(line))
}
