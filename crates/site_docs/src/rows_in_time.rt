//! Rows of a site that are seen under a limit on their times.
ghost use Rattle.std.specs.Prelude.{◌≡◌, ◌+◌, ◌++◌, ◌∷◌, [], IfOk, MatchResult, length};
ghost use Rattle.catalogue.specs.Entries.{Entries, Entry};
ghost use Rattle.site_docs.specs.RowsInTime.{AreInTime, HoldsTimes, IsTimeAhead, IsTimed};

use crate::sink::{CellRef, CellSink};
use json_docs::{DocCause, DocFault};
use std::alloc::{AllocError, Global};

/// What sees the rows, and the first row whose time is after a limit.
#[derive(Drop)]
pub struct RowsInTime<S> {
    sink: S,
    not_after: Option<u64>,
    /// How many rows were seen.
    seen: usize,
    /// The first row whose time is after the limit.
    ahead: Option<usize>,
}

impl<S: Drop> RowsInTime<S> {
    /// What sees no row yet under this limit, where there is one.
    pub fn new(sink: S, not_after: Option<u64>) -> RowsInTime<S>
        ensures sink { result.sink ≡ sink }
        ensures limit { result.not_after ≡ not_after }
        ensures none { HoldsTimes result [] }
    {
        RowsInTime {
            sink,
            not_after,
            seen: 0,
            ahead: None,
        }
    }

    /// What saw the rows, where their times are in the limit. Refused with the first row whose time
    /// is after it (29), of the document of this number.
    pub fn in_time(self, document: usize) -> Result<S, DocFault>
        ensures { (cells : Entries) → HoldsTimes self cells
            → MatchResult result (λ sink. (sink ≡ self.sink) × AreInTime self.not_after cells)
            (IsTimeAhead document self.not_after cells) }
    {
        match self.ahead {
            Some(row) => Err(DocFault {
                document,
                cause: DocCause::TimeAhead { row },
            }),
            None => Ok(self.sink),
        }
    }
}

/// Shows each cell on.
impl<'t, S: CellSink<'t>> CellSink<'t> for RowsInTime<S> {
    ghost Holds = { λ first rows seen. (rows.not_after ≡ first.not_after) × HoldsTimes rows seen
        × S.Holds first.sink rows.sink seen };

    fn begin(&self, alloc: Global) -> Result<Self, AllocError> {
        let sink = self.sink.begin(alloc)?;
        Ok(RowsInTime::new(sink, self.not_after))
    }

    fn see(&mut self, alloc: Global, cell: CellRef<'_, 't>) -> Result<(), AllocError> {
        self.ahead = first_ahead(self.ahead, self.seen, cell.stamp.time, self.not_after);
        self.seen = row_after(self.seen)?;
        self.sink.see(alloc, cell)
    }
}

/// The first row whose time is after the limit, where one more has this time.
fn first_ahead(ahead: Option<usize>, row: usize, time: u64, not_after: Option<u64>) -> Option<usize>
    ensures { (cells : Entries) (e : Entry) → e.1.stamp.time ≡ time → length cells ≡ row
        → IsTimed not_after cells ahead → IsTimed not_after (cells ++ e ∷ []) result }
{
    match ahead {
        Some(row) => Some(row),
        None => ahead_at(row, time, not_after),
    }
}

/// The row, where its time is after the limit.
fn ahead_at(row: usize, time: u64, not_after: Option<u64>) -> Option<usize>
    ensures { (cells : Entries) (e : Entry) → e.1.stamp.time ≡ time → length cells ≡ row
        → AreInTime not_after cells → IsTimed not_after (cells ++ e ∷ []) result }
{
    match not_after {
        None => None,
        Some(limit) => { if limit < time { Some(row) } else { None } }
    }
}

/// The number of the row after this one; memory has no room for as many as are not counted.
fn row_after(row: usize) -> Result<usize, AllocError>
    ensures { IfOk result (λ next. next ≡ row + 1) }
{
    row.checked_add(1).ok_or(AllocError)
}
