//! What an exchange tests of the cells that come in, before they are joined.
ghost use Rattle.std.specs.Prelude.{◌≡◌, ◌^◌, ◌<◌, length, IfErr, MatchOption, MatchResult, OnOk};
ghost use Rattle.std.specs.Prelude.{Some};
ghost use Rattle.json_docs.specs.FaultChecks.{OrMemory};
ghost use Rattle.row_docs.specs.Reading.{no_memory};
ghost use Rattle.site_docs.specs.RowsInTime.{AreInTime, IsFirstAhead, IsTimeAhead};
ghost use Rattle.site_docs.specs.Checks.{IsOwnMissing, LacksNoOwn, ReadsInTime};
ghost use Rattle.site_docs.specs.Checks.{RefusesDeltaUntil, no_checks};

use crate::document::reading::delta_at;
use cata_core::{Catalogue, Delta, Site};
use json_docs::{DocCause, DocFault};
use std::alloc::Global;

/// What an exchange tests of the cells that come in.
#[derive(Clone, Copy, Debug, PartialEq, Eq)]
pub struct Checks {
    /// The greatest time that is taken; every time is, if there is none.
    pub not_after: Option<u64>,
    /// Whether edits of the site that takes them are looked for.
    pub own_edits: OwnEdits,
}

/// Whether an exchange looks for edits that the site made which takes them, and lacks.
#[derive(Clone, Copy, Debug, PartialEq, Eq)]
pub enum OwnEdits {
    /// They are taken as all others.
    Unchecked,
    /// The first of them refuses the exchange (30).
    Checked,
}

impl Checks {
    /// Those that test nothing.
    pub fn none() -> Checks
        ensures { result ≡ no_checks }
    {
        Checks {
            not_after: None,
            own_edits: OwnEdits::Unchecked,
        }
    }
}

/// The delta of a document of version 1 or 2, where none of its times is greater than `not_after`.
///
/// Refusals, in their order: those of [`read_delta`](crate::read_delta), then 29 with the first row
/// whose time is greater. All but 26 name document 1.
pub fn read_delta_until(
    alloc: Global,
    bytes: &[u8],
    not_after: Option<u64>,
) -> Result<Delta, DocFault>
    ensures { MatchResult result (ReadsInTime not_after bytes.now) (OrMemory no_memory
        (RefusesDeltaUntil 1 not_after bytes.now)) }
{
    delta_until(alloc, 1, bytes, not_after)
}

/// Of fewer than 2^64 cells ([`Catalogue::len`]) the first row whose time is greater than
/// `not_after`, counted from 0 in ascending order of key; none where no time is. The rows of a
/// document are counted so.
pub fn first_row_ahead(cells: &Catalogue, not_after: u64) -> Option<usize>
    ensures { length cells.now < 2 ^ 64
        → MatchOption result (AreInTime (Some not_after) cells.now)
        (IsFirstAhead cells.now not_after) }
{
    let mut row = 0usize;
    for (_, _, cell) in cells.iter() {
        if cell.stamp().time > not_after {
            return Some(row);
        }
        row = row.saturating_add(1);
    }
    None
}

/// The delta of the input document with this number, where its times are in the limit.
pub fn delta_until(
    alloc: Global,
    document: usize,
    bytes: &[u8],
    not_after: Option<u64>,
) -> Result<Delta, DocFault>
    ensures { MatchResult result (ReadsInTime not_after bytes.now) (OrMemory no_memory
        (RefusesDeltaUntil document not_after bytes.now)) }
{
    let delta = delta_at(alloc, document, bytes)?;
    check_times(document, delta.cells(), not_after)?;
    Ok(delta)
}

/// Whether the times of the document's cells are in the limit, where there is one.
pub fn check_times(
    document: usize,
    cells: &Catalogue,
    not_after: Option<u64>,
) -> Result<(), DocFault>
    requires { length cells.now < 2 ^ 64 }
    ensures ok { OnOk result (AreInTime not_after cells.now) }
    ensures err { IfErr result (IsTimeAhead document not_after cells.now) }
{
    let Some(limit) = not_after else {
        return Ok(());
    };
    match first_row_ahead(cells, limit) {
        Some(row) => Err(DocFault {
            document,
            cause: DocCause::TimeAhead { row },
        }),
        None => Ok(()),
    }
}

/// Whether none of the rows of the document is an edit of the site that it lacks, if that is
/// tested. There are fewer than 2^64 rows.
pub fn check_own(
    document: usize,
    site: &Site,
    rows: &Catalogue,
    own: OwnEdits,
) -> Result<(), DocFault>
    requires { length rows.now < 2 ^ 64 }
    ensures ok { OnOk result (LacksNoOwn own site.now rows.now) }
    ensures err { IfErr result (IsOwnMissing document own site.now rows.now) }
{
    match own {
        OwnEdits::Unchecked => Ok(()),
        OwnEdits::Checked => match site.lacks_own(rows) {
            Some(row) => Err(DocFault {
                document,
                cause: DocCause::OwnEditMissing { row },
            }),
            None => Ok(()),
        },
    }
}
