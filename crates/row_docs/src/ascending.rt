//! The rows of sites, deltas and summaries, which come in ascending order of key.
ghost use Rattle.std.specs.Prelude.{◌≡◌, Some, MatchResult};
ghost use Rattle.serde_json.specs.Data.{Data};
ghost use Rattle.json_docs.specs.FaultChecks.{AllPass, FirstFails, OrMemory};
ghost use Rattle.json_docs.specs.declared.fault.DocCause.TheVariants.{NoMemory};
ghost use Rattle.row_docs.specs.Ascending.{MakesEntries, entry_in, own_cell_checks};
ghost use Rattle.row_docs.specs.Ascending.{own_stamp_checks, stamp_checks, stamped_in};
ghost use Rattle.row_docs.specs.CutsSeen.{IsRow};

use crate::arrays::Rows;
use crate::cuts::{Cut, recounted};
use crate::fields::{cell_entry, stamp_entry};
use crate::shapes::{cell_of, stamp_of};
use crate::version::Version;
use cata_core::Summary;
use cell_core::{Cell, Entry, SiteName, Stamp};
use json_docs::{DocCause, Spot};
use std::alloc::Global;

/// Keeps all stamps.
impl Rows<SiteName> for Summary {
    ghost Checks = { stamp_checks };

    ghost Holds = { λ owner version summary rows.
        MakesEntries (stamped_in version) rows summary.stamps };

    fn restart(&mut self, alloc: Global, start: &SiteName) {
        *self = Summary::new(alloc, *start);
    }

    fn take(
        &mut self,
        alloc: Global,
        version: Version,
        place: usize,
        row: &Cut<'_>,
    ) -> Result<(), DocCause> {
        let (id, lang, stamp) = own_stamp(alloc, version, place, row)?.into_parts();
        if !self.is_above_all(&id, &lang) {
            return Err(DocCause::CellOrder { row: place });
        }
        self.push(id, lang, stamp)?;
        Ok(())
    }
}

/// The key and the cell of a row of a site or a delta, whatever rows come before it.
///
/// Refused by the first test of the row that fails, or since memory ran out (26).
pub fn entry_of_row(
    alloc: Global,
    version: Version,
    place: usize,
    row: &Cut<'_>,
) -> Result<Entry<Cell>, DocCause>
    requires { (d : Data) × IsRow d row.now }
    ensures { MatchResult result
        (λ x. (d : Data) → IsRow d row.now → AllPass (own_cell_checks version place d)
        × (entry_in version d ≡ Some x))
        (OrMemory NoMemory (λ e. (d : Data) → IsRow d row.now
        → FirstFails (own_cell_checks version place d) e)) }
{
    let Some(cell) = cell_of(version, &row.value) else {
        return Err(DocCause::Shape {
            spot: Spot::Row(place),
        });
    };
    match cell_entry(alloc, place, cell) {
        Ok(entry) => Ok(entry),
        Err(cause) => Err(recounted(row.texts, cause)),
    }
}

/// What a row of a summary is by itself.
fn own_stamp(
    alloc: Global,
    version: Version,
    place: usize,
    row: &Cut<'_>,
) -> Result<Entry<Stamp>, DocCause>
    requires { (d : Data) × IsRow d row.now }
    ensures { MatchResult result
        (λ x. (d : Data) → IsRow d row.now → AllPass (own_stamp_checks version place d)
        × (stamped_in version d ≡ Some x))
        (OrMemory NoMemory (λ e. (d : Data) → IsRow d row.now
        → FirstFails (own_stamp_checks version place d) e)) }
{
    let Some(stamp) = stamp_of(version, &row.value) else {
        return Err(DocCause::Shape {
            spot: Spot::Row(place),
        });
    };
    stamp_entry(alloc, place, stamp)
}
