//! Documents of summaries that are being written: rows are copied from a site's, or made.
ghost use Rattle.std.specs.Prelude.{◌≡◌, ◌++◌, ◌∷◌, [], ℕ, IfOk, IfSome, List, OnOk, Some, take};
ghost use Rattle.cell_core.specs.Keyed.{IsMap};
ghost use Rattle.cata_core.specs.Delta.{Stamps, summary_of};
ghost use Rattle.cell_core.specs.Entry.{key_cmp};
ghost use Rattle.site_docs.specs.Reading.{IsSummaryText};
ghost use Rattle.site_docs.specs.inner.StampsDraft.{HoldsStamps};
ghost use Rattle.site_docs.specs.declared.sink.RowText.{RowText};

use crate::document::envelope::{closed_summary, open_stamps};
use crate::open_rows::OpenRows;
use crate::sink::{CellRef, CellSink, RowText};
use cell_core::{MessageId, SiteName, Stamp};
use json_docs::Doc;
use lang_core::Lang;
use row_docs::write_stamped;
use std::alloc::{AllocError, Global};

/// The document of a summary, open after some rows.
#[derive(Drop)]
pub(crate) struct StampsDraft {
    owner: SiteName,
    rows: OpenRows,
}

impl StampsDraft {
    /// That of no row, for this owner.
    pub(crate) fn new(alloc: Global, owner: SiteName) -> Result<StampsDraft, AllocError>
        ensures { IfOk result (λ draft. HoldsStamps draft owner []) }
    {
        let opening = open_stamps(alloc, owner.as_str())?;
        let rows = OpenRows::new(alloc, opening, 0)?;
        Ok(StampsDraft { owner, rows })
    }

    /// Adds the row of a stamp.
    pub(crate) fn add(
        &mut self,
        alloc: Global,
        id: &MessageId,
        lang: &Lang,
        stamp: Stamp,
    ) -> Result<(), AllocError>
        ensures { OnOk result ((owner : List ℕ) (stamps : Stamps)
            → HoldsStamps self.old owner stamps
            → HoldsStamps self.new owner (stamps ++ ((id.now, lang.now), stamp) ∷ [])) }
    {
        let mut row = self.rows.begin_row(alloc);
        write_stamped(&mut row, id, lang, stamp)?;
        self.rows.end_row(row)
    }

    /// The document. Its stamps are those of the rows.
    pub(crate) fn close(self, alloc: Global) -> Result<Doc, AllocError>
        ensures { (owner : List ℕ) (stamps : Stamps) → HoldsStamps self owner stamps
            → IsMap key_cmp stamps
            → IfOk result (IsSummaryText (record { owner = owner; stamps = stamps })) }
    {
        closed_summary(alloc, self.rows.bytes)
    }
}

/// Copies the row of each cell as far as its stamp.
impl<'t> CellSink<'t> for StampsDraft {
    ghost Holds = { λ first draft seen. HoldsStamps draft first.owner (summary_of seen) };

    fn begin(&self, alloc: Global) -> Result<StampsDraft, AllocError> {
        StampsDraft::new(alloc, self.owner)
    }

    fn see(&mut self, alloc: Global, cell: CellRef<'_, 't>) -> Result<(), AllocError> {
        match front_of(&cell.row) {
            Some(front) => self.rows.add_front(front),
            None => self.add(alloc, cell.id, cell.lang, cell.stamp),
        }
    }
}

/// The row as far as its stamp.
fn front_of<'t>(row: &Option<RowText<'t>>) -> Option<&'t str>
    ensures { IfSome result (λ front. (text : RowText) × (row.now ≡ Some text)
        × (front.now ≡ take text.front text.text.now)) }
{
    match row {
        Some(row) => row.text.get(..row.front),
        None => None,
    }
}
