//! Documents of sites that are being written: rows are copied from another document, or made.
ghost use Rattle.std.specs.Prelude.{◌≡◌, ◌++◌, ◌∷◌, [], IfOk, OnOk, drop};
ghost use Rattle.serde_json.specs.Written.{compact_text};
ghost use Rattle.cell_core.specs.Keyed.{IsMap};
ghost use Rattle.cell_core.specs.Entry.{key_cmp};
ghost use Rattle.catalogue.specs.Entries.{Entries, Entry};
ghost use Rattle.row_docs.specs.Entries.{entry_value};
ghost use Rattle.row_docs.specs.EntriesValid.{IsKeptCell};
ghost use Rattle.site_docs.specs.Reading.{IsDeltaText, IsSiteText};
ghost use Rattle.site_docs.specs.RowsDraft.{HoldsRows};
ghost use Rattle.site_docs.specs.Sink.{IsLabelRef, IsRowOf, entry_of};

use crate::document::envelope::{closed, closed_copy, closed_delta, open_cells};
use crate::open_rows::OpenRows;
use crate::sink::CellRef;
use cell_core::{Cell, MessageId, SiteName};
use json_docs::Doc;
use lang_core::Lang;
use row_docs::write_entry;
use std::alloc::{AllocError, Global};

/// How many bytes a site's document has before its rows.
const OPENING: usize = 10;

/// The document of a site, open after some rows.
#[derive(Drop)]
pub struct RowsDraft {
    rows: OpenRows,
}

impl RowsDraft {
    /// That of no row, with room for so many bytes.
    ///
    /// Its one refusal is out of memory (26).
    pub fn new(alloc: Global, room: usize) -> Result<RowsDraft, AllocError>
        ensures { IfOk result (λ draft. HoldsRows draft []) }
    {
        let opening = open_cells(alloc)?;
        let rows = OpenRows::new(alloc, opening, room)?;
        Ok(RowsDraft { rows })
    }

    /// Adds the row of a cell, which is copied where the cell has it.
    ///
    /// Its one refusal is out of memory (26); the draft is of no use then.
    pub fn add(&mut self, alloc: Global, cell: &CellRef<'_, '_>) -> Result<(), AllocError>
        requires label { IsLabelRef cell.now.label }
        requires row { IsRowOf cell.now }
        ensures { OnOk result ((rows : Entries) → HoldsRows self.old rows
            → HoldsRows self.new (rows ++ entry_of cell.now ∷ [])) }
    {
        match cell.row {
            Some(row) => self.add_row(row.text),
            None => self.add_seen(alloc, cell),
        }
    }

    /// Adds a row that is written already.
    ///
    /// Its one refusal is out of memory (26); the draft is of no use then.
    pub fn add_row(&mut self, row: &str) -> Result<(), AllocError>
        ensures { OnOk result ((rows : Entries) (e : Entry) → HoldsRows self.old rows
            → IsKeptCell e → row.now ≡ compact_text (entry_value e)
            → HoldsRows self.new (rows ++ e ∷ [])) }
    {
        self.rows.add(row.as_bytes())
    }

    /// Adds the row of a cell of a catalogue.
    ///
    /// Its one refusal is out of memory (26); the draft is of no use then.
    pub fn add_cell(
        &mut self,
        alloc: Global,
        id: &MessageId,
        lang: &Lang,
        cell: &Cell,
    ) -> Result<(), AllocError>
        ensures { OnOk result ((rows : Entries) → HoldsRows self.old rows
            → HoldsRows self.new (rows ++ ((id.now, lang.now), cell.now) ∷ [])) }
    {
        let mut row = self.rows.begin_row(alloc);
        write_entry(&mut row, id, lang, cell)?;
        self.rows.end_row(row)
    }

    /// Adds the rows of another draft, whose keys are greater.
    ///
    /// Its one refusal is out of memory (26); the draft is of no use then.
    pub fn append(&mut self, others: &RowsDraft) -> Result<(), AllocError>
        requires { (more : Entries) × HoldsRows others.now more }
        ensures { OnOk result ((rows : Entries) (more : Entries) → HoldsRows self.old rows
            → HoldsRows others.now more → HoldsRows self.new (rows ++ more)) }
    {
        if others.rows.has_rows {
            self.rows.add(others.rows())?;
        }
        Ok(())
    }

    /// The document of the delta for the site of this name. Its cells are those of the rows.
    ///
    /// Its one refusal is out of memory (26).
    pub fn close_delta(self, alloc: Global, addressee: SiteName) -> Result<Doc, AllocError>
        ensures { (cells : Entries) → HoldsRows self cells → IsMap key_cmp cells
            → IfOk result (IsDeltaText (record { addressee = addressee; cells = cells })) }
    {
        closed_delta(alloc, self.rows.bytes, addressee)
    }

    /// The document of the site of this name. Its cells are those of the rows.
    ///
    /// Its one refusal is out of memory (26).
    pub fn close(self, alloc: Global, name: SiteName) -> Result<Doc, AllocError>
        ensures { (cells : Entries) → HoldsRows self cells → IsMap key_cmp cells
            → IfOk result (IsSiteText (record { name = name; cells = cells })) }
    {
        closed(alloc, self.rows.bytes, name)
    }

    /// The same, and the document of another site with the same cells.
    ///
    /// Its one refusal is out of memory (26).
    pub fn close_both(
        self,
        alloc: Global,
        name: SiteName,
        other: SiteName,
    ) -> Result<(Doc, Doc), AllocError>
        ensures { (cells : Entries) → HoldsRows self cells → IsMap key_cmp cells
            → IfOk result (λ docs. IsSiteText (record { name = name; cells = cells }) docs.0
            × IsSiteText (record { name = other; cells = cells }) docs.1) }
    {
        let copy = closed_copy(alloc, self.rows.bytes.as_slice(), other)?;
        let own = self.close(alloc, name)?;
        Ok((own, copy))
    }

    /// The rows, as they are written.
    #[tactic(auto, using(crate::proofs::RowsDraftLemmas::past_opening))]
    fn rows(&self) -> &[u8]
        requires { (cells : Entries) × HoldsRows self.now cells }
        ensures { result.now ≡ drop 10 self.now.rows.bytes.items }
    {
        let bytes = self.rows.bytes.as_slice();
        &bytes[OPENING..]
    }

    /// Adds the row of a cell that is not copied.
    fn add_seen(&mut self, alloc: Global, cell: &CellRef<'_, '_>) -> Result<(), AllocError>
        requires { IsLabelRef cell.now.label }
        ensures { OnOk result ((rows : Entries) → HoldsRows self.old rows
            → HoldsRows self.new (rows ++ entry_of cell.now ∷ [])) }
    {
        let label = cell.label.to_label(alloc)?;
        self.add_cell(alloc, cell.id, cell.lang, &Cell::new(cell.stamp, label))
    }
}
