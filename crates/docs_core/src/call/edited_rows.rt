//! The rows of a site on both sides of one key.
ghost use Rattle.std.specs.Prelude.{◌≡◌, ◌++◌, ◌∷◌, [], IfOk, OnOk, Some, cond};
ghost use Rattle.std.specs.declared.cmp.Ordering.TheVariants.{Greater};
ghost use Rattle.std.specs.FinMap.Entries.{put};
ghost use Rattle.cell_core.specs.Keyed.{IsMap};
ghost use Rattle.cell_core.specs.Entry.{EntryKey, key_cmp};
ghost use Rattle.catalogue.specs.Entries.{Entries};
ghost use Rattle.site_docs.specs.Reading.{IsSiteText};
ghost use Rattle.site_docs.specs.RowsDraft.{HoldsRows};
ghost use Rattle.site_docs.specs.Sink.{IsLabelRef, IsRowOf, entry_of};
ghost use Rattle.docs_core.specs.inner.EditedRows.{HoldsEdited, after_key, before_key};

use crate::call::latest_stamp::later;
use cell_core::{Cell, Key, MessageId, SiteName, Stamp};
use json_docs::Doc;
use lang_core::Lang;
use site_docs::{CellRef, CellSink, RowsDraft};
use std::alloc::{AllocError, Global};
use std::cmp::Ordering;

/// The rows of a site before those of one key and after them, and the latest stamp of all.
#[derive(Drop)]
pub(crate) struct EditedRows<'k> {
    id: &'k MessageId,
    lang: &'k Lang,
    /// The room in bytes that a draft has which is begun.
    room: usize,
    before: RowsDraft,
    after: RowsDraft,
    /// A row with a greater key was seen.
    is_passed: bool,
    /// The latest stamp; none where there are no rows.
    pub(crate) latest: Option<Stamp>,
}

impl<'k> EditedRows<'k> {
    /// Those of no row. What is begun as these has room for a document of so many bytes.
    ///
    /// Its one refusal is out of memory (26).
    pub(crate) fn new(
        alloc: Global,
        id: &'k MessageId,
        lang: &'k Lang,
        room: usize,
    ) -> Result<EditedRows<'k>, AllocError>
        ensures { IfOk result (λ rows. (rows.id.now ≡ id.now) × (rows.lang.now ≡ lang.now)) }
    {
        let before = RowsDraft::new(alloc, 0)?;
        let after = RowsDraft::new(alloc, 0)?;
        Ok(EditedRows {
            id,
            lang,
            room,
            before,
            after,
            is_passed: false,
            latest: None,
        })
    }

    /// How a key that is greater than those that were seen is ordered to the one that is edited.
    /// Once that is passed no two are compared.
    fn order_of(&self, id: &MessageId, lang: &Lang) -> Ordering
        ensures { result ≡ cond self.now.is_passed Greater
            (key_cmp (id.now, lang.now) (self.now.id.now, self.now.lang.now)) }
    {
        if self.is_passed {
            return Ordering::Greater;
        }
        id.cmp(self.id).then(lang.cmp(self.lang))
    }

    /// The document of the site of this name, with this cell at the key.
    ///
    /// Its one refusal is out of memory (26).
    pub(crate) fn close(self, alloc: Global, name: SiteName, cell: &Cell) -> Result<Doc, AllocError>
        requires { (cells : Entries) × HoldsEdited self (self.id.now, self.lang.now) cells }
        ensures { (cells : Entries)
            → HoldsEdited self.entry (self.entry.id.now, self.entry.lang.now) cells
            → IsMap key_cmp cells
            → IfOk result (IsSiteText (record {
              name = name;
              cells = put key_cmp (self.entry.id.now, self.entry.lang.now) cell.now cells;
            })) }
    {
        let EditedRows {
            id,
            lang,
            mut before,
            after,
            ..
        } = self;
        before.add_cell(alloc, id, lang, cell)?;
        before.append(&after)?;
        before.close(alloc, name)
    }
}

/// Writes the row of each cell but that of the key.
impl<'t, 'k> CellSink<'t> for EditedRows<'k> {
    ghost Holds = { λ first rows seen. (rows.id.now ≡ first.id.now)
        × (rows.lang.now ≡ first.lang.now)
        × HoldsEdited rows (first.id.now, first.lang.now) seen };

    fn begin(&self, alloc: Global) -> Result<EditedRows<'k>, AllocError> {
        let before = RowsDraft::new(alloc, self.room)?;
        let after = RowsDraft::new(alloc, 0)?;
        Ok(EditedRows {
            id: self.id,
            lang: self.lang,
            room: self.room,
            before,
            after,
            is_passed: false,
            latest: None,
        })
    }

    #[inline(always)]
    fn see(&mut self, alloc: Global, cell: CellRef<'_, 't>) -> Result<(), AllocError> {
        let order = self.order_of(cell.id, cell.lang);
        self.is_passed = order.is_gt();
        add_beside(alloc, order, &cell, &mut self.before, &mut self.after)?;
        self.latest = later(self.latest, cell.stamp);
        Ok(())
    }
}

/// Adds the row of a cell, whose key is so ordered to one, to the rows on that side of it.
fn add_beside(
    alloc: Global,
    order: Ordering,
    cell: &CellRef<'_, '_>,
    before: &mut RowsDraft,
    after: &mut RowsDraft,
) -> Result<(), AllocError>
    requires label { IsLabelRef cell.now.label }
    requires row { IsRowOf cell.now }
    ensures { OnOk result ((key : EntryKey) (cells : Entries)
        → key_cmp (entry_of cell.now).0 key ≡ order → HoldsRows before.old (before_key key cells)
        → HoldsRows after.old (after_key key cells)
        → HoldsRows before.new (before_key key (cells ++ entry_of cell.now ∷ []))
        × HoldsRows after.new (after_key key (cells ++ entry_of cell.now ∷ []))) }
{
    match order {
        Ordering::Less => before.add(alloc, cell),
        Ordering::Equal => Ok(()),
        Ordering::Greater => after.add(alloc, cell),
    }
}
