//! The rows of a site, joined with the cells of a catalogue as they are seen.
ghost use Rattle.std.specs.Prelude.{◌≡◌, ◌≢◌, ◌+◌, ◌++◌, ◌∷◌, [], IfOk, MatchOption, MatchResult};
ghost use Rattle.std.specs.Prelude.{All, OnOk, length};
ghost use Rattle.std.specs.declared.cmp.Ordering.TheVariants.{Greater, Less};
ghost use Rattle.cell_core.specs.Keyed.{IsMap};
ghost use Rattle.catalogue.specs.CataFault.{IsRefusal};
ghost use Rattle.catalogue.specs.Cells.{cells_left};
ghost use Rattle.cell_core.specs.Entry.{key_cmp};
ghost use Rattle.catalogue.specs.Entries.{Agree, Entries, IsAboveAll, joined};
ghost use Rattle.catalogue.specs.Equality.{seen};
ghost use Rattle.site_docs.specs.Reading.{IsSiteText};
ghost use Rattle.site_docs.specs.RowsDraft.{HoldsRows};
ghost use Rattle.site_docs.specs.Sink.{IsLabelRef, IsRowOf, entry_of};
ghost use Rattle.docs_core.specs.inner.JoinedRows.{HoldsJoined, IsFirstGreater, IsJoinedTo};
ghost use Rattle.docs_core.specs.inner.JoinedRows.{IsJoining, IsWrittenBoth, left_of};

use cata_core::{CataFault, Catalogue, Cells};
use cell_core::{Cell, Join, Key, MessageId, SiteName, Stamp};
use json_docs::Doc;
use lang_core::Lang;
use site_docs::{CellRef, CellSink, RowsDraft};
use std::alloc::{AllocError, Global};
use std::cmp::Ordering;

/// The rows of a site as far as they are seen, joined with the cells of a catalogue.
#[derive(Drop)]
pub(crate) struct JoinedRows<'d> {
    others: &'d Catalogue,
    /// The cells of the catalogue that are not written yet.
    left: CellsLeft<'d>,
    /// The room in bytes that a draft has which is begun.
    room: usize,
    draft: RowsDraft,
    /// How many rows were seen.
    seen: u128,
    /// The first row that does not agree, and its stamp. After it no row is written.
    clash: Option<(u128, Stamp)>,
}

/// Cells of a catalogue, of which the first is known.
#[derive(Drop)]
struct CellsLeft<'d> {
    first: Option<(&'d MessageId, &'d Lang, &'d Cell)>,
    rest: Cells<'d>,
}

impl<'d> JoinedRows<'d> {
    /// Those of no row. What is begun as these has room for a document of so many bytes.
    ///
    /// Its one refusal is out of memory (26).
    pub(crate) fn new(
        alloc: Global,
        others: &'d Catalogue,
        room: usize,
    ) -> Result<JoinedRows<'d>, AllocError>
        ensures { IfOk result (λ rows. rows.others.now ≡ others.now) }
    {
        let draft = RowsDraft::new(alloc, 0)?;
        Ok(JoinedRows::of(others, room, draft))
    }

    /// Those of no row in this draft, which has none.
    fn of(others: &'d Catalogue, room: usize, draft: RowsDraft) -> JoinedRows<'d>
        ensures others { result.others.now ≡ others.now }
        ensures holds { HoldsRows draft [] → HoldsJoined result others.now [] }
    {
        JoinedRows {
            others,
            left: CellsLeft::new(others.iter()),
            room,
            draft,
            seen: 0,
            clash: None,
        }
    }

    /// The document of the site of this name, of whose cells all were seen.
    ///
    /// Refused with the first place at which the two do not agree (13), or since memory ran out
    /// (26).
    pub(crate) fn close(self, alloc: Global, name: SiteName) -> Result<Doc, CataFault>
        ensures { (cells : Entries) (others : Entries) → HoldsJoined self.entry others cells
            → MatchResult result
            (λ doc. Agree cells others
            × IsSiteText (record { name = name; cells = joined cells others }) doc)
            (IsRefusal cells others) }
    {
        let draft = self.whole(alloc)?;
        let doc = draft.close(alloc, name)?;
        Ok(doc)
    }

    /// The same, and the document of another site with the cells of both.
    pub(crate) fn close_both(
        self,
        alloc: Global,
        name: SiteName,
        other: SiteName,
    ) -> Result<(Doc, Doc), CataFault>
        ensures { (cells : Entries) (others : Entries) → HoldsJoined self.entry others cells
            → MatchResult result
            (λ docs. Agree cells others
            × IsSiteText (record { name = name; cells = joined cells others }) docs.0
            × IsSiteText (record { name = other; cells = joined cells others }) docs.1)
            (IsRefusal cells others) }
    {
        let draft = self.whole(alloc)?;
        let docs = draft.close_both(alloc, name, other)?;
        Ok(docs)
    }

    /// The rows of all cells of both.
    fn whole(self, alloc: Global) -> Result<RowsDraft, CataFault>
        ensures { (cells : Entries) (others : Entries) → HoldsJoined self.entry others cells
            → MatchResult result
            (λ draft. Agree cells others × HoldsRows draft (joined cells others)
            × IsMap key_cmp (joined cells others))
            (IsRefusal cells others) }
    {
        let JoinedRows {
            left,
            mut draft,
            clash,
            ..
        } = self;
        match clash {
            Some((place, stamp)) => Err(CataFault::StampReused { place, stamp }),
            None => {
                write_all(alloc, left, &mut draft)?;
                Ok(draft)
            }
        }
    }
}

/// Writes the row of each cell, and before it those of the catalogue with a lesser key.
impl<'t, 'd> CellSink<'t> for JoinedRows<'d> {
    ghost Holds = { λ first rows seen. (rows.others.now ≡ first.others.now)
        × HoldsJoined rows first.others.now seen };

    fn begin(&self, alloc: Global) -> Result<JoinedRows<'d>, AllocError> {
        let draft = RowsDraft::new(alloc, self.room)?;
        Ok(JoinedRows::of(self.others, self.room, draft))
    }

    fn see(&mut self, alloc: Global, cell: CellRef<'_, 't>) -> Result<(), AllocError> {
        let row = self.seen;
        self.seen = row_after(row)?;
        if self.clash.is_some() {
            return Ok(());
        }
        self.clash = write_joined(alloc, row, &cell, &mut self.left, &mut self.draft)?;
        Ok(())
    }
}

impl<'d> CellsLeft<'d> {
    /// All these cells.
    fn new(cells: Cells<'d>) -> CellsLeft<'d>
        ensures { left_of result ≡ cells_left cells.entry }
    {
        let mut rest = cells;
        let first = rest.next();
        CellsLeft { first, rest }
    }

    /// Takes the first cell, where its key is at most this one: how it is ordered to it, and the
    /// cell.
    fn take_up_to(
        &mut self,
        id: &MessageId,
        lang: &Lang,
    ) -> Option<(Ordering, (&'d MessageId, &'d Lang, &'d Cell))>
        ensures { MatchOption result
            ((left_of self.new ≡ left_of self.old)
            × IsFirstGreater (id.now, lang.now) (left_of self.new))
            (λ r. (left_of self.old ≡ seen r.1 ∷ left_of self.new)
            × (key_cmp (seen r.1).0 (id.now, lang.now) ≡ r.0) × (r.0 ≢ Greater)) }
    {
        let first = self.first?;
        let order = compare(first, id, lang);
        if order.is_gt() {
            return None;
        }
        self.first = self.rest.next();
        Some((order, first))
    }

    /// Takes the first cell.
    fn take(&mut self) -> Option<(&'d MessageId, &'d Lang, &'d Cell)>
        ensures { MatchOption result (left_of self.old ≡ [])
            (λ e. left_of self.old ≡ seen e ∷ left_of self.new) }
    {
        let first = self.first?;
        self.first = self.rest.next();
        Some(first)
    }
}

/// How the key of the cell is ordered to this one.
fn compare(cell: (&MessageId, &Lang, &Cell), id: &MessageId, lang: &Lang) -> Ordering
    ensures { result ≡ key_cmp (seen cell.entry).0 (id.now, lang.now) }
{
    match cell.0.cmp(id) {
        Ordering::Equal => cell.1.cmp(lang),
        order => order,
    }
}

/// Writes the row of a cell, which is the one at this place, joined with the cell of its key, and
/// before it the rows with a lesser key. Answers the place and the stamp where both do not agree.
fn write_joined(
    alloc: Global,
    place: u128,
    cell: &CellRef<'_, '_>,
    left: &mut CellsLeft<'_>,
    draft: &mut RowsDraft,
) -> Result<Option<(u128, Stamp)>, AllocError>
    requires label { IsLabelRef cell.now.label }
    requires row { IsRowOf cell.now }
    ensures { IfOk result (λ clash. (others : Entries) (before : Entries) (rows : Entries)
        → IsJoining (left_of left.old) others before rows → HoldsRows draft.old rows
        → IsAboveAll (entry_of cell.now).0 before → place ≡ length before
        → IsJoinedTo clash (left_of left.new) draft.new others
        (before ++ entry_of cell.now ∷ [])) }
{
    match write_before(alloc, left, cell.id, cell.lang, draft)? {
        None => {
            draft.add(alloc, cell)?;
            Ok(None)
        }
        Some(other) => match write_both(alloc, cell, other, draft)? {
            Agreement::Agree => Ok(None),
            Agreement::Clash => Ok(Some((place, cell.stamp))),
        },
    }
}

/// Whether two cells of a key agree.
#[derive(Clone, Copy, Debug, PartialEq, Eq)]
enum Agreement {
    /// They do.
    Agree,
    /// They have one stamp, and not one label.
    Clash,
}

/// Writes the later of the two cells of a key, where they agree.
fn write_both(
    alloc: Global,
    cell: &CellRef<'_, '_>,
    other: &Cell,
    draft: &mut RowsDraft,
) -> Result<Agreement, AllocError>
    requires label { IsLabelRef cell.now.label }
    requires row { IsRowOf cell.now }
    ensures { IfOk result
        (λ found. IsWrittenBoth found draft.old draft.new (entry_of cell.now) other.now) }
{
    match cell.stamp.cmp(&other.stamp()) {
        Ordering::Less => draft.add_cell(alloc, cell.id, cell.lang, other)?,
        Ordering::Equal => {
            let own = Cell::new(cell.stamp, cell.label.to_label(alloc)?);
            if !own.agrees(other) {
                return Ok(Agreement::Clash);
            }
            draft.add(alloc, cell)?;
        }
        Ordering::Greater => draft.add(alloc, cell)?,
    }
    Ok(Agreement::Agree)
}

/// Writes the cells whose keys are less than this one, and takes the cell of the key.
fn write_before<'d>(
    alloc: Global,
    left: &mut CellsLeft<'d>,
    id: &MessageId,
    lang: &Lang,
    draft: &mut RowsDraft,
) -> Result<Option<&'d Cell>, AllocError>
    ensures { IfOk result (λ taken. (less : Entries)
        × All (λ e. key_cmp e.0 (id.now, lang.now) ≡ Less) less
        × ((rows : Entries) → HoldsRows draft.old rows → HoldsRows draft.new (rows ++ less))
        × MatchOption taken ((left_of left.old ≡ less ++ left_of left.new)
        × IsFirstGreater (id.now, lang.now) (left_of left.new))
        (λ cell. left_of left.old
        ≡ less ++ ((id.now, lang.now), cell.now) ∷ left_of left.new)) }
{
    while let Some((order, other)) = left.take_up_to(id, lang) {
        if order.is_eq() {
            return Ok(Some(other.2));
        }
        draft.add_cell(alloc, other.0, other.1, other.2)?;
    }
    Ok(None)
}

/// Writes all these cells.
fn write_all(
    alloc: Global,
    mut left: CellsLeft<'_>,
    draft: &mut RowsDraft,
) -> Result<(), AllocError>
    ensures { OnOk result ((rows : Entries) → HoldsRows draft.old rows
        → HoldsRows draft.new (rows ++ left_of left.entry)) }
{
    while let Some(other) = left.take() {
        draft.add_cell(alloc, other.0, other.1, other.2)?;
    }
    Ok(())
}

/// The number of the row after this one; no document has as many as `u128` counts.
fn row_after(row: u128) -> Result<u128, AllocError>
    ensures { IfOk result (λ next. next ≡ row + 1) }
{
    row.checked_add(1).ok_or(AllocError)
}
