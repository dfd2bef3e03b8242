//! The rows of a site, joined with those of another document as both are read.
ghost use Rattle.std.specs.Prelude.{◌≡◌, ◌≢◌, ◌<◌, ◌++◌, ◌∷◌, [], List, ℕ, IfOk, IfSome};
ghost use Rattle.std.specs.Prelude.{IsTrue, MatchOption, false, length, ⊤};
ghost use Rattle.std.specs.declared.cmp.Ordering.TheVariants.{Equal, Greater, Less};
ghost use Rattle.cell_core.specs.Cell.{AgreeCells, joined_cells};
ghost use Rattle.catalogue.specs.Entries.{Agree, Entries, IsAboveAll, joined};
ghost use Rattle.cata_core.specs.Site.{SiteState};
ghost use Rattle.site_docs.specs.Reading.{IsSiteText, ReadsAsSite};
ghost use Rattle.site_docs.specs.RowsDraft.{HoldsRows};
ghost use Rattle.site_docs.specs.Sink.{IsLabelRef, IsRowOf, entry_of, texts_of};
ghost use Rattle.site_docs.specs.WrittenRows.{HasRead, IsRowText, current_of, left_in};
ghost use Rattle.site_docs.specs.WrittenRows.{entry_of as row_entry};
ghost use Rattle.docs_core.specs.inner.SyncedRows.{AreNames, HoldsSynced, IsOfAnother, IsSyncedAll};
ghost use Rattle.docs_core.specs.inner.SyncedRows.{IsSyncedBefore, IsSyncedTo, LackNone};
ghost use Rattle.docs_core.specs.inner.SyncedRows.{LackNoneAt, order_to};
ghost use Rattle.site_docs.specs.RowsInTime.{AreInTime};

use cell_core::{Key, MessageId, SiteName};
use json_docs::Doc;
use lang_core::Lang;
use site_docs::{CellRef, CellSink, LabelRef, RowsDraft, WrittenRow, WrittenRows};
use std::alloc::{AllocError, Global};
use std::cmp::Ordering;

/// What the rows of two sites are tested for as they are joined. A row that fails a test ends the
/// joining, and says nothing: the documents have to be read in another way.
#[derive(Clone, Copy)]
pub(crate) struct Tests {
    /// The greatest time that a row may have.
    pub(crate) not_after: Option<u64>,
    /// The name of the site that is seen, if edits are looked for that it made and lacks.
    pub(crate) first: Option<SiteName>,
    /// The name of the other document's site, likewise.
    pub(crate) second: Option<SiteName>,
}

/// Nothing is tested.
pub(crate) const UNTESTED: Tests = Tests {
    not_after: None,
    first: None,
    second: None,
};

/// The rows of a site as far as they are seen, joined with those of another document, which are
/// read as far as their keys are no greater.
#[derive(Drop)]
pub(crate) struct SyncedRows<'d> {
    other: &'d [u8],
    tests: Tests,
    /// The room in bytes that a draft has which is begun.
    room: usize,
    draft: RowsDraft,
    /// The rows of the other document. None where it is not as it is written, does not agree with
    /// the site, or fails a test, and where memory ran out.
    rows: Option<WrittenRows<'d>>,
}

impl<'d> SyncedRows<'d> {
    /// Those of no row. What is begun as these has room for a document of so many bytes.
    ///
    /// Its one refusal is out of memory (26).
    pub(crate) fn new(
        alloc: Global,
        other: &'d [u8],
        tests: Tests,
        room: usize,
    ) -> Result<SyncedRows<'d>, AllocError>
        ensures other { IfOk result (λ rows. rows.other.now ≡ other.now) }
        ensures tests { IfOk result (λ rows. rows.tests ≡ tests) }
    {
        let draft = RowsDraft::new(alloc, 0)?;
        Ok(SyncedRows {
            other,
            tests,
            room,
            draft,
            rows: None,
        })
    }

    /// The documents of both sites with the cells of both, where those of the site of this name
    /// were all seen.
    ///
    /// `None` says nothing: the other document may be valid in another form, the whole may have to
    /// be refused, or memory ran out.
    pub(crate) fn close_both(self, alloc: Global, name: SiteName) -> Option<(Doc, Doc)>
        requires { (cells : Entries) × HoldsSynced self cells }
        ensures { (cells : Entries) → HoldsSynced self.entry cells
            → IfSome result (λ docs. (second : SiteState)
            × ReadsAsSite self.entry.other.now second
            × AreInTime self.entry.tests.not_after second.cells
            × AreNames self.entry.tests name second.name
            × LackNone self.entry.tests cells second.cells × Agree cells second.cells
            × IsSiteText (record { name = name; cells = joined cells second.cells }) docs.0
            × IsSiteText (record { name = second.name; cells = joined cells second.cells })
            docs.1) }
    {
        let SyncedRows {
            tests,
            mut draft,
            rows,
            ..
        } = self;
        let mut rows = rows?;
        write_all(alloc, &tests, &mut rows, &mut draft)?;
        let other = rows.close()?;
        if !is_name(tests.first, name) || !is_name(tests.second, other) {
            return None;
        }
        match draft.close_both(alloc, name, other) {
            Ok(docs) => Some(docs),
            Err(_) => None,
        }
    }
}

/// Writes the row of each cell, and before it those of the other document with a lesser key.
impl<'t, 'd> CellSink<'t> for SyncedRows<'d> {
    ghost Holds = { λ first synced seen. (synced.other.now ≡ first.other.now)
        × (synced.tests ≡ first.tests) × HoldsSynced synced seen };

    fn begin(&self, alloc: Global) -> Result<SyncedRows<'d>, AllocError> {
        let draft = RowsDraft::new(alloc, self.room)?;
        Ok(SyncedRows {
            other: self.other,
            tests: self.tests,
            room: self.room,
            draft,
            rows: rows_in_time(alloc, self.other, self.tests.not_after),
        })
    }

    fn see(&mut self, alloc: Global, cell: CellRef<'_, 't>) -> Result<(), AllocError> {
        let Some(rows) = &mut self.rows else {
            return Ok(());
        };
        if write_joined(alloc, &self.tests, &cell, rows, &mut self.draft).is_none() {
            self.rows = None;
        }
        Ok(())
    }
}

/// The rows of the document, of which the first is read, where its time is in the limit.
fn rows_in_time<'d>(
    alloc: Global,
    bytes: &'d [u8],
    not_after: Option<u64>,
) -> Option<WrittenRows<'d>>
    ensures { IfSome result (λ rows. HasRead bytes.now rows (current_of rows)
        × AreInTime not_after (current_of rows)) }
{
    let rows = WrittenRows::new(alloc, bytes)?;
    if is_in_time(&rows, not_after) {
        Some(rows)
    } else {
        None
    }
}

/// Writes the row of a cell, joined with the row of its key, and before it the rows with a lesser
/// key.
fn write_joined(
    alloc: Global,
    tests: &Tests,
    cell: &CellRef<'_, '_>,
    rows: &mut WrittenRows<'_>,
    draft: &mut RowsDraft,
) -> Option<()>
    requires label { IsLabelRef cell.now.label }
    requires row { IsRowOf cell.now }
    requires read { (bytes : List ℕ) × (read : Entries) × HasRead bytes rows.old read }
    ensures { IfSome result (λ _. (bytes : List ℕ) (seen : Entries)
        → IsAboveAll (entry_of cell.now).0 seen
        → IsSyncedTo tests.now bytes rows.old draft.old seen
        → IsSyncedTo tests.now bytes rows.new draft.new (seen ++ entry_of cell.now ∷ [])) }
{
    let order = write_before(alloc, tests, cell.id, cell.lang, rows, draft)?;
    if order.is_eq() {
        return write_both(alloc, tests, cell, rows, draft);
    }
    if is_of(tests.second, cell.stamp.site) {
        return None;
    }
    match draft.add(alloc, cell) {
        Ok(()) => Some(()),
        Err(_) => None,
    }
}

/// Writes the rows whose keys are less than this one. Answers how that of the next row is ordered
/// to it; greater where there is none.
pub(crate) fn write_before(
    alloc: Global,
    tests: &Tests,
    id: &MessageId,
    lang: &Lang,
    rows: &mut WrittenRows<'_>,
    draft: &mut RowsDraft,
) -> Option<Ordering>
    requires { (bytes : List ℕ) × (read : Entries) × HasRead bytes rows.old read }
    ensures order { IfSome result
        (λ order. (order ≡ order_to (id.now, lang.now) (current_of rows.new)) × (order ≢ Less)) }
    ensures read { IfSome result
        (λ _. (bytes : List ℕ) × (read : Entries) × HasRead bytes rows.new read) }
    ensures synced { IfSome result (λ _. (bytes : List ℕ) (seen : Entries)
        → IsAboveAll (id.now, lang.now) seen → IsSyncedTo tests.now bytes rows.old draft.old seen
        → IsSyncedBefore (id.now, lang.now) tests.now bytes rows.new draft.new seen) }
{
    let mut order = order_of(rows, id, lang);
    while order.is_lt() {
        write_row(alloc, tests, rows, draft)?;
        order = order_of(rows, id, lang);
    }
    Some(order)
}

/// Writes all rows that are left.
pub(crate) fn write_all(
    alloc: Global,
    tests: &Tests,
    rows: &mut WrittenRows<'_>,
    draft: &mut RowsDraft,
) -> Option<()>
    requires { (bytes : List ℕ) × (read : Entries) × HasRead bytes rows.old read }
    ensures { IfSome result (λ _. (current_of rows.new ≡ [])
        × ((bytes : List ℕ) (seen : Entries)
        → IsSyncedAll tests.now bytes rows.old draft.old seen
        → IsSyncedAll tests.now bytes rows.new draft.new seen)) }
{
    while rows.current().is_some() {
        write_row(alloc, tests, rows, draft)?;
    }
    Some(())
}

/// Writes the row that was read last, and reads the next one.
fn write_row(
    alloc: Global,
    tests: &Tests,
    rows: &mut WrittenRows<'_>,
    draft: &mut RowsDraft,
) -> Option<()>
    requires { (bytes : List ℕ) × (read : Entries) × HasRead bytes rows.old read }
    ensures read { IfSome result
        (λ _. (bytes : List ℕ) × (read : Entries) × HasRead bytes rows.new read) }
    ensures fewer { IfSome result (λ _. left_in rows.new < left_in rows.old) }
    ensures before { IfSome result (λ _. (id lang : List ℕ) (bytes : List ℕ) (seen : Entries)
        → order_to (id, lang) (current_of rows.old) ≡ Less
        → IsSyncedBefore (id, lang) tests.now bytes rows.old draft.old seen
        → IsSyncedBefore (id, lang) tests.now bytes rows.new draft.new seen) }
    ensures all { IfSome result (λ _. (bytes : List ℕ) (seen : Entries)
        → IsSyncedAll tests.now bytes rows.old draft.old seen
        → IsSyncedAll tests.now bytes rows.new draft.new seen) }
{
    let Some(row) = rows.current() else {
        return None;
    };
    write_theirs(tests, &row, draft)?;
    advance(alloc, tests.not_after, rows)
}

/// Writes the later of the cells of a key, where they agree, and reads the next row.
fn write_both(
    alloc: Global,
    tests: &Tests,
    cell: &CellRef<'_, '_>,
    rows: &mut WrittenRows<'_>,
    draft: &mut RowsDraft,
) -> Option<()>
    requires label { IsLabelRef cell.now.label }
    requires row { IsRowOf cell.now }
    requires read { (bytes : List ℕ) × (read : Entries) × HasRead bytes rows.old read }
    ensures { IfSome result (λ _. (bytes : List ℕ) (seen : Entries)
        → order_to (entry_of cell.now).0 (current_of rows.old) ≡ Equal
        → IsAboveAll (entry_of cell.now).0 seen
        → IsSyncedBefore (entry_of cell.now).0 tests.now bytes rows.old draft.old seen
        → IsSyncedTo tests.now bytes rows.new draft.new (seen ++ entry_of cell.now ∷ [])) }
{
    let Some(row) = rows.current() else {
        return None;
    };
    write_later(alloc, tests, cell, &row, draft)?;
    advance(alloc, tests.not_after, rows)
}

/// Writes the later of the cells of a key, if they are known to agree, and the site that has the
/// earlier one did not make the later one.
fn write_later(
    alloc: Global,
    tests: &Tests,
    cell: &CellRef<'_, '_>,
    row: &WrittenRow<'_, '_>,
    draft: &mut RowsDraft,
) -> Option<()>
    requires label { IsLabelRef cell.now.label }
    requires row { IsRowOf cell.now }
    requires text { IsRowText row.now }
    ensures { IfSome result (λ _. AgreeCells (entry_of cell.now).1 (row_entry row.now).1
        × LackNoneAt tests.now (entry_of cell.now).1 (row_entry row.now).1
        × ((cells : Entries) → (row_entry row.now).0 ≡ (entry_of cell.now).0
        → HoldsRows draft.old cells → HoldsRows draft.new (cells
        ++ ((entry_of cell.now).0, joined_cells (entry_of cell.now).1 (row_entry row.now).1)
        ∷ []))) }
{
    let order = cell.stamp.cmp(&row.stamp);
    if order.is_lt() {
        return write_theirs(tests, row, draft);
    }
    if !agrees(order, &cell.label, row.label) {
        return None;
    }
    if is_lacked(order, tests.second, cell.stamp.site) {
        return None;
    }
    let Ok(()) = draft.add(alloc, cell) else {
        return None;
    };
    Some(())
}

/// Writes a row of the other document, unless the site that is seen made it: of its key that site
/// has nothing, or an earlier cell.
fn write_theirs(tests: &Tests, row: &WrittenRow<'_, '_>, draft: &mut RowsDraft) -> Option<()>
    requires { IsRowText row.now }
    ensures { IfSome result (λ _. IsOfAnother tests.now.first (row_entry row.now).1.stamp.site
        × ((cells : Entries) → HoldsRows draft.old cells
        → HoldsRows draft.new (cells ++ row_entry row.now ∷ []))) }
{
    if is_of(tests.first, row.stamp.site) {
        return None;
    }
    match draft.add_row(row.text) {
        Ok(()) => Some(()),
        Err(_) => None,
    }
}

/// Whether this site is the one that is tested for its own edits.
fn is_of(name: Option<SiteName>, site: SiteName) -> bool
    ensures { result ≡ false → IsOfAnother name site }
{
    match name {
        Some(name) => site == name,
        None => false,
    }
}

/// Whether the later cell of a key, whose stamps are ordered so, may be an edit that this site made
/// and lacks.
fn is_lacked(order: Ordering, name: Option<SiteName>, site: SiteName) -> bool
    ensures { result ≡ false → order ≡ Greater → IsOfAnother name site }
{
    match order {
        Ordering::Greater => is_of(name, site),
        _ => false,
    }
}

/// Whether the site that is tested for its own edits, if one is, has this name.
fn is_name(tested: Option<SiteName>, name: SiteName) -> bool
    ensures { IsTrue result → MatchOption tested ⊤ (λ tested. tested ≡ name) }
{
    match tested {
        Some(tested) => tested == name,
        None => true,
    }
}

/// Whether two cells with these labels are known to agree, whose stamps are ordered so.
fn agrees(order: Ordering, label: &LabelRef<'_>, other: &LabelRef<'_>) -> bool
    ensures { IsTrue result → order ≡ Equal → texts_of label.now ≡ texts_of other.now }
{
    match order {
        Ordering::Equal => is_same(label, other),
        _ => true,
    }
}

/// Whether two labels are known to be the same, without making one. One text that is in a
/// document is compared with such a text alone.
fn is_same(label: &LabelRef<'_>, other: &LabelRef<'_>) -> bool
    ensures { IsTrue result → texts_of label.now ≡ texts_of other.now }
{
    match (label, other) {
        (LabelRef::Deleted, LabelRef::Deleted) => true,
        (LabelRef::Text(text), LabelRef::Text(other)) => text == other,
        (LabelRef::Made(label), LabelRef::Made(other)) => label == other,
        _ => false,
    }
}

/// Reads the next row, where its time is in the limit.
pub(crate) fn advance(
    alloc: Global,
    not_after: Option<u64>,
    rows: &mut WrittenRows<'_>,
) -> Option<()>
    requires { (bytes : List ℕ) × (read : Entries) × HasRead bytes rows.old read }
    ensures read { IfSome result (λ _. (bytes : List ℕ) (read : Entries)
        → HasRead bytes rows.old read → HasRead bytes rows.new (read ++ current_of rows.new)) }
    ensures in_time { IfSome result (λ _. AreInTime not_after (current_of rows.new)) }
    ensures fewer { IfSome result
        (λ _. 0 < length (current_of rows.old) → left_in rows.new < left_in rows.old) }
{
    rows.advance(alloc)?;
    if is_in_time(rows, not_after) {
        Some(())
    } else {
        None
    }
}

/// Whether the time of the row that was read last is in the limit, where there is one.
fn is_in_time(rows: &WrittenRows<'_>, not_after: Option<u64>) -> bool
    requires { (bytes : List ℕ) × (read : Entries) × HasRead bytes rows.now read }
    ensures { IsTrue result → AreInTime not_after (current_of rows.now) }
{
    match (not_after, rows.current()) {
        (Some(limit), Some(row)) => row.stamp.time <= limit,
        _ => true,
    }
}

/// How the key of the row that was read last is ordered to this one; greater where there is none.
fn order_of(rows: &WrittenRows<'_>, id: &MessageId, lang: &Lang) -> Ordering
    requires { (bytes : List ℕ) × (read : Entries) × HasRead bytes rows.now read }
    ensures { result ≡ order_to (id.now, lang.now) (current_of rows.now) }
{
    let Some(row) = rows.current() else {
        return Ordering::Greater;
    };
    match row.id.cmp(id) {
        Ordering::Equal => row.lang.cmp(lang),
        order => order,
    }
}
