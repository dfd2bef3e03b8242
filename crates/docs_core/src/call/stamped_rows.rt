//! Changes that are written with their stamps between the rows of a site, as those are read.
ghost use Rattle.std.specs.Prelude.{◌≡◌, ◌++◌, ◌∷◌, [], ℕ, IfOk, IfSome, List, Option};
ghost use Rattle.std.specs.declared.cmp.Ordering.TheVariants.{Equal};
ghost use Rattle.cell_core.specs.declared.stamp.Stamp.{Stamp};
ghost use Rattle.catalogue.specs.Entries.{Entries, IsAboveAll};
ghost use Rattle.catalogue.specs.CatalogueLatest.{latest_of};
ghost use Rattle.site_docs.specs.Reading.{IsSiteText, ReadsAsSite};
ghost use Rattle.site_docs.specs.WrittenRows.{HasRead, current_of};
ghost use Rattle.docs_core.specs.ImportingLabels.{puts_of};
ghost use Rattle.docs_core.specs.UpdatingChanges.{Change, Makes};
ghost use Rattle.docs_core.specs.inner.StampedRows.{HoldsStamped};
ghost use Rattle.docs_core.specs.inner.SyncedRows.{IsSyncedBefore, IsSyncedTo, order_to, untested};

use crate::call::latest_stamp::LatestStamp;
use crate::call::synced_rows::{UNTESTED, advance, write_all, write_before};
use cell_core::{Cell, Label, MessageId, SiteName, Stamp};
use json_docs::Doc;
use lang_core::Lang;
use map_docs::TakeLabels;
use site_docs::{RowsDraft, WrittenRows};
use std::alloc::{AllocError, Global};

/// The rows of a site's document with changes, each with the next stamp of the site at a time. The
/// document is read as far as the keys of its rows are no greater than those that are changed.
#[derive(Drop)]
pub(crate) struct StampedRows<'d> {
    site: &'d [u8],
    rows: WrittenRows<'d>,
    draft: RowsDraft,
    /// The latest stamp of the site, and then of the changes.
    latest: Option<Stamp>,
    now: u64,
    name: SiteName,
}

impl<'d> StampedRows<'d> {
    /// Those of no change, after the latest stamp, of a document whose first row is read. There is
    /// room for so many bytes.
    ///
    /// Its one refusal is out of memory (26).
    pub(crate) fn new(
        alloc: Global,
        site: &'d [u8],
        rows: WrittenRows<'d>,
        room: usize,
        now: u64,
        name: SiteName,
        stamps: &LatestStamp,
    ) -> Result<StampedRows<'d>, AllocError>
        requires { HasRead site.now rows (current_of rows) }
        ensures site { IfOk result (λ stamped. stamped.site.now ≡ site.now) }
        ensures latest { IfOk result (λ stamped. stamped.latest ≡ stamps.now.latest) }
        ensures holds { IfOk result
            (λ stamped. HoldsStamped now name stamps.now.latest stamped []) }
    {
        let draft = RowsDraft::new(alloc, room)?;
        Ok(StampedRows {
            site,
            rows,
            draft,
            latest: stamps.latest,
            now,
            name,
        })
    }

    /// Writes a change, whose key is greater than all before it: a label, or none that deletes.
    ///
    /// `None` says nothing of the document: there may be no next stamp, the document may be valid
    /// in another form, it may be refused, or memory ran out.
    pub(crate) fn add(
        &mut self,
        alloc: Global,
        id: &MessageId,
        lang: &Lang,
        label: Option<Label>,
    ) -> Option<()>
        requires { (bytes : List ℕ) × (read : Entries) × HasRead bytes self.old.rows read }
        ensures site { self.new.site.now ≡ self.old.site.now }
        ensures read { IfSome result
            (λ _. (bytes : List ℕ) × (read : Entries) × HasRead bytes self.new.rows read) }
        ensures holds { IfSome result (λ _. (now : ℕ) (name : List ℕ) (last : Option Stamp)
            → (taken : List Change) → IsAboveAll (id.now, lang.now) taken
            → HoldsStamped now name last self.old taken
            → HoldsStamped now name last self.new (taken ++ ((id.now, lang.now), label) ∷ [])) }
    {
        let Ok(stamp) = Stamp::next(self.latest, self.now, self.name) else {
            return None;
        };
        let cell = Cell::new(stamp, label);
        write_change(alloc, id, lang, &cell, &mut self.rows, &mut self.draft)?;
        self.latest = Some(cell.stamp());
        Some(())
    }

    /// The document of the site with the changes.
    ///
    /// `None` says nothing of the document: it may be valid in another form, it may be refused, or
    /// memory ran out.
    pub(crate) fn close(self, alloc: Global) -> Option<Doc>
        requires { (bytes : List ℕ) × (read : Entries) × HasRead bytes self.rows read }
        ensures { IfSome result (λ doc. (now : ℕ) (name : List ℕ) (own : Entries)
            → (changes : List Change)
            → ReadsAsSite self.entry.site.now (record { name = name; cells = own })
            → HoldsStamped now name (latest_of own) self.entry changes
            → (made : Entries) × Makes now name changes own made
            × IsSiteText (record { name = name; cells = made }) doc) }
    {
        let StampedRows {
            mut rows,
            mut draft,
            ..
        } = self;
        write_all(alloc, &UNTESTED, &mut rows, &mut draft)?;
        let name = rows.close()?;
        match draft.close(alloc, name) {
            Ok(doc) => Some(doc),
            Err(_) => None,
        }
    }
}

/// Writes each label with the next stamp, between the rows.
impl<'d> TakeLabels for StampedRows<'d> {
    ghost Holds = { λ first stamped taken. (stamped.site.now ≡ first.site.now)
        × HoldsStamped first.now first.name first.latest stamped (puts_of taken) };

    fn take(&mut self, alloc: Global, id: &MessageId, lang: Lang, label: Label) -> Option<()> {
        self.add(alloc, id, &lang, Some(label))
    }
}

/// Writes a changed cell, which replaces the row of its key, and before it the rows with a lesser
/// key.
fn write_change(
    alloc: Global,
    id: &MessageId,
    lang: &Lang,
    cell: &Cell,
    rows: &mut WrittenRows<'_>,
    draft: &mut RowsDraft,
) -> Option<()>
    requires { (bytes : List ℕ) × (read : Entries) × HasRead bytes rows.old read }
    ensures read { IfSome result
        (λ _. (bytes : List ℕ) × (read : Entries) × HasRead bytes rows.new read) }
    ensures synced { IfSome result (λ _. (bytes : List ℕ) (seen : Entries)
        → IsAboveAll (id.now, lang.now) seen → IsSyncedTo untested bytes rows.old draft.old seen
        → IsSyncedTo untested bytes rows.new draft.new
        (seen ++ ((id.now, lang.now), cell.now) ∷ [])) }
{
    let order = write_before(alloc, &UNTESTED, id, lang, rows, draft)?;
    if order.is_eq() {
        return replace_row(alloc, id, lang, cell, rows, draft);
    }
    match draft.add_cell(alloc, id, lang, cell) {
        Ok(()) => Some(()),
        Err(_) => None,
    }
}

/// Writes a changed cell for the row of its key, which is an earlier one, and reads the next row.
fn replace_row(
    alloc: Global,
    id: &MessageId,
    lang: &Lang,
    cell: &Cell,
    rows: &mut WrittenRows<'_>,
    draft: &mut RowsDraft,
) -> Option<()>
    requires { (bytes : List ℕ) × (read : Entries) × HasRead bytes rows.old read }
    ensures read { IfSome result
        (λ _. (bytes : List ℕ) × (read : Entries) × HasRead bytes rows.new read) }
    ensures synced { IfSome result (λ _. (bytes : List ℕ) (seen : Entries)
        → order_to (id.now, lang.now) (current_of rows.old) ≡ Equal
        → IsAboveAll (id.now, lang.now) seen
        → IsSyncedBefore (id.now, lang.now) untested bytes rows.old draft.old seen
        → IsSyncedTo untested bytes rows.new draft.new
        (seen ++ ((id.now, lang.now), cell.now) ∷ [])) }
{
    let Some(row) = rows.current() else {
        return None;
    };
    if !row.stamp.cmp(&cell.stamp()).is_lt() {
        return None;
    }
    let Ok(()) = draft.add_cell(alloc, id, lang, cell) else {
        return None;
    };
    advance(alloc, None, rows)
}
