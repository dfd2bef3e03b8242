//! The changes from old language maps to new ones, found as the cells of a site are seen.
ghost use Rattle.std.specs.Prelude.{◌≡◌, ◌++◌, ◌∷◌, [], IfOk, List, OnOk};
ghost use Rattle.cell_core.specs.Keyed.{IsMap};
ghost use Rattle.cell_core.specs.Entry.{key_cmp};
ghost use Rattle.catalogue.specs.Entries.{Entries, IsAboveAll};
ghost use Rattle.catalogue.specs.CatalogueLatest.{latest_of};
ghost use Rattle.map_docs.specs.Maps.{Labelled};
ghost use Rattle.site_docs.specs.Sink.{entry_of, texts_of};
ghost use Rattle.docs_core.specs.inner.FoundChanges.{HoldsFound, IsFound, IsNoted, changes_of};
ghost use Rattle.docs_core.specs.Updating.{AreChanges};

use crate::call::latest_stamp::{LatestStamp, later};
use crate::call::revised::{Revised, first_revised, is_change};
use cell_core::{Entry, Label};
use map_docs::LangMaps;
use site_docs::{CellRef, CellSink, LabelRef};
use std::alloc::{AllocError, Global};
use std::cmp::Ordering;

/// A key whose label changes.
#[derive(Drop)]
pub(crate) struct KeyChange<'k> {
    /// The label of the key, before or after.
    pub(crate) key: &'k Entry<Label>,
    /// The new label; none deletes.
    pub(crate) label: Option<&'k Label>,
}

/// The changes at the keys up to that of the last cell that was seen.
#[derive(Drop)]
pub(crate) struct FoundChanges<'k> {
    old: &'k LangMaps,
    new: &'k LangMaps,
    /// The old labels of greater keys.
    olds: &'k [Entry<Label>],
    /// The new labels of greater keys.
    news: &'k [Entry<Label>],
    changes: Vec<KeyChange<'k>>,
    /// The latest stamp of all cells that were seen.
    stamps: LatestStamp,
}

impl<'k> FoundChanges<'k> {
    /// Those before any cell.
    pub(crate) fn new(alloc: Global, old: &'k LangMaps, new: &'k LangMaps) -> FoundChanges<'k>
        ensures old { result.old.now ≡ old.now }
        ensures new { result.new.now ≡ new.now }
        ensures holds { HoldsFound result old.now new.now [] }
    {
        FoundChanges {
            old,
            new,
            olds: old.labels(),
            news: new.labels(),
            changes: Vec::new(alloc),
            stamps: LatestStamp::new(),
        }
    }

    /// All changes, where all cells of the site were seen, and the site's latest stamp.
    ///
    /// Its one refusal is out of memory (26).
    pub(crate) fn close(
        self,
        alloc: Global,
    ) -> Result<(Vec<KeyChange<'k>>, LatestStamp), AllocError>
        requires { (old new : List Labelled) × (cells : Entries)
            × HoldsFound self old new cells }
        ensures { IfOk result (λ r. (old new : List Labelled) (cells : Entries)
            → HoldsFound self.entry old new cells → IsMap key_cmp cells
            → AreChanges old new cells (changes_of r.0.items) × (r.1.latest ≡ latest_of cells)) }
    {
        let FoundChanges {
            olds,
            news,
            mut changes,
            stamps,
            ..
        } = self;
        find_rest(olds, news, &mut changes)?;
        Ok((changes, stamps))
    }
}

/// Finds the changes at the keys up to that of each cell.
impl<'t, 'k> CellSink<'t> for FoundChanges<'k> {
    ghost Holds = { λ first found seen. (found.old.now ≡ first.old.now)
        × (found.new.now ≡ first.new.now) × HoldsFound found first.old.now first.new.now seen };

    fn begin(&self, alloc: Global) -> Result<FoundChanges<'k>, AllocError> {
        Ok(FoundChanges::new(alloc, self.old, self.new))
    }

    fn see(&mut self, _alloc: Global, cell: CellRef<'_, 't>) -> Result<(), AllocError> {
        let (olds, news) = find_up_to(self.olds, self.news, &cell, &mut self.changes)?;
        self.olds = olds;
        self.news = news;
        self.stamps.latest = later(self.stamps.latest, cell.stamp);
        Ok(())
    }
}

/// Finds the changes at the keys up to that of the cell, and answers the labels of greater keys.
fn find_up_to<'k>(
    old: &'k [Entry<Label>],
    new: &'k [Entry<Label>],
    cell: &CellRef<'_, '_>,
    changes: &mut Vec<KeyChange<'k>>,
) -> Result<(&'k [Entry<Label>], &'k [Entry<Label>]), AllocError>
    requires old { IsMap key_cmp old.now }
    requires new { IsMap key_cmp new.now }
    ensures old { IfOk result (λ left. IsMap key_cmp left.0.now) }
    ensures new { IfOk result (λ left. IsMap key_cmp left.1.now) }
    ensures found { IfOk result (λ left. (all all_new : List Labelled) (seen : Entries)
        → IsAboveAll (entry_of cell.now).0 seen
        → IsFound all all_new old.now new.now seen
        (changes_of changes.old.items)
        → IsFound all all_new left.0.now left.1.now
        (seen ++ entry_of cell.now ∷ []) (changes_of changes.new.items)) }
{
    let mut olds = old;
    let mut news = new;
    while let Some((next, old_rest, new_rest)) = first_revised(olds, news) {
        match next.key.compare(cell.id, cell.lang) {
            Ordering::Less => note(&next, &LabelRef::Deleted, changes)?,
            Ordering::Equal => note(&next, &cell.label, changes)?,
            Ordering::Greater => return Ok((olds, news)),
        }
        olds = old_rest;
        news = new_rest;
    }
    Ok((olds, news))
}

/// Finds the changes at all keys that are left, of which the site has no cells.
fn find_rest<'k>(
    old: &'k [Entry<Label>],
    new: &'k [Entry<Label>],
    changes: &mut Vec<KeyChange<'k>>,
) -> Result<(), AllocError>
    requires old { IsMap key_cmp old.now }
    requires new { IsMap key_cmp new.now }
    ensures { OnOk result ((all all_new : List Labelled) (cells : Entries)
        → IsMap key_cmp cells
        → IsFound all all_new old.now new.now cells
        (changes_of changes.old.items)
        → AreChanges all all_new cells (changes_of changes.new.items)) }
{
    let mut olds = old;
    let mut news = new;
    while let Some((next, old_rest, new_rest)) = first_revised(olds, news) {
        note(&next, &LabelRef::Deleted, changes)?;
        olds = old_rest;
        news = new_rest;
    }
    Ok(())
}

/// Adds the change at a key, unless nothing was changed or the site has the new label already.
fn note<'k>(
    revised: &Revised<'k>,
    held: &LabelRef<'_>,
    changes: &mut Vec<KeyChange<'k>>,
) -> Result<(), AllocError>
    ensures { OnOk result (IsNoted revised.now (texts_of held.now)
        (changes_of changes.old.items) (changes_of changes.new.items)) }
{
    if is_change(held, revised) {
        changes.push(KeyChange {
            key: revised.key,
            label: revised.new,
        })?;
    }
    Ok(())
}
