//! What an editor changed in language maps, applied to a site.
ghost use Rattle.std.specs.Prelude.{◌≡◌, ◌++◌, [], ℕ, IfErr, IfSome, List};
ghost use Rattle.std.specs.Prelude.{MatchResult, OnErr, OnOk, Option};
ghost use Rattle.cell_core.specs.Keyed.{IsMap};
ghost use Rattle.cell_core.specs.declared.stamp.Stamp.{Stamp};
ghost use Rattle.cell_core.specs.Entry.{key_cmp};
ghost use Rattle.catalogue.specs.Entries.{Entries};
ghost use Rattle.catalogue.specs.CatalogueLatest.{latest_of};
ghost use Rattle.catalogue.specs.declared.cata_fault.CataFault.TheVariants.{ClockSpent, NoMemory};
ghost use Rattle.json_docs.specs.FaultChecks.{OrMemory};
ghost use Rattle.row_docs.specs.Reading.{no_memory};
ghost use Rattle.site_docs.specs.Reading.{IsSiteText, ReadsAsSite};
ghost use Rattle.site_docs.specs.Sink.{texts_of};
ghost use Rattle.map_docs.specs.MapsLabels.{AreLangMaps};
ghost use Rattle.query_docs.specs.Exporting.{label_at};
ghost use Rattle.docs_core.specs.inner.FoundChanges.{changes_of};
ghost use Rattle.docs_core.specs.UpdatingChanges.{Change, Makes};
ghost use Rattle.docs_core.specs.inner.Revised.{IsRevised, NoStamp};
ghost use Rattle.docs_core.specs.inner.StampedRows.{HoldsStamped};
ghost use Rattle.docs_core.specs.Updating.{AreChanges, IsUpdated, RefusesUpdate, SpendsUpdate};
ghost use Rattle.docs_core.specs.Updating.{Updates};
ghost use Rattle.docs_core.specs.inner.Updating.{IsWithUpdates, RefusesMaps, RefusesUpdates};

use crate::call::found_changes::{FoundChanges, KeyChange};
use crate::call::revised::{Revised, first_revised, is_change};
use crate::call::sites::{copy_of, edit, first_refusal};
use crate::call::stamped_rows::StampedRows;
use cata_core::{CataFault, Catalogue, Site};
use cell_core::{Entry, Label};
use json_docs::{Doc, DocFault};
use map_docs::{LangMaps, langmaps_of_document};
use query_docs::label_at;
use site_docs::{LabelRef, WrittenRows, show_document, site_at, write_site};
use std::alloc::Global;

/// The document of the site after what an editor changed in language maps: from `old`, as they were
/// before, to `new`, as they are now. The changes are made in ascending order of key at the time
/// `now`, each with the next stamp of the site; no other cell changes.
///
/// A label that was added or is another now is put, unless the site has it already. A label that is
/// left out is deleted, unless the site has no live label of the key. Where the old and the new
/// label are equal nothing is done, whatever the site has. Labels are equal where their texts are.
///
/// Refusals, in their order: a reader's with document 1, a reader's with document 2 (the old
/// language maps), a reader's with document 3 (the new ones), then 14 where there is no next stamp
/// for a change, which refuses the whole. Out of memory (26) may come before.
pub fn update_document(
    alloc: Global,
    site: &[u8],
    now: u64,
    old: &[u8],
    new: &[u8],
) -> Result<Doc, DocFault>
    ensures { MatchResult result (IsUpdated site.now now old.now new.now) (OrMemory no_memory
        (RefusesUpdate site.now now old.now new.now)) }
{
    let (old, new) = match both_maps(alloc, old, new) {
        Ok(maps) => maps,
        Err(fault) => return Err(first_refusal(alloc, site, fault)),
    };
    match updated_rows(alloc, site, now, &old, &new)? {
        Some(doc) => Ok(doc),
        None => updated_site(alloc, site, now, &old, &new),
    }
}

/// Makes the changes from the old labels to the new ones, in ascending order of key at the time
/// `now`, as [`update_document`] makes them in the document of a site.
///
/// Refused by `ClockSpent` (14) where there is no next stamp for a change, and by `NoMemory` (26);
/// the changes before that one are then made, and no other.
pub fn update_labels(
    alloc: Global,
    site: &mut Site,
    now: u64,
    old: &LangMaps,
    new: &LangMaps,
) -> Result<(), CataFault>
    ensures name { site.new.name ≡ site.old.name }
    ensures ok { OnOk result (Updates now site.old.name old.now new.now site.old.cells
        site.new.cells) }
    ensures err { IfErr result (OrMemory NoMemory (λ fault. (fault ≡ ClockSpent)
        × SpendsUpdate now site.old.name old.now new.now site.old.cells)) }
    ensures left { OnErr result ((some more : List Change)
        × AreChanges old.now new.now site.old.cells (some ++ more)
        × Makes now site.old.name some site.old.cells site.new.cells) }
{
    let mut olds = old.labels();
    let mut news = new.labels();
    while let Some((revised, old_rest, new_rest)) = first_revised(olds, news) {
        match revise(alloc, site, now, &revised) {
            Ok(()) => {}
            Err(fault) => return Err(fault),
        }
        olds = old_rest;
        news = new_rest;
    }
    Ok(())
}

/// The old language maps, document 2, and the new ones, document 3.
fn both_maps(alloc: Global, old: &[u8], new: &[u8]) -> Result<(LangMaps, LangMaps), DocFault>
    ensures { MatchResult result
        (λ maps. AreLangMaps old.now maps.0 × AreLangMaps new.now maps.1)
        (OrMemory no_memory (RefusesMaps old.now new.now)) }
{
    let old = langmaps_of_document(alloc, 2, old)?;
    let new = langmaps_of_document(alloc, 3, new)?;
    Ok((old, new))
}

/// The document of the site after the changes from the old labels to the new ones, where it is in
/// the form that is written: its rows are copied as they are read.
///
/// `None` says nothing of the document: see [`StampedRows::add`].
fn updated_rows(
    alloc: Global,
    site: &[u8],
    now: u64,
    old: &LangMaps,
    new: &LangMaps,
) -> Result<Option<Doc>, DocFault>
    ensures { MatchResult result
        (λ doc. IfSome doc (IsWithUpdates site.now now old.now new.now))
        (OrMemory no_memory (RefusesUpdates site.now now old.now new.now)) }
{
    let Some(rows) = WrittenRows::new(alloc, site) else {
        return Ok(None);
    };
    let start = FoundChanges::new(alloc, old, new);
    let (name, found) = show_document(alloc, 1, site, &start)?;
    let (changes, stamps) = found.close(alloc)?;
    let stamped = StampedRows::new(alloc, site, rows, site.len(), now, name, &stamps)?;
    Ok(with_changes(alloc, stamped, changes.as_slice()))
}

/// The document of the site after these changes, which are in ascending order of key.
///
/// `None` says nothing of the document.
fn with_changes(
    alloc: Global,
    mut stamped: StampedRows<'_>,
    changes: &[KeyChange<'_>],
) -> Option<Doc>
    requires ascending { IsMap key_cmp (changes_of changes.now) }
    requires holds { (now : ℕ) × (name : List ℕ) × (last : Option Stamp)
        × HoldsStamped now name last stamped [] }
    ensures { IfSome result (λ doc. (now : ℕ) (name : List ℕ) (own : Entries)
        → ReadsAsSite stamped.entry.site.now (record { name = name; cells = own })
        → HoldsStamped now name (latest_of own) stamped.entry []
        → (made : Entries) × Makes now name (changes_of changes.now) own made
        × IsSiteText (record { name = name; cells = made }) doc) }
{
    for change in changes {
        let key = change.key;
        let Ok(label) = copy_of(alloc, change.label) else {
            return None;
        };
        stamped.add(alloc, key.id(), key.lang(), label)?;
    }
    stamped.close(alloc)
}

/// The document of the site after the changes from the old labels to the new ones, whatever its
/// form: it is read into memory, and edited there.
///
/// Refused as a reader's with document 1, then where there is no next stamp for a change (14). Out
/// of memory (26) may come before.
fn updated_site(
    alloc: Global,
    site: &[u8],
    now: u64,
    old: &LangMaps,
    new: &LangMaps,
) -> Result<Doc, DocFault>
    ensures { MatchResult result (IsWithUpdates site.now now old.now new.now)
        (OrMemory no_memory (RefusesUpdates site.now now old.now new.now)) }
{
    let mut site = site_at(alloc, 1, site)?;
    update_labels(alloc, &mut site, now, old, new)?;
    let doc = write_site(alloc, &site)?;
    Ok(doc)
}

/// Makes the change of a key, unless nothing was changed or the site has it already.
fn revise(alloc: Global, site: &mut Site, now: u64, revised: &Revised<'_>) -> Result<(), CataFault>
    ensures name { site.new.name ≡ site.old.name }
    ensures ok { OnOk result (IsRevised now site.old.name revised.now site.old.cells
        site.new.cells) }
    ensures err { IfErr result (OrMemory NoMemory (λ fault. (fault ≡ ClockSpent)
        × NoStamp now site.old.name revised.now site.old.cells)) }
    ensures left { OnErr result (site.new ≡ site.old) }
{
    let key = revised.key;
    if !is_change(&held_label(site.catalogue(), key), revised) {
        return Ok(());
    }
    match edit(alloc, site, now, key.id(), key.lang(), revised.new) {
        Ok(_) => Ok(()),
        Err(fault) => Err(fault),
    }
}

/// The live label of a key.
fn held_label<'a>(cells: &'a Catalogue, key: &Entry<Label>) -> LabelRef<'a>
    ensures { texts_of result ≡ label_at key.now.0 cells.now }
{
    match label_at(cells, key.id(), key.lang()) {
        Some(label) => LabelRef::Held(label),
        None => LabelRef::Deleted,
    }
}
