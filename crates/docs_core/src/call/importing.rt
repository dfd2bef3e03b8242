//! Labels put into a site.
ghost use Rattle.std.specs.Prelude.{◌≡◌, ◌++◌, ℕ, IfErr, IfSome, List, MatchResult, OnErr, OnOk};
ghost use Rattle.catalogue.specs.Entries.{Entries};
ghost use Rattle.catalogue.specs.CatalogueLatest.{latest_of};
ghost use Rattle.catalogue.specs.declared.cata_fault.CataFault.TheVariants.{ClockSpent, NoMemory};
ghost use Rattle.json_docs.specs.FaultChecks.{OrMemory};
ghost use Rattle.row_docs.specs.Reading.{no_memory};
ghost use Rattle.site_docs.specs.Reading.{IsSiteText, ReadsAsSite};
ghost use Rattle.map_docs.specs.Maps.{Labelled};
ghost use Rattle.docs_core.specs.Importing.{IsImported, RefusesImport};
ghost use Rattle.docs_core.specs.ImportingLabels.{Imports, SpendsImport};

use crate::call::latest_stamp::{LatestStamp, latest_stamp};
use crate::call::stamped_rows::StampedRows;
use cata_core::{CataFault, Site};
use cell_core::SiteName;
use json_docs::{Doc, DocFault};
use map_docs::{LangMaps, langmaps_of_document, take_langmaps};
use site_docs::{WrittenRows, site_at, write_site};
use std::alloc::Global;

/// The document of the site after each label of the language maps was put, in ascending order of
/// key, at the time `now`: each with the next stamp of the site. A label that the site has already
/// is put again and gets a new stamp; no other cell changes.
///
/// Refusals, in their order: a reader's with document 1, a reader's with document 2, then 14 where
/// there is no next stamp for a label, which refuses the whole. Out of memory (26) may come before.
pub fn import_document(
    alloc: Global,
    site: &[u8],
    now: u64,
    langmaps: &[u8],
) -> Result<Doc, DocFault>
    ensures { MatchResult result (IsImported site.now now langmaps.now)
        (OrMemory no_memory (RefusesImport site.now now langmaps.now)) }
{
    match imported_rows(alloc, site, now, langmaps)? {
        Some(doc) => Ok(doc),
        None => imported_site(alloc, site, now, langmaps),
    }
}

/// Puts each label, in ascending order of key, at this time: with the next stamp of the site after
/// the greatest that it then has. A label that the site has already is put again.
///
/// Refused by `ClockSpent` (14) where there is no next stamp for a label, and by `NoMemory` (26);
/// the labels before that one are then put, and no other cell is changed.
pub fn put_labels(
    alloc: Global,
    site: &mut Site,
    now: u64,
    maps: &LangMaps,
) -> Result<(), CataFault>
    ensures name { site.new.name ≡ site.old.name }
    ensures ok { OnOk result (Imports now site.old.name maps.now site.old.cells site.new.cells) }
    ensures err { IfErr result (OrMemory NoMemory (λ fault. (fault ≡ ClockSpent)
        × SpendsImport now site.old.name maps.now site.old.cells)) }
    ensures left { OnErr result ((some more : List Labelled) × (maps.now ≡ some ++ more)
        × Imports now site.old.name some site.old.cells site.new.cells) }
{
    for found in maps.labels() {
        match site.put(alloc, now, found.id(), found.lang(), found.value()) {
            Ok(_) => {}
            Err(fault) => return Err(fault),
        }
    }
    Ok(())
}

/// What [`import_document`] answers where the site is in the form that is written: its rows are
/// copied as they are read.
///
/// `None` says nothing of the documents: see [`StampedRows::add`].
fn imported_rows(
    alloc: Global,
    site: &[u8],
    now: u64,
    langmaps: &[u8],
) -> Result<Option<Doc>, DocFault>
    ensures { MatchResult result (λ doc. IfSome doc (IsImported site.now now langmaps.now))
        (OrMemory no_memory (RefusesImport site.now now langmaps.now)) }
{
    let Some(rows) = WrittenRows::new(alloc, site) else {
        return Ok(None);
    };
    let room = site.len().saturating_add(langmaps.len());
    let (name, stamps) = latest_stamp(alloc, site)?;
    let mut stamped = StampedRows::new(alloc, site, rows, room, now, name, &stamps)?;
    match take_langmaps(alloc, 2, langmaps, &mut stamped)? {
        None => Ok(stamped.close(alloc)),
        Some(maps) => {
            drop(stamped);
            Ok(with_labels(alloc, site, room, now, name, &stamps, &maps))
        }
    }
}

/// The same of labels that were read, into the site of this name and with this latest stamp.
///
/// `None` says nothing of the document.
fn with_labels(
    alloc: Global,
    site: &[u8],
    room: usize,
    now: u64,
    name: SiteName,
    stamps: &LatestStamp,
    maps: &LangMaps,
) -> Option<Doc>
    ensures { IfSome result (λ doc. (own : Entries)
        → ReadsAsSite site.now (record { name = name; cells = own })
        → stamps.now.latest ≡ latest_of own
        → (made : Entries) × Imports now name maps.now own made
        × IsSiteText (record { name = name; cells = made }) doc) }
{
    let rows = WrittenRows::new(alloc, site)?;
    let Ok(mut stamped) = StampedRows::new(alloc, site, rows, room, now, name, stamps) else {
        return None;
    };
    for found in maps.labels() {
        let Ok(label) = found.value().copy(alloc) else {
            return None;
        };
        stamped.add(alloc, found.id(), found.lang(), Some(label))?;
    }
    stamped.close(alloc)
}

/// What [`import_document`] answers of documents in any form: the site is read into memory, and
/// edited there.
fn imported_site(alloc: Global, site: &[u8], now: u64, langmaps: &[u8]) -> Result<Doc, DocFault>
    ensures { MatchResult result (IsImported site.now now langmaps.now)
        (OrMemory no_memory (RefusesImport site.now now langmaps.now)) }
{
    let mut site = site_at(alloc, 1, site)?;
    let maps = langmaps_of_document(alloc, 2, langmaps)?;
    put_labels(alloc, &mut site, now, &maps)?;
    drop(maps);
    let doc = write_site(alloc, &site)?;
    Ok(doc)
}
