//! Calls on whole documents, from bytes to bytes.
ghost use Rattle.std.specs.Prelude.{◌≡◌, ◌≢◌, ◌⊎◌, ◌<◌, ◌^◌, All, IfErr, IfOk, IfSome, MatchResult};
ghost use Rattle.std.specs.Prelude.{OnErr, false, length, option_map};
ghost use Rattle.std.specs.FinMap.Entries.{put};
ghost use Rattle.cell_core.specs.Stamp.{IsNext, NoNext};
ghost use Rattle.cell_core.specs.Entry.{key_cmp};
ghost use Rattle.catalogue.specs.CatalogueLatest.{latest_of};
ghost use Rattle.cata_core.specs.Site.{RefusesEdit, SiteState};
ghost use Rattle.catalogue.specs.declared.cata_fault.CataFault.TheVariants.{ClockSpent, NotForMe};
ghost use Rattle.json_docs.specs.FaultChecks.{OrMemory};
ghost use Rattle.row_docs.specs.Reading.{IsOfDocument, no_memory};
ghost use Rattle.site_docs.specs.Reading.{ReadsAsSite, RefusesSite};
ghost use Rattle.docs_core.specs.Calls.{AreSynced, IsEdited, IsDeltaFor, IsSummarised};
ghost use Rattle.docs_core.specs.Calls.{IsTaken, RefusesEditing, RefusesDeltaFor, RefusesSync};
ghost use Rattle.docs_core.specs.Calls.{RefusesTaking};
ghost use Rattle.site_docs.specs.Checks.{IsOwnMissing, IsOwnMissingOfBoth, LackNoOwn, LacksNoOwn};
ghost use Rattle.docs_core.specs.inner.SyncedRows.{AreTestsOf};

use crate::call::edited_rows::EditedRows;
use crate::call::joined_rows::JoinedRows;
use crate::call::latest_stamp::latest_stamp;
use crate::call::synced_rows::{SyncedRows, Tests};
use cata_core::{CataFault, Catalogue, Delta, Site};
use cell_core::{Cell, Label, MessageId, SiteName, Stamp};
use json_docs::{Doc, DocFault};
use lang_core::Lang;
use memchr::memrchr;
use site_docs::{
    Checks, OwnEdits, RowsInTime, check_own, check_times, delta_until, show_document, site_at,
};
use std::alloc::{AllocError, Global};
use summary_docs::{LackedRows, Shows, shown_at, summary_of_document};

/// The document of the site after an edit at the time `now`: a label is put, and none deletes.
///
/// It reads as that site, so the next call goes on from it; this is true of what each call on
/// documents answers.
///
/// Refusals, in their order: a reader's with document 1, then 14 where the site has no next stamp.
/// Out of memory (26) may come before.
pub fn edit_document(
    alloc: Global,
    site: &[u8],
    now: u64,
    id: &MessageId,
    lang: &Lang,
    label: Option<&Label>,
) -> Result<Doc, DocFault>
    ensures { MatchResult result
        (IsEdited site.now now (id.now, lang.now) (option_map (λ l. l.now) label.entry))
        (OrMemory no_memory (RefusesEditing site.now now)) }
{
    let start = EditedRows::new(alloc, id, lang, site.len())?;
    let (name, rows) = show_document(alloc, 1, site, &start)?;
    let stamp = next_stamp(rows.latest, now, name)?;
    let label = copy_of(alloc, label)?;
    let doc = rows.close(alloc, name, &Cell::new(stamp, label))?;
    Ok(doc)
}

/// An equal label, where there is one.
pub(crate) fn copy_of(alloc: Global, label: Option<&Label>) -> Result<Option<Label>, AllocError>
    ensures { IfOk result (λ copy. copy ≡ option_map (λ l. l.now) label.entry) }
{
    match label {
        Some(label) => Ok(Some(label.copy(alloc)?)),
        None => Ok(None),
    }
}

/// The least stamp of the site that is greater than the latest one and not before now.
fn next_stamp(latest: Option<Stamp>, now: u64, name: SiteName) -> Result<Stamp, CataFault>
    ensures { MatchResult result (IsNext latest now name)
        (λ fault. (fault ≡ ClockSpent) × NoNext latest now name) }
{
    match Stamp::next(latest, now, name) {
        Ok(stamp) => Ok(stamp),
        Err(_) => Err(CataFault::ClockSpent),
    }
}

/// Puts the label, or deletes it where there is none.
pub(crate) fn edit(
    alloc: Global,
    site: &mut Site,
    now: u64,
    id: &MessageId,
    lang: &Lang,
    label: Option<&Label>,
) -> Result<Stamp, CataFault>
    ensures ok { IfOk result (λ stamp. IsNext (latest_of site.old.cells) now site.old.name stamp
        × (site.new ≡ record {
          name = site.old.name;
          cells = put key_cmp (id.now, lang.now)
              (record { stamp = stamp; label = option_map (λ l. l.now) label.entry })
              site.old.cells;
        })) }
    ensures err { IfErr result (RefusesEdit site.old now) }
    ensures left { OnErr result (site.new ≡ site.old) }
{
    match label {
        Some(label) => site.put(alloc, now, id, lang, label),
        None => site.delete(alloc, now, id, lang),
    }
}

/// The documents of both sites after each took the other's cells, in the order given. A site with
/// a time that is too late refuses the whole, deletions among them.
///
/// Refusals, in their order: a reader's with document 1, a reader's with document 2, then 29 with
/// the first row of document 1 whose time is greater than that of the checks, then with that of
/// document 2; then 30 with the first row of document 1 that is an edit which the second site made
/// and lacks, then with that of document 2 of the first site's; then 13 with the place in the first
/// site. Out of memory (26) may come before.
pub fn sync_documents(
    alloc: Global,
    first: &[u8],
    second: &[u8],
    checks: Checks,
) -> Result<(Doc, Doc), DocFault>
    ensures { MatchResult result (λ docs. AreSynced checks first.now second.now docs.0 docs.1)
        (OrMemory no_memory (RefusesSync checks first.now second.now)) }
{
    if let Some(synced) = written_synced(alloc, first, second, checks)? {
        return Ok(synced);
    }
    let room = first.len().saturating_add(second.len());
    let second = match site_at(alloc, 2, second) {
        Ok(second) => second,
        Err(fault) => return Err(first_refusal(alloc, first, fault)),
    };
    let joined = JoinedRows::new(alloc, second.catalogue(), room)?;
    let start = RowsInTime::new(joined, checks.not_after);
    let (name, rows) = show_document(alloc, 1, first, &start)?;
    let rows = rows.in_time(1)?;
    check_times(2, second.catalogue(), checks.not_after)?;
    check_both(alloc, first, &second, checks.own_edits)?;
    let docs = rows.close_both(alloc, name, second.name())?;
    Ok(docs)
}

/// The same where the second document is as it is written. Both are read at once.
///
/// `None` says nothing: the second document may be valid in another form, the whole may have to be
/// refused, or memory ran out. Refused as document 1 is by its reader, or out of memory (26).
fn written_synced(
    alloc: Global,
    first: &[u8],
    second: &[u8],
    checks: Checks,
) -> Result<Option<(Doc, Doc)>, DocFault>
    ensures { MatchResult result (λ synced. IfSome synced
        (λ docs. AreSynced checks first.now second.now docs.0 docs.1))
        (OrMemory no_memory (IsOfDocument 1 (RefusesSite first.now))) }
{
    let Some(tests) = tests_of(first, second, checks) else {
        return Ok(None);
    };
    let room = first.len().saturating_add(second.len());
    let synced = SyncedRows::new(alloc, second, tests, room)?;
    let start = RowsInTime::new(synced, checks.not_after);
    let (name, rows) = show_document(alloc, 1, first, &start)?;
    // (Before a time of the first site, the reader of the second document refuses.)
    match rows.in_time(1) {
        Ok(rows) => Ok(rows.close_both(alloc, name)),
        Err(_) => Ok(None),
    }
}

/// What is tested of the rows of two sites under these checks. The names of the sites are read at
/// the ends of their documents, and compared with those of the sites once all rows were read.
/// `None` if a document has no name at its end.
fn tests_of(first: &[u8], second: &[u8], checks: Checks) -> Option<Tests>
    ensures { IfSome result (AreTestsOf checks) }
{
    let not_after = checks.not_after;
    match checks.own_edits {
        OwnEdits::Unchecked => Some(Tests {
            not_after,
            first: None,
            second: None,
        }),
        OwnEdits::Checked => {
            let first = name_at_end(first)?;
            let second = name_at_end(second)?;
            Some(Tests {
                not_after,
                first: Some(first),
                second: Some(second),
            })
        }
    }
}

/// The name of the site of a document that is as it is written, whose last members are the site and
/// the version: what is between the last quote but three and the last but two.
fn name_at_end(document: &[u8]) -> Option<SiteName> {
    let version = before_quote(before_quote(document)?)?;
    let name_and_before = before_quote(version)?;
    let quote = memrchr(b'"', name_and_before)?;
    let name = name_and_before.get(quote.saturating_add(1)..)?;
    match std::str::from_utf8(name) {
        Ok(name) => SiteName::new(name).ok(),
        Err(_) => None,
    }
}

/// What comes before the last quote of a text.
fn before_quote(text: &[u8]) -> Option<&[u8]> {
    text.get(..memrchr(b'"', text)?)
}

/// Whether neither the site of this document, which reads as one, nor the other lacks an edit of
/// its own that the other has, if that is tested.
fn check_both(alloc: Global, first: &[u8], second: &Site, own: OwnEdits) -> Result<(), DocFault>
    requires { length second.now.cells < 2 ^ 64 }
    ensures { (site : SiteState) → ReadsAsSite first.now site → MatchResult result
        (λ _. LackNoOwn own site second.now)
        (OrMemory no_memory (IsOwnMissingOfBoth own site second.now)) }
{
    if let OwnEdits::Unchecked = own {
        return Ok(());
    }
    let first = site_at(alloc, 1, first)?;
    check_own(1, second, first.catalogue(), own)?;
    check_own(2, &first, second.catalogue(), own)?;
    Ok(())
}

/// The document of the site's summary: the stamps of its cells, deletions among them, and a digest
/// of each label if it shows labels.
///
/// Refusals: a reader's with document 1. Out of memory (26) may come before.
pub fn summary_document(alloc: Global, site: &[u8], shows: Shows) -> Result<Doc, DocFault>
    ensures { MatchResult result (IsSummarised shows site.now)
        (OrMemory no_memory (IsOfDocument 1 (RefusesSite site.now))) }
{
    summary_of_document(alloc, 1, site, shows)
}

/// The document of the delta of what the summary lacks, for the summary's owner. If the summary
/// shows labels, it lacks also a cell whose stamp it has with the digest of another label.
///
/// Refusals, in their order: a reader's with document 1, a reader's with document 2. Out of memory
/// (26) may come before.
pub fn delta_document(alloc: Global, site: &[u8], summary: &[u8]) -> Result<Doc, DocFault>
    ensures { MatchResult result (IsDeltaFor site.now summary.now)
        (OrMemory no_memory (RefusesDeltaFor site.now summary.now)) }
{
    let room = site.len();
    let summary = match shown_at(alloc, 2, summary) {
        Ok(summary) => summary,
        Err(fault) => return Err(first_refusal(alloc, site, fault)),
    };
    let start = LackedRows::new(alloc, &summary, room)?;
    let (_, rows) = show_document(alloc, 1, site, &start)?;
    let doc = rows.close(alloc, summary.owner())?;
    Ok(doc)
}

/// The document of the site after it took the delta. One row of the delta that fails a check
/// refuses it as a whole: a deletion counts, and so does a cell that the site has already or in a
/// later state. The site's own times do not.
///
/// Refusals, in their order: a reader's with document 1, a reader's with document 2, then 29 with
/// the first row of the delta whose time is greater than that of the checks, then 15 where the
/// delta is for another site, then 30 with the first row that is an edit which the site made and
/// lacks, then 13 with the place in the site. Out of memory (26) may come before.
pub fn take_document(
    alloc: Global,
    site: &[u8],
    delta: &[u8],
    checks: Checks,
) -> Result<Doc, DocFault>
    ensures { MatchResult result (IsTaken checks site.now delta.now)
        (OrMemory no_memory (RefusesTaking checks site.now delta.now)) }
{
    let room = site.len().saturating_add(delta.len());
    let delta = match delta_until(alloc, 2, delta, checks.not_after) {
        Ok(delta) => delta,
        Err(fault) => return Err(first_refusal(alloc, site, fault)),
    };
    let start = JoinedRows::new(alloc, delta.cells(), room)?;
    let (name, rows) = show_document(alloc, 1, site, &start)?;
    check_addressee(name, &delta)?;
    check_delta(alloc, site, &delta, checks.own_edits)?;
    let doc = rows.close(alloc, name)?;
    Ok(doc)
}

/// Whether the delta is for the site of this name.
fn check_addressee(name: SiteName, delta: &Delta) -> Result<(), CataFault>
    ensures { MatchResult result (λ _. name ≡ delta.now.addressee)
        (λ fault. (fault ≡ NotForMe delta.now.addressee) × (name ≢ delta.now.addressee)) }
{
    let addressee = delta.addressee();
    if name != addressee {
        return Err(CataFault::NotForMe { addressee });
    }
    Ok(())
}

/// Whether the site of this document, which reads as that of the delta, lacks no edit of its own
/// that the delta brings, if that is tested. A delta rarely has an edit of the site that it is for,
/// and then the site is read once more.
fn check_delta(alloc: Global, site: &[u8], delta: &Delta, own: OwnEdits) -> Result<(), DocFault>
    requires { length delta.now.cells < 2 ^ 64 }
    ensures { (read : SiteState) → ReadsAsSite site.now read → read.name ≡ delta.now.addressee
        → MatchResult result (λ _. LacksNoOwn own read delta.now.cells)
        (OrMemory no_memory (IsOwnMissing 2 own read delta.now.cells)) }
{
    if let OwnEdits::Unchecked = own {
        return Ok(());
    }
    if !has_edit_of(delta.addressee(), delta.cells()) {
        return Ok(());
    }
    let site = site_at(alloc, 1, site)?;
    check_own(2, &site, delta.cells(), own)?;
    Ok(())
}

/// Whether a stamp of the cells names the site.
fn has_edit_of(name: SiteName, cells: &Catalogue) -> bool
    ensures { (result ≡ false) → All (λ e. e.1.stamp.site ≢ name) cells.now }
{
    for (_, _, cell) in cells.iter() {
        if cell.stamp().site == name {
            return true;
        }
    }
    false
}

/// The refusal of document 1, a site, where it has one; else this fault, of another document.
pub(crate) fn first_refusal(alloc: Global, site: &[u8], fault: DocFault) -> DocFault
    ensures { OrMemory no_memory (λ first. IsOfDocument 1 (RefusesSite site.now) first
        ⊎ ((read : SiteState) × ReadsAsSite site.now read × (first ≡ fault))) result }
{
    match latest_stamp(alloc, site) {
        Ok(_) => fault,
        Err(first) => first,
    }
}
