//! Edits of a site that shares may have in common: in place where there is one share, and else in
//! another site.
ghost use Rattle.std.specs.Prelude.{◌≡◌, ◌≢◌, ◌^◌, ◌<◌, ℕ, IfErr, OnErr, OnOk, length};
ghost use Rattle.cell_core.specs.Keyed.{IsMap};
ghost use Rattle.cell_core.specs.Entry.{key_cmp};
ghost use Rattle.cata_core.specs.Site.{SiteState};
ghost use Rattle.catalogue.specs.declared.cata_fault.CataFault.TheVariants.{ClockSpent};
ghost use Rattle.docs_core.specs.ImportingLabels.{Imports, SpendsImport};
ghost use Rattle.docs_core.specs.Updating.{SpendsUpdate, Updates};
ghost use Rattle.front_core.specs.Change.{IsChanged, RefusesChange};
ghost use Rattle.site_docs.specs.Checks.{IsOwnMissing, LacksNoOwn};
ghost use Rattle.site_docs.specs.RowsInTime.{AreInTime, IsTimeAhead};
ghost use Rattle.front_core.specs.Fault.{IsOf, document_fault, site_fault};
ghost use Rattle.front_core.specs.OpenSite.{IsJoined, IsJoinedOwn, IsTakenDelta, OrNoMemory};
ghost use Rattle.front_core.specs.OpenSite.{RefusesJoin, RefusesJoinOwn, RefusesTakeDelta};
ghost use Rattle.front_core.specs.inner.OpenSite.{LeavesJoin, LeavesJoinOwn, LeavesTakeDelta};
ghost use Rattle.front_core.specs.Spare.{IsSpareOf};
ghost use Rattle.front_core.specs.declared.fault.FrontFault.TheVariants.{NoMemory};

use crate::arrivals;
use crate::change::Change;
use crate::fault::FrontFault;
use crate::spare::{Spare, as_spare, equal_site, exchange, missing_more};
use cata_core::{CataFault, Catalogue, Delta, Site};
use docs_core::{LangMaps, OwnEdits, put_labels, update_labels};
use site_docs::{check_own, check_times};
use std::alloc::Global;
use std::sync::Arc;

/// Makes a change in place where this is the only share, and else in another site.
pub(crate) fn make_in(
    alloc: Global,
    share: &mut Arc<Site>,
    spare: &mut Option<Spare>,
    now: u64,
    change: &Change,
) -> Result<(), FrontFault>
    requires { IsSpareOf share.old.value spare.old }
    ensures ok { OnOk result (IsChanged now change.now share.old.value share.new.value) }
    ensures err { IfErr result (OrNoMemory (RefusesChange share.old.value now)) }
    ensures left { OnErr result (share.new.value ≡ share.old.value) }
    ensures spare { IsSpareOf share.new.value spare.new }
{
    if let Some(site) = Arc::get_mut(share) {
        return make_in_place(alloc, site, spare, now, change);
    }
    make_apart(alloc, share, spare, now, change)
}

/// Makes a change in place.
fn make_in_place(
    alloc: Global,
    site: &mut Site,
    spare: &mut Option<Spare>,
    now: u64,
    change: &Change,
) -> Result<(), FrontFault>
    requires { IsSpareOf site.old spare.old }
    ensures ok { OnOk result (IsChanged now change.now site.old site.new) }
    ensures err { IfErr result (OrNoMemory (RefusesChange site.old now)) }
    ensures left { OnErr result (site.new ≡ site.old) }
    ensures spare { IsSpareOf site.new spare.new }
{
    arrivals::keys_ascend(site);
    match change.make(alloc, site, now) {
        Ok(()) => {
            *spare = missing_change(alloc, spare.take(), site, change);
            Ok(())
        }
        Err(fault) => Err(fault),
    }
}

/// The spare after a change was made: it misses the cell of it too.
fn missing_change(
    alloc: Global,
    spare: Option<Spare>,
    site: &Site,
    change: &Change,
) -> Option<Spare>
    ensures { (old : SiteState) (now : ℕ) → IsMap key_cmp old.cells → IsSpareOf old spare
        → IsChanged now change.now old site.now → IsSpareOf site.now result }
{
    if spare.is_none() {
        return None;
    }
    let came = arrivals::of_change(alloc, site, change)?;
    missing_more(alloc, spare, &came)
}

/// Makes a change in another site, which takes the place of this one.
fn make_apart(
    alloc: Global,
    share: &mut Arc<Site>,
    spare: &mut Option<Spare>,
    now: u64,
    change: &Change,
) -> Result<(), FrontFault>
    requires { IsSpareOf share.old.value spare.old }
    ensures ok { OnOk result (IsChanged now change.now share.old.value share.new.value) }
    ensures err { IfErr result (OrNoMemory (RefusesChange share.old.value now)) }
    ensures left { OnErr result (share.new.value ≡ share.old.value) }
    ensures spare { IsSpareOf share.new.value spare.new }
{
    let mut edited = equal_site(alloc, share, spare.take())?;
    match change.make(alloc, &mut edited, now) {
        Ok(()) => {}
        Err(fault) => {
            *spare = as_spare(alloc, edited);
            return Err(fault);
        }
    }
    let came = arrivals::of_change(alloc, &edited, change);
    *spare = exchange(alloc, share, edited, came)?;
    Ok(())
}

/// Joins the cells of a delta for the site, which may test its own edits first.
pub(crate) fn take_in(
    alloc: Global,
    share: &mut Arc<Site>,
    spare: &mut Option<Spare>,
    delta: &Delta,
    own: OwnEdits,
) -> Result<(), FrontFault>
    requires { IsSpareOf share.old.value spare.old }
    ensures ok { OnOk result (IsTakenDelta own delta.now share.old.value share.new.value) }
    ensures err { IfErr result (OrNoMemory (RefusesTakeDelta own delta.now share.old.value)) }
    ensures left { OnErr result (LeavesTakeDelta own delta.now share.old.value share.new.value) }
    ensures kept { IfErr result (λ fault. fault ≢ NoMemory → share.new.value ≡ share.old.value) }
    ensures spare { IsSpareOf share.new.value spare.new }
{
    let addressee = delta.addressee();
    if share.name() != addressee {
        return Err(FrontFault::from(CataFault::NotForMe { addressee }));
    }
    join_own_in(alloc, share, spare, delta.cells(), own)
}

/// Joins cells, if the site lacks none of its own edits among them, or that is not tested.
pub(crate) fn join_own_in(
    alloc: Global,
    share: &mut Arc<Site>,
    spare: &mut Option<Spare>,
    cells: &Catalogue,
    own: OwnEdits,
) -> Result<(), FrontFault>
    requires { IsSpareOf share.old.value spare.old }
    ensures ok { OnOk result (IsJoinedOwn own cells.now share.old.value share.new.value) }
    ensures err { IfErr result (OrNoMemory (RefusesJoinOwn own cells.now share.old.value)) }
    ensures left { OnErr result (LeavesJoinOwn own cells.now share.old.value share.new.value) }
    ensures kept { IfErr result (λ fault. fault ≢ NoMemory → share.new.value ≡ share.old.value) }
    ensures spare { IsSpareOf share.new.value spare.new }
{
    // (With `?` the kit has no plan for the borrows here: it misses the module of `CataFault`.)
    match check_own_edits(share, cells, own) {
        Ok(()) => join_in(alloc, share, spare, cells),
        Err(fault) => Err(fault),
    }
}

/// Whether the site lacks none of its own edits among the cells, if that is tested.
fn check_own_edits(site: &Site, cells: &Catalogue, own: OwnEdits) -> Result<(), FrontFault>
    ensures ok { OnOk result (LacksNoOwn own site.now cells.now) }
    ensures err { IfErr result
        (OrNoMemory (IsOf document_fault (IsOwnMissing 1 own site.now cells.now))) }
{
    check_count(cells)?;
    match check_own(1, site, cells, own) {
        Ok(()) => Ok(()),
        Err(fault) => Err(FrontFault::from(fault)),
    }
}

/// Whether no time of the cells is after the limit, if there is one.
pub(crate) fn check_limit(cells: &Catalogue, not_after: Option<u64>) -> Result<(), FrontFault>
    ensures ok { OnOk result (AreInTime not_after cells.now) }
    ensures err { IfErr result
        (OrNoMemory (IsOf document_fault (IsTimeAhead 1 not_after cells.now))) }
{
    check_count(cells)?;
    match check_times(1, cells, not_after) {
        Ok(()) => Ok(()),
        Err(fault) => Err(FrontFault::from(fault)),
    }
}

/// Whether the cells can be counted as rows. No memory holds more than that.
fn check_count(cells: &Catalogue) -> Result<(), FrontFault>
    ensures ok { OnOk result (length cells.now < 2 ^ 64) }
    ensures err { IfErr result (λ fault. fault ≡ NoMemory) }
{
    match usize::try_from(cells.len()) {
        Ok(_) => Ok(()),
        Err(_) => Err(FrontFault::NoMemory),
    }
}

/// Joins cells in place where this is the only share, and else in another site.
fn join_in(
    alloc: Global,
    share: &mut Arc<Site>,
    spare: &mut Option<Spare>,
    cells: &Catalogue,
) -> Result<(), FrontFault>
    requires { IsSpareOf share.old.value spare.old }
    ensures ok { OnOk result (IsJoined cells.now share.old.value share.new.value) }
    ensures err { IfErr result (OrNoMemory (RefusesJoin cells.now share.old.value)) }
    ensures left { OnErr result (LeavesJoin cells.now share.old.value share.new.value) }
    ensures kept { IfErr result (λ fault. fault ≢ NoMemory → share.new.value ≡ share.old.value) }
    ensures spare { IsSpareOf share.new.value spare.new }
{
    if let Some(site) = Arc::get_mut(share) {
        return join_in_place(alloc, site, spare, cells);
    }
    join_apart(alloc, share, spare, cells)
}

/// Joins cells in place. Where memory ends some may be joined, and the spare is dropped.
fn join_in_place(
    alloc: Global,
    site: &mut Site,
    spare: &mut Option<Spare>,
    cells: &Catalogue,
) -> Result<(), FrontFault>
    requires { IsSpareOf site.old spare.old }
    ensures ok { OnOk result (IsJoined cells.now site.old site.new) }
    ensures err { IfErr result (OrNoMemory (RefusesJoin cells.now site.old)) }
    ensures left { OnErr result (LeavesJoin cells.now site.old site.new) }
    ensures kept { IfErr result (λ fault. fault ≢ NoMemory → site.new ≡ site.old) }
    ensures spare { IsSpareOf site.new spare.new }
{
    match site.merge(alloc, cells) {
        Ok(()) => {
            *spare = missing_more(alloc, spare.take(), cells);
            Ok(())
        }
        Err(CataFault::NoMemory) => {
            *spare = None;
            Err(FrontFault::NoMemory)
        }
        Err(fault) => Err(FrontFault::from(fault)),
    }
}

/// Joins cells in another site, which takes the place of this one.
fn join_apart(
    alloc: Global,
    share: &mut Arc<Site>,
    spare: &mut Option<Spare>,
    cells: &Catalogue,
) -> Result<(), FrontFault>
    requires { IsSpareOf share.old.value spare.old }
    ensures ok { OnOk result (IsJoined cells.now share.old.value share.new.value) }
    ensures err { IfErr result (OrNoMemory (RefusesJoin cells.now share.old.value)) }
    ensures left { OnErr result (share.new.value ≡ share.old.value) }
    ensures spare { IsSpareOf share.new.value spare.new }
{
    let mut edited = equal_site(alloc, share, spare.take())?;
    match edited.merge(alloc, cells) {
        Ok(()) => {}
        Err(CataFault::NoMemory) => return Err(FrontFault::NoMemory),
        Err(fault) => {
            *spare = as_spare(alloc, edited);
            return Err(FrontFault::from(fault));
        }
    }
    let came = arrivals::of_merge(alloc, cells);
    *spare = exchange(alloc, share, edited, came)?;
    Ok(())
}

/// Puts each label in another site, which takes the place of this one. Where one is refused, that
/// other site is dropped.
pub(crate) fn import_in(
    alloc: Global,
    share: &mut Arc<Site>,
    spare: &mut Option<Spare>,
    now: u64,
    maps: &LangMaps,
) -> Result<(), FrontFault>
    requires { IsSpareOf share.old.value spare.old }
    ensures name { share.new.value.name ≡ share.old.value.name }
    ensures ok { OnOk result (Imports now share.old.value.name maps.now share.old.value.cells
        share.new.value.cells) }
    ensures err { IfErr result (OrNoMemory (λ fault. (fault ≡ site_fault ClockSpent)
        × SpendsImport now share.old.value.name maps.now share.old.value.cells)) }
    ensures left { OnErr result (share.new.value ≡ share.old.value) }
    ensures spare { IsSpareOf share.new.value spare.new }
{
    let mut edited = equal_site(alloc, share, spare.take())?;
    put_labels(alloc, &mut edited, now, maps)?;
    let came = arrivals::of_import(alloc, share, &edited, maps);
    *spare = exchange(alloc, share, edited, came)?;
    Ok(())
}

/// Makes the changes from the old labels to the new ones in another site, which takes the place of
/// this one. Where one is refused, that other site is dropped.
pub(crate) fn update_in(
    alloc: Global,
    share: &mut Arc<Site>,
    spare: &mut Option<Spare>,
    now: u64,
    before: &LangMaps,
    after: &LangMaps,
) -> Result<(), FrontFault>
    requires { IsSpareOf share.old.value spare.old }
    ensures name { share.new.value.name ≡ share.old.value.name }
    ensures ok { OnOk result (Updates now share.old.value.name before.now after.now
        share.old.value.cells share.new.value.cells) }
    ensures err { IfErr result (OrNoMemory (λ fault. (fault ≡ site_fault ClockSpent)
        × SpendsUpdate now share.old.value.name before.now after.now share.old.value.cells)) }
    ensures left { OnErr result (share.new.value ≡ share.old.value) }
    ensures spare { IsSpareOf share.new.value spare.new }
{
    let mut edited = equal_site(alloc, share, spare.take())?;
    update_labels(alloc, &mut edited, now, before, after)?;
    let came = arrivals::of_update(alloc, share, &edited, before, after);
    *spare = exchange(alloc, share, edited, came)?;
    Ok(())
}
