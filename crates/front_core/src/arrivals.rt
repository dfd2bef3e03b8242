//! The cells that an edit brought into a site.
ghost use Rattle.std.specs.Prelude.{◌≡◌, ◌≢◌, None, IfSome, IsTrue, OnOk, ℕ};
ghost use Rattle.std.specs.Option.{option_copied};
ghost use Rattle.std.specs.FinMap.Entries.{find};
ghost use Rattle.cell_core.specs.Keyed.{IsMap};
ghost use Rattle.cata_core.specs.Delta.{IsPart};
ghost use Rattle.cell_core.specs.Entry.{key_cmp};
ghost use Rattle.cata_core.specs.Site.{SiteState};
ghost use Rattle.docs_core.specs.ImportingLabels.{Imports};
ghost use Rattle.docs_core.specs.Updating.{Updates};
ghost use Rattle.front_core.specs.inner.Arrivals.{HasMore, KnowsMore};
ghost use Rattle.front_core.specs.Change.{IsChanged};
ghost use Rattle.front_core.specs.OpenSite.{IsJoined};

use crate::change::Change;
use cata_core::{CataFault, Catalogue, Edit, Site};
use cell_core::{Cell, Entry, Join, Key, Label, MessageId};
use docs_core::LangMaps;
use lang_core::Lang;
use std::alloc::Global;

/// More cells than these are not kept: to join them later would cost more than a copy saves.
pub(crate) const MAX_ARRIVALS: u128 = 4096;

/// The cell that a change brought into the site; none where there is no memory for it.
pub(crate) fn of_change(alloc: Global, site: &Site, change: &Change) -> Option<Catalogue>
    ensures { (old : SiteState) (now : ℕ) → IsMap key_cmp old.cells
        → IsChanged now change.now old site.now
        → IfSome result (λ came. IsJoined came old site.now) }
{
    let mut came = Catalogue::new(alloc);
    add_cell(alloc, &mut came, site.catalogue(), &change.id, &change.lang).ok()?;
    Some(came)
}

/// The cells that a merge brought, which are the other's; none where they are too many, or where
/// there is no memory for them.
pub(crate) fn of_merge(alloc: Global, cells: &Catalogue) -> Option<Catalogue>
    ensures { IfSome result (λ came. came ≡ cells.now) }
{
    if cells.len() > MAX_ARRIVALS {
        return None;
    }
    cells.copy(alloc).ok()
}

/// The cells that an import of the labels brought to the old site; none where they are too many, or
/// where there is no memory for them.
pub(crate) fn of_import(
    alloc: Global,
    old: &Site,
    site: &Site,
    maps: &LangMaps,
) -> Option<Catalogue>
    ensures { (now : ℕ) → site.now.name ≡ old.now.name
        → Imports now old.now.name maps.now old.now.cells site.now.cells
        → IfSome result (λ came. IsJoined came old.now site.now) }
{
    let (was, cells) = (old.catalogue(), site.catalogue());
    keys_ascend(old);
    let mut came = Catalogue::new(alloc);
    add_changed(alloc, &mut came, was, cells, maps.labels())?;
    Some(came)
}

/// The cells that an update from the labels before to those after brought to the old site; none
/// where they are too many, or where there is no memory for them.
pub(crate) fn of_update(
    alloc: Global,
    old: &Site,
    site: &Site,
    before: &LangMaps,
    after: &LangMaps,
) -> Option<Catalogue>
    ensures { (now : ℕ) → site.now.name ≡ old.now.name
        → Updates now old.now.name before.now after.now old.now.cells site.now.cells
        → IfSome result (λ came. IsJoined came old.now site.now) }
{
    let (was, cells) = (old.catalogue(), site.catalogue());
    keys_ascend(old);
    let mut came = Catalogue::new(alloc);
    add_changed(alloc, &mut came, was, cells, before.labels())?;
    add_changed(alloc, &mut came, was, cells, after.labels())?;
    Some(came)
}

/// The keys of the site's cells ascend: the contract says so, as that of their length does.
pub(crate) fn keys_ascend(site: &Site)
    ensures { IsMap key_cmp site.now.cells }
{
    let _length = site.catalogue().len();
}

/// Adds of these cells those at the keys of the labels that were others; none where they are too
/// many, or where there is no memory for them.
fn add_changed(
    alloc: Global,
    came: &mut Catalogue,
    was: &Catalogue,
    cells: &Catalogue,
    labels: &[Entry<Label>],
) -> Option<()>
    requires { IsPart came.old cells.now }
    ensures part { IfSome result (λ _. IsPart came.new cells.now) }
    ensures known { IfSome result (λ _.
        KnowsMore (λ q. find key_cmp q labels.now ≢ None) was.now cells.now came.old
        came.new) }
{
    for found in labels {
        if came.len() > MAX_ARRIVALS {
            return None;
        }
        add_if_changed(alloc, came, was, cells, found.id(), found.lang()).ok()?;
    }
    Some(())
}

/// Adds of these cells the one at the key, where it was another.
fn add_if_changed(
    alloc: Global,
    came: &mut Catalogue,
    was: &Catalogue,
    cells: &Catalogue,
    id: &MessageId,
    lang: &Lang,
) -> Result<(), CataFault>
    requires { IsPart came.old cells.now }
    ensures part { OnOk result (IsPart came.new cells.now) }
    ensures known { OnOk result
        (KnowsMore (λ q. q ≡ (id.now, lang.now)) was.now cells.now came.old came.new) }
{
    if are_alike(was.cell(id, lang), cells.cell(id, lang)) {
        return Ok(());
    }
    add_cell(alloc, came, cells, id, lang)
}

/// Whether both are the same cell, or none.
fn are_alike(cell: Option<&Cell>, other: Option<&Cell>) -> bool
    ensures { IsTrue result → option_copied cell.entry ≡ option_copied other.entry }
{
    cell == other
}

/// Adds of these cells the one at the key, where there is one.
fn add_cell(
    alloc: Global,
    came: &mut Catalogue,
    cells: &Catalogue,
    id: &MessageId,
    lang: &Lang,
) -> Result<(), CataFault>
    requires { IsPart came.old cells.now }
    ensures part { OnOk result (IsPart came.new cells.now) }
    ensures more { OnOk result
        (HasMore (λ q. q ≡ (id.now, lang.now)) cells.now came.old came.new) }
{
    let Some(cell) = cells.cell(id, lang) else {
        return Ok(());
    };
    let edit = Edit::new(id.copy(alloc)?, lang.copy(alloc)?, cell.copy(alloc)?);
    came.apply(alloc, &edit)
}
