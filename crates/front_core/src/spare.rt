//! A site as it was before its last edits, by which an edit of a shared site costs what it changes.
ghost use Rattle.std.specs.Prelude.{◌≡◌, IfErr, IfOk, IfSome, OnErr};
ghost use Rattle.cell_core.specs.Keyed.{IsMap};
ghost use Rattle.cell_core.specs.Entry.{key_cmp};
ghost use Rattle.cata_core.specs.Site.{SiteState};
ghost use Rattle.front_core.specs.OpenSite.{IsJoined};
ghost use Rattle.front_core.specs.Spare.{IsSpareOf};
ghost use Rattle.front_core.specs.declared.fault.FrontFault.TheVariants.{NoMemory};

use crate::arrivals::{MAX_ARRIVALS, keys_ascend};
use crate::fault::FrontFault;
use cata_core::{Catalogue, Site};
use std::alloc::{AllocError, Global};
use std::mem;
use std::sync::Arc;

/// The state of a site before its last edits, and the cells that these brought. Once no other share
/// holds it, it is joined with these cells, and edited in place of a copy.
#[derive(Drop)]
pub(crate) struct Spare {
    share: Arc<Site>,
    missed: Catalogue,
}

/// An equal site that no share holds: the spare, joined with what it missed, where that can be had,
/// and else a copy.
pub(crate) fn equal_site(
    alloc: Global,
    site: &Site,
    spare: Option<Spare>,
) -> Result<Site, AllocError>
    requires { IsSpareOf site.now spare }
    ensures equal { IfOk result (λ equal. equal ≡ site.now) }
    ensures map { IsMap key_cmp site.now.cells }
{
    keys_ascend(site);
    match joined_spare(alloc, spare) {
        Some(equal) => Ok(equal),
        None => site.copy(alloc),
    }
}

/// Makes the share one of the edited site. What it was becomes the spare, which misses the cells
/// of the edit; where these are not there it is dropped.
pub(crate) fn exchange(
    alloc: Global,
    share: &mut Arc<Site>,
    edited: Site,
    came: Option<Catalogue>,
) -> Result<Option<Spare>, FrontFault>
    requires { IfSome came (λ cells. IsJoined cells share.old.value edited) }
    ensures share { IfOk result (λ _. share.new.value ≡ edited) }
    ensures spare { IfOk result (IsSpareOf edited) }
    ensures err { IfErr result (λ fault. fault ≡ NoMemory) }
    ensures left { OnErr result (share.new.value ≡ share.old.value) }
{
    let made = Arc::new(alloc, edited)?;
    let before = mem::replace(share, made);
    match came {
        Some(missed) => Ok(Some(Spare {
            share: before,
            missed,
        })),
        None => Ok(None),
    }
}

/// The equal site as the spare, which misses nothing; none where there is no memory for it.
pub(crate) fn as_spare(alloc: Global, site: Site) -> Option<Spare>
    ensures { IsSpareOf site result }
{
    keys_ascend(&site);
    let share = Arc::new(alloc, site).ok()?;
    let missed = Catalogue::new(alloc);
    Some(Spare { share, missed })
}

/// The spare after cells were joined to the site: it misses them too. Where they are too many, or
/// there is no memory for them, it is dropped.
pub(crate) fn missing_more(alloc: Global, spare: Option<Spare>, came: &Catalogue) -> Option<Spare>
    ensures { (old new : SiteState) → IsSpareOf old spare → IsJoined came.now old new
        → IsSpareOf new result }
{
    let Spare { share, mut missed } = spare?;
    if missed.len() > MAX_ARRIVALS || came.len() > MAX_ARRIVALS {
        return None;
    }
    missed.merge(alloc, came).ok()?;
    Some(Spare { share, missed })
}

/// The spare, joined with what it missed, where there is one that no other share holds, and memory.
fn joined_spare(alloc: Global, spare: Option<Spare>) -> Option<Site>
    ensures { (site : SiteState) → IsSpareOf site spare → IfSome result (λ equal. equal ≡ site) }
{
    let Spare { share, missed } = spare?;
    let mut site = Arc::try_unwrap(share).ok()?;
    site.merge(alloc, &missed).ok()?;
    Some(site)
}
