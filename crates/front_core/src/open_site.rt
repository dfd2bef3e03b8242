//! Sites in memory that are edited and shared.
ghost use Rattle.std.specs.Prelude.{MatchResult};
ghost use Rattle.front_core.specs.OpenSite.{RefusesNewSite};
ghost use Rattle.front_core.specs.inner.OpenSite.{IsName};

use crate::change::Change;
use crate::editing::{check_limit, import_in, join_own_in, make_in, take_in, update_in};
use crate::fault::FrontFault;
use crate::spare::Spare;
use cata_core::Site;
use cell_core::{CellFault, SiteName};
use docs_core::{Checks, read_delta_until, read_langmaps, read_site};
use map_docs::langmaps_of_document;
use std::alloc::{AllocError, Global};
use std::marker::Model;
use std::sync::Arc;

/// A site in memory, which shares may have in common: an edit is made in place where this is the
/// only share of it, and else in another site, so that the other shares keep what they had.
///
/// That other site is a copy, by the first such edit, and at each [`OpenSite::import`] or
/// [`OpenSite::update`] that finds no spare. What the site was before becomes a spare then, beside
/// the cells that later edits bring: the next such edit joins these and is made there, in the time
/// of what was changed, where all other shares of the state before are gone, and few cells were
/// brought since. A spare takes the memory of one more site. A site that is never shared and never
/// imported into has none.
#[derive(Drop)]
pub struct OpenSite {
    share: Arc<Site>,
    spare: Option<Spare>,
}

impl Model for OpenSite {
    ghost use Rattle.cata_core.specs.Site.{SiteState};
    ghost use Rattle.front_core.specs.Spare.{IsSpareOf};

    ghost Value = { SiteState };

    ghost view = { λ s. s.share.value };

    ghost invariant = { λ s. IsSpareOf s.share.value s.spare };
}

impl OpenSite {
    ghost use Rattle.std.specs.Prelude.{◌≡◌, ◌≢◌, IfErr, IfOk, MatchResult, OnErr, OnOk};
    ghost use Rattle.site_docs.specs.Reading.{ReadsAsSite};
    ghost use Rattle.front_core.specs.Ask.{RefusesDocument};
    ghost use Rattle.front_core.specs.OpenSite.{IsDeleted, IsMerged, IsPutInto, IsTaken};
    ghost use Rattle.front_core.specs.OpenSite.{LeavesMerge, LeavesTake, OrNoMemory, RefusesDelete};
    ghost use Rattle.front_core.specs.OpenSite.{RefusesMerge, RefusesPutInto, RefusesTake};
    ghost use Rattle.front_core.specs.OpenSite.{IsNewSite, RefusesNewSite, AreUpdated, IsImported};
    ghost use Rattle.front_core.specs.OpenSite.{RefusesImport, RefusesUpdates};
    ghost use Rattle.front_core.specs.declared.fault.FrontFault.TheVariants.{NoMemory};

    /// The site of a document of version 1 or 2. Refused as [`read_site`] refuses it, by document
    /// 1, or since memory ran out (26).
    pub fn read(alloc: Global, text: &[u8]) -> Result<OpenSite, FrontFault>
        ensures { MatchResult result (ReadsAsSite text.now) (RefusesDocument text.now) }
    {
        let site = read_site(alloc, text)?;
        OpenSite::of(alloc, site)
    }

    /// The empty site of this name. Bytes that are no site name are refused (27).
    pub fn new(alloc: Global, name: &[u8]) -> Result<OpenSite, FrontFault>
        ensures { MatchResult result (IsNewSite name.now) (OrNoMemory (RefusesNewSite name.now)) }
    {
        let name = read_name(name)?;
        OpenSite::of(alloc, Site::new(alloc, name))
    }

    /// One more share of the same site. Its one refusal is out of memory (26).
    pub fn share(&self) -> Result<OpenSite, AllocError>
        ensures { IfOk result (λ shared. shared ≡ self.now) }
    {
        Ok(OpenSite {
            share: self.share.clone()?,
            spare: None,
        })
    }

    /// The site.
    pub fn site(&self) -> &Site
        ensures { result.now ≡ self.now }
    {
        &self.share
    }

    /// Puts a label of one text at the time `now`: [`Change::put`], [`Change::make`].
    ///
    /// Refused, and then the site is unchanged, are the id first (10), then the language (1 to 4),
    /// then the text (18, 11); then an edit for which there is no next stamp (14). Out of memory
    /// (26) may come before a later refusal.
    pub fn put(
        &mut self,
        alloc: Global,
        now: u64,
        id: &[u8],
        lang: &[u8],
        text: &[u8],
    ) -> Result<(), FrontFault>
        ensures ok { OnOk result (IsPutInto now id.now lang.now text.now self.old self.new) }
        ensures err { IfErr result
            (OrNoMemory (RefusesPutInto now id.now lang.now text.now self.old)) }
        ensures left { OnErr result (self.new ≡ self.old) }
    {
        let change = Change::put(alloc, id, lang, text)?;
        make_in(alloc, &mut self.share, &mut self.spare, now, &change)
    }

    /// Deletes a label at the time `now`: [`Change::delete`], [`Change::make`].
    ///
    /// Refused, and then the site is unchanged, as [`OpenSite::put`] is, without the text.
    pub fn delete(
        &mut self,
        alloc: Global,
        now: u64,
        id: &[u8],
        lang: &[u8],
    ) -> Result<(), FrontFault>
        ensures ok { OnOk result (IsDeleted now id.now lang.now self.old self.new) }
        ensures err { IfErr result (OrNoMemory (RefusesDelete now id.now lang.now self.old)) }
        ensures left { OnErr result (self.new ≡ self.old) }
    {
        let change = Change::delete(alloc, id, lang)?;
        make_in(alloc, &mut self.share, &mut self.spare, now, &change)
    }

    /// Joins the cells of another site, if they pass the checks: [`Site::merge`].
    ///
    /// Refused, and then the site is unchanged, are a time after the limit (29), then an edit of
    /// this site that it lacks (30), then one stamp with two labels (13). The first two name the
    /// row, by its place in the other site, and document 1. After 26 each key has its old cell, or
    /// none as before, or that of the join, so that a repeat gives the join.
    pub fn merge(&mut self, alloc: Global, other: &Site, checks: Checks) -> Result<(), FrontFault>
        ensures ok { OnOk result (IsMerged other.now checks self.old self.new) }
        ensures err { IfErr result (OrNoMemory (RefusesMerge other.now checks self.old)) }
        // Two clauses: by one of them, by cases of the fault, callers' proofs are not found.
        ensures left { OnErr result (LeavesMerge other.now checks self.old self.new) }
        ensures kept { IfErr result (λ fault. fault ≢ NoMemory → self.new ≡ self.old) }
    {
        let cells = other.catalogue();
        match check_limit(cells, checks.not_after) {
            Ok(()) => join_own_in(
                alloc,
                &mut self.share,
                &mut self.spare,
                cells,
                checks.own_edits,
            ),
            Err(fault) => Err(fault),
        }
    }

    /// Joins the cells of a delta for this site, if they pass the checks, as its document has them:
    /// [`Site::take`].
    ///
    /// Refused, and then the site is unchanged, are the delta as [`read_delta_until`] refuses it
    /// (29 with the first row whose time is after the limit), then one for another site (15), then
    /// an edit of this site that it lacks (30 with its row), then one stamp with two labels (13).
    /// The delta is document 1. After 26 each key has its old cell, or none as before, or that of
    /// the join, so that a repeat gives the join.
    pub fn take(&mut self, alloc: Global, delta: &[u8], checks: Checks) -> Result<(), FrontFault>
        ensures ok { OnOk result (IsTaken delta.now checks self.old self.new) }
        ensures err { IfErr result (OrNoMemory (RefusesTake delta.now checks self.old)) }
        ensures left { OnErr result (LeavesTake delta.now checks self.old self.new) }
        ensures kept { IfErr result (λ fault. fault ≢ NoMemory → self.new ≡ self.old) }
    {
        let delta = read_delta_until(alloc, delta, checks.not_after)?;
        take_in(
            alloc,
            &mut self.share,
            &mut self.spare,
            &delta,
            checks.own_edits,
        )
    }

    /// Puts each label of the language maps at the time `now`, in ascending order of id and
    /// language, all or none. A label that the site has already is put again.
    ///
    /// Refused, and then the site is unchanged, are the maps as [`read_langmaps`] refuses them, by
    /// document 1, then a label for which there is no next stamp (14), and by 26.
    pub fn import(&mut self, alloc: Global, now: u64, maps: &[u8]) -> Result<(), FrontFault>
        ensures ok { OnOk result (IsImported now maps.now self.old self.new) }
        ensures err { IfErr result (OrNoMemory (RefusesImport now maps.now self.old)) }
        ensures left { OnErr result (self.new ≡ self.old) }
    {
        let maps = read_langmaps(alloc, maps)?;
        import_in(alloc, &mut self.share, &mut self.spare, now, &maps)
    }

    /// Makes the changes from the old language maps to the new ones at the time `now`, as the
    /// command `update` does, all or none.
    ///
    /// Refused, and then the site is unchanged, are the old maps, by document 1, then the new ones,
    /// by document 2, as [`read_langmaps`] refuses each, then a change for which there is no next
    /// stamp (14). Out of memory (26) may come before a later refusal.
    pub fn update(
        &mut self,
        alloc: Global,
        now: u64,
        old: &[u8],
        new: &[u8],
    ) -> Result<(), FrontFault>
        ensures ok { OnOk result (AreUpdated now old.now new.now self.old self.new) }
        ensures err { IfErr result (OrNoMemory (RefusesUpdates now old.now new.now self.old)) }
        ensures left { OnErr result (self.new ≡ self.old) }
    {
        let before = langmaps_of_document(alloc, 1, old)?;
        let after = langmaps_of_document(alloc, 2, new)?;
        update_in(
            alloc,
            &mut self.share,
            &mut self.spare,
            now,
            &before,
            &after,
        )
    }

    /// The only share of a site. Its one refusal is out of memory (26).
    fn of(alloc: Global, site: Site) -> Result<OpenSite, FrontFault>
        ensures { MatchResult result (λ made. made ≡ site) (λ fault. fault ≡ NoMemory) }
    {
        Ok(OpenSite {
            share: Arc::new(alloc, site)?,
            spare: None,
        })
    }
}

/// The site's name of these bytes.
fn read_name(name: &[u8]) -> Result<SiteName, FrontFault>
    ensures { MatchResult result (IsName name.now) (RefusesNewSite name.now) }
{
    match std::str::from_utf8(name) {
        Ok(text) => Ok(SiteName::new(text)?),
        Err(_) => Err(FrontFault::Cell(CellFault::SiteName)),
    }
}
