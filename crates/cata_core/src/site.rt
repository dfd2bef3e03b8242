//! Sites: catalogues with a name, which make edits, and summaries and deltas for one another.

ghost use Rattle.std.specs.Prelude.{◌≡◌, ◌<◌, ◌^◌, [], ◌∷◌, OnOk, OnErr, IfOk, IfErr, IsOk};
ghost use Rattle.std.specs.Prelude.{MatchOption, MatchResult, Some, None, length};
ghost use Rattle.std.specs.FinMap.Entries.{put};
ghost use Rattle.std.specs.Cmp as laws_of;
ghost use Rattle.cell_core.specs.Stamp.{IsNext, IsAbove};
ghost use Rattle.catalogue.specs.CataFault.{IsRefusal, IsLeft};
ghost use Rattle.cata_core.specs.Delta.{summary_of, delta_of};
ghost use Rattle.cata_core.specs.OwnEdits.{IsFirstLacked, LacksNoEdit};
ghost use Rattle.cell_core.specs.Entry.{key_cmp};
ghost use Rattle.catalogue.specs.Entries.{Agree, joined, Between};
ghost use Rattle.catalogue.specs.CatalogueLatest.{latest_of, IsLatest};
ghost use Rattle.catalogue.specs.CatalogueSettled.{IsSettledIn};
ghost use Rattle.cata_core.specs.Site.{site_eq};
ghost use Rattle.cata_core.specs.inner.Site.{site_equiv};

use crate::delta::{Delta, missing_cells};
use crate::latest::Latest;
use crate::own_edits::first_lacked;
use crate::summary::Summary;
use catalogue::{CataFault, Catalogue, Edit};
use cell_core::{Cell, Label, MessageId, SiteName, Stamp};
use lang_core::Lang;
use std::alloc::{AllocError, Global};
use std::marker::Model;

/// A catalogue with a name, which stamps its own edits and takes those of others.
#[derive(Debug, Drop)]
pub struct Site {
    own_name: SiteName,
    catalogue: Catalogue,
    latest: Latest,
}

impl Model for Site {
    ghost use Rattle.cata_core.specs.LatestKnown.{IsKnownLatest};
    ghost use Rattle.cata_core.specs.Site.{SiteState};

    ghost Value = { SiteState };

    ghost view = { λ s. record { name = s.own_name; cells = s.catalogue } };

    ghost invariant = { λ s. IsKnownLatest s.latest s.catalogue };
}

impl Site {
    ghost use Rattle.cata_core.specs.LatestKnown.{IsKnownLatest};
    ghost use Rattle.cata_core.specs.Site.{SiteState, RefusesEdit, RefusesDelta, IsLeftSite};
    ghost use Rattle.cata_core.specs.Summary.{SummaryState};

    /// The empty site of this name, whose catalogue grows by this allocator.
    pub fn new(alloc: Global, name: SiteName) -> Site
        ensures { result ≡ record { name = name; cells = [] } }
    {
        Site {
            own_name: name,
            catalogue: Catalogue::new(alloc),
            latest: Latest::Known(None),
        }
    }

    /// The site of this name with this catalogue. It does not walk over the cells: that is left to
    /// [`Site::last`] and the first edit.
    pub fn from_catalogue(name: SiteName, catalogue: Catalogue) -> Site
        ensures { result ≡ record { name = name; cells = catalogue } }
    {
        Site {
            own_name: name,
            catalogue,
            latest: Latest::Unknown,
        }
    }

    /// Its name.
    pub fn name(&self) -> SiteName
        ensures { result ≡ self.now.name }
    {
        self.own_name
    }

    /// What is known of its latest stamp, without a walk.
    pub(crate) fn latest(&self) -> Latest
        ensures { IsKnownLatest result self.now.cells }
    {
        self.latest
    }

    /// Its catalogue.
    pub fn catalogue(&self) -> &Catalogue
        ensures { result.now ≡ self.now.cells }
    {
        &self.catalogue
    }

    /// Its catalogue, for which the site is given up.
    pub fn into_catalogue(self) -> Catalogue
        ensures { result ≡ self.cells }
    {
        self.catalogue
    }

    /// An equal site, of the same name: both must not go on editing.
    pub fn copy(&self, alloc: Global) -> Result<Site, AllocError>
        ensures { IfOk result (λ copied. copied ≡ self.now) }
    {
        Ok(Site {
            own_name: self.own_name,
            catalogue: self.catalogue.copy(alloc)?,
            latest: self.latest,
        })
    }

    /// The latest stamp of its cells, deletions among them; none where it has no cell.
    ///
    /// A key keeps its latest stamp, so this is the latest stamp that the site ever took in. It
    /// walks over the cells where the site was made from a catalogue, or a merge was refused, until
    /// the site's next own edit.
    pub fn last(&self) -> Option<Stamp>
        ensures value { result ≡ latest_of self.now.cells }
        ensures latest { IsLatest self.now.cells result }
    {
        self.latest.of(&self.catalogue)
    }

    /// Gives the key this label, and answers the stamp of the edit, which is greater than all
    /// stamps of the site.
    ///
    /// Refused, and then unchanged, by [`CataFault::ClockSpent`] (14) where there is no such stamp
    /// with a time of at least `now`, and by [`CataFault::NoMemory`] (26).
    pub fn put(
        &mut self,
        alloc: Global,
        now: u64,
        id: &MessageId,
        lang: &Lang,
        label: &Label,
    ) -> Result<Stamp, CataFault>
        ensures ok { IfOk result (λ stamp. IsNext (latest_of self.old.cells) now self.old.name stamp
            × (self.new
            ≡ record {
              name = self.old.name;
              cells =
                  put key_cmp (id.now, lang.now) (record { stamp = stamp; label = Some label.now })
                  self.old.cells;
            })) }
        ensures err { IfErr result (RefusesEdit self.old now) }
        ensures left { OnErr result (self.new ≡ self.old) }
    {
        let cell = Cell::new(self.next_stamp(now)?, Some(label.copy(alloc)?));
        let stamp = cell.stamp();
        self.write(alloc, id, lang, cell)?;
        Ok(stamp)
    }

    /// Deletes the label of the key, if there is one, and answers the stamp of the edit. The cell
    /// stays, without a label, so that no older label comes back.
    ///
    /// Refused as [`Site::put`] is.
    pub fn delete(
        &mut self,
        alloc: Global,
        now: u64,
        id: &MessageId,
        lang: &Lang,
    ) -> Result<Stamp, CataFault>
        ensures ok { IfOk result (λ stamp. IsNext (latest_of self.old.cells) now self.old.name stamp
            × (self.new
            ≡ record {
              name = self.old.name;
              cells =
                  put key_cmp (id.now, lang.now) (record { stamp = stamp; label = None })
                  self.old.cells;
            })) }
        ensures err { IfErr result (RefusesEdit self.old now) }
        ensures left { OnErr result (self.new ≡ self.old) }
    {
        let cell = Cell::new(self.next_stamp(now)?, None);
        let stamp = cell.stamp();
        self.write(alloc, id, lang, cell)?;
        Ok(stamp)
    }

    /// Joins the one cell of an edit, whose stamp may name any site. An edit that is not newer than
    /// the stored cell takes no memory.
    ///
    /// Refused, and then unchanged, by [`CataFault::StampReused`] (13) as [`Catalogue::apply`] is,
    /// and by [`CataFault::NoMemory`] (26).
    pub fn apply(&mut self, alloc: Global, edit: &Edit) -> Result<(), CataFault>
        ensures ok { OnOk result
            (self.new
            ≡ record { name = self.old.name; cells = joined self.old.cells (edit.now ∷ []) }) }
        ensures agree { OnOk result (Agree self.old.cells (edit.now ∷ [])) }
        ensures err { OnErr result (self.new ≡ self.old) }
        ensures fault { IfErr result (IsRefusal self.old.cells (edit.now ∷ [])) }
        ensures settled { IsSettledIn self.old.cells edit.now → IsOk result }
    {
        self.catalogue.apply(alloc, edit)?;
        self.latest = self.latest.with(edit.cell().stamp());
        Ok(())
    }

    /// The stamps of its cells, with its name as owner.
    pub fn summary(&self, alloc: Global) -> Result<Summary, AllocError>
        ensures { IfOk result
            (λ summary. summary
            ≡ record { owner = self.now.name; stamps = summary_of self.now.cells }) }
    {
        Summary::of(alloc, self.own_name, &self.catalogue)
    }

    /// The cells whose key the summary lacks or has with an older stamp, for the owner of the
    /// summary.
    pub fn delta_for(&self, alloc: Global, summary: &Summary) -> Result<Delta, AllocError>
        ensures { IfOk result
            (λ delta. delta
            ≡ record {
              addressee = summary.now.owner;
              cells =
                  delta_of self.now.cells summary.now.stamps;
            }) }
    {
        let cells = missing_cells(alloc, &self.catalogue, summary)?;
        Ok(Delta::from_catalogue(summary.owner(), cells))
    }

    /// The first of these rows, counted from 0 in ascending order of key, that is an edit which the
    /// site made and lacks: at its key it has nothing, or a lesser stamp. There are fewer than 2^64
    /// rows ([`Catalogue::len`]).
    ///
    /// A site has what it made, or something later. So such a row shows that the site was put back
    /// to an older copy, or that another site has its name.
    pub fn lacks_own(&self, rows: &Catalogue) -> Option<usize>
        ensures { length rows.now < 2 ^ 64
            → MatchOption result (LacksNoEdit self.now.name self.now.cells rows.now)
            (IsFirstLacked self.now.name self.now.cells rows.now) }
    {
        first_lacked(self.own_name, &self.catalogue, rows)
    }

    /// Joins the cells of a delta for this site.
    ///
    /// Refused, and then unchanged, by [`CataFault::NotForMe`] (15) where the delta is for another
    /// site, then by [`CataFault::StampReused`] (13) as [`Catalogue::merge`] is. After
    /// [`CataFault::NoMemory`] (26) each key has its old cell, or none as before, or that of the
    /// join.
    pub fn take(&mut self, alloc: Global, delta: &Delta) -> Result<(), CataFault>
        ensures ok { OnOk result
            (self.new
            ≡ record { name = self.old.name; cells = joined self.old.cells delta.now.cells }) }
        ensures agree { OnOk result (Agree self.old.cells delta.now.cells) }
        ensures mine { OnOk result (self.old.name ≡ delta.now.addressee) }
        ensures fault { IfErr result (RefusesDelta self.old delta.now) }
        ensures left { IfErr result (IsLeftSite self.old self.new delta.now.cells) }
    {
        let addressee = delta.addressee();
        if self.own_name != addressee {
            return Err(CataFault::NotForMe { addressee });
        }
        self.merge(alloc, delta.cells())
    }

    /// Joins the cells of the catalogue: its own becomes the least upper bound of both.
    ///
    /// Refused, and then unchanged, by [`CataFault::StampReused`] (13) as [`Catalogue::merge`] is.
    /// After [`CataFault::NoMemory`] (26) each key has its old cell, or none as before, or that of
    /// the join, so that a repeat gives the join.
    pub fn merge(&mut self, alloc: Global, other: &Catalogue) -> Result<(), CataFault>
        ensures ok { OnOk result
            (self.new ≡ record { name = self.old.name; cells = joined self.old.cells other.now }) }
        ensures agree { OnOk result (Agree self.old.cells other.now) }
        ensures fault { IfErr result (IsRefusal self.old.cells other.now) }
        ensures left { IfErr result (IsLeftSite self.old self.new other.now) }
    {
        self.merge_with(alloc, other, Latest::Unknown)
    }

    /// Joins the cells of the catalogue, of whose latest stamp this is known.
    pub(crate) fn merge_with(
        &mut self,
        alloc: Global,
        other: &Catalogue,
        latest: Latest,
    ) -> Result<(), CataFault>
        requires { IsKnownLatest latest other.now }
        ensures ok { OnOk result
            (self.new ≡ record { name = self.old.name; cells = joined self.old.cells other.now }) }
        ensures agree { OnOk result (Agree self.old.cells other.now) }
        ensures fault { IfErr result (IsRefusal self.old.cells other.now) }
        ensures left { IfErr result (IsLeftSite self.old self.new other.now) }
    {
        let result = self.catalogue.merge(alloc, other);
        self.latest = if result.is_ok() {
            self.latest.with_cells(other, latest)
        } else {
            // Cells may have come in although memory ran out.
            Latest::Unknown
        };
        result
    }

    /// Joins the cells of the catalogue, which agrees, and of whose latest stamp this is known.
    pub(crate) fn join(
        &mut self,
        alloc: Global,
        other: &Catalogue,
        latest: Latest,
    ) -> Result<(), AllocError>
        requires agree { Agree self.old.cells other.now }
        requires latest { IsKnownLatest latest other.now }
        ensures ok { OnOk result
            (self.new ≡ record { name = self.old.name; cells = joined self.old.cells other.now }) }
        ensures name { self.new.name ≡ self.old.name }
        ensures err { OnErr result (Between self.old.cells self.new.cells other.now) }
    {
        let result = self.catalogue.join(alloc, other);
        self.latest = if result.is_ok() {
            self.latest.with_cells(other, latest)
        } else {
            Latest::Unknown
        };
        result
    }

    /// The least stamp that is greater than all of the site, with a time of at least `now`.
    fn next_stamp(&self, now: u64) -> Result<Stamp, CataFault>
        ensures { MatchResult result (IsNext (latest_of self.now.cells) now self.now.name)
            (λ fault. (fault ≡ CataFault.ClockSpent) × RefusesEdit self.now now fault) }
    {
        match Stamp::next(self.last(), now, self.own_name) {
            Ok(stamp) => Ok(stamp),
            Err(_) => Err(CataFault::ClockSpent),
        }
    }

    /// Gives the key the cell, whose stamp is greater than all of the site.
    fn write(
        &mut self,
        alloc: Global,
        id: &MessageId,
        lang: &Lang,
        cell: Cell,
    ) -> Result<(), CataFault>
        requires { IsAbove (latest_of self.old.cells) cell.stamp }
        ensures ok { OnOk result
            (self.new
            ≡ record {
              name = self.old.name;
              cells =
                  put key_cmp (id.now, lang.now) cell self.old.cells;
            }) }
        ensures err { OnErr result (self.new ≡ self.old) }
        ensures fault { IfErr result (λ fault. fault ≡ CataFault.NoMemory) }
    {
        self.catalogue.join_cell(alloc, id, lang, &cell)?;
        self.latest = Latest::Known(Some(cell.stamp()));
        Ok(())
    }
}

/// The same name, and equal catalogues.
impl PartialEq for Site {
    ghost eq = { site_eq };

    ghost laws = { laws_of.partial_equiv_from_equiv site_equiv };

    fn eq(&self, other: &Site) -> bool {
        self.name() == other.name() && self.catalogue() == other.catalogue()
    }
}

impl Eq for Site {
    ghost laws = { site_equiv };
}
