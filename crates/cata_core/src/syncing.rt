//! Two sites take each other's cells.

ghost use Rattle.std.specs.Prelude.{◌≡◌, ◌⊎◌, OnOk, OnErr, IfErr};
ghost use Rattle.catalogue.specs.CataFault.{IsRefusal};
ghost use Rattle.catalogue.specs.Entries.{Agree, joined};
ghost use Rattle.cata_core.specs.Site.{SiteState, IsLeftSite};

use crate::site::Site;
use catalogue::CataFault;
use std::alloc::{AllocError, Global};

/// Gives both sites the join of their catalogues, so that both have equal ones.
///
/// Refused, and then both unchanged, by [`CataFault::StampReused`] (13) with the place in the first
/// site. After [`CataFault::NoMemory`] (26) each key of each site has its old cell, or none as
/// before, or that of the join; the second site is unchanged, or the first has the whole join; and
/// a repeat gives the join.
pub fn sync(alloc: Global, first: &mut Site, second: &mut Site) -> Result<(), CataFault>
    ensures first { OnOk result
        (first.new
        ≡ record { name = first.old.name; cells = joined first.old.cells second.old.cells }) }
    ensures second { OnOk result
        (second.new
        ≡ record { name = second.old.name; cells = joined first.old.cells second.old.cells }) }
    ensures agree { OnOk result (Agree first.old.cells second.old.cells) }
    ensures fault { IfErr result (IsRefusal first.old.cells second.old.cells) }
    ensures left_first { IfErr result (IsLeftSite first.old first.new second.old.cells) }
    ensures left_second { IfErr result (IsLeftSite second.old second.new first.old.cells) }
    ensures one_by_one { OnErr result
        ((second.new ≡ second.old) ⊎ (first.new.cells ≡ joined first.old.cells second.old.cells)) }
{
    first.merge_with(alloc, second.catalogue(), second.latest())?;
    // Not tested again: what agrees with both agrees with their join.
    match second.join(alloc, first.catalogue(), first.latest()) {
        Ok(()) => Ok(()),
        Err(AllocError) => Err(CataFault::NoMemory),
    }
}
