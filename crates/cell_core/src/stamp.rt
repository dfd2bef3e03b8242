//! Stamps, and the next one of a site.

ghost use Rattle.std.specs.Prelude.{◌≡◌, ◌∷◌, ◌++◌, Some, MatchResult, OnOk, OnErr, IsOk, IfOk};
ghost use Rattle.std.specs.Fmt.{decimal};
ghost use Rattle.cell_core.specs.Stamp.{IsNext, NoNext};
ghost use Rattle.cell_core.specs.Cell.{AgreeStamps, joined_stamps};
ghost use Rattle.cell_core.specs.inner.Cell.{stamp_laws};
ghost use Rattle.cell_core.specs.StampLater.{IsEitherOf};

use crate::fault::CellFault;
use crate::join::Join;
use crate::site_name::SiteName;
use std::alloc::{AllocError, Global};
use std::fmt;

/// When and where an edit was made.
///
/// Stamps are ordered by time, then by the bytes of the site's name, then by count.
#[derive(Clone, Copy, Debug, PartialEq, Eq, PartialOrd, Ord)]
pub struct Stamp {
    /// When: by custom milliseconds since 1970, though any number that grows will do.
    pub time: u64,
    /// The site that made the edit.
    pub site: SiteName,
    /// Counts the edits of one site at one time, from 0.
    pub count: u32,
}

impl Stamp {
    /// The least stamp of the site that is greater than the last one and not before now.
    ///
    /// Used at a site, the last stamp is the greatest that the site has seen.
    /// Refused by [`CellFault::ClockSpent`] (14) where there is no such stamp.
    pub fn next(last: Option<Stamp>, now: u64, site: SiteName) -> Result<Stamp, CellFault>
        ensures { MatchResult result (IsNext last now site)
            (λ fault. (fault ≡ CellFault.ClockSpent) × NoNext last now site) }
    {
        let Some(last) = last else {
            return Ok(Stamp::first_at(now, site));
        };
        if last.time < now {
            return Ok(Stamp::first_at(now, site));
        }
        let order = last.site.cmp(&site);
        if order.is_lt() {
            return Ok(Stamp::first_at(last.time, site));
        }
        if order.is_eq() && last.count < u32::MAX {
            return Ok(Stamp {
                time: last.time,
                site,
                count: last.count + 1,
            });
        }
        if last.time == u64::MAX {
            return Err(CellFault::ClockSpent);
        }
        Ok(Stamp::first_at(last.time + 1, site))
    }

    /// The least stamp of the site at this time.
    fn first_at(time: u64, site: SiteName) -> Stamp
        ensures { result ≡ record { time = time; site = site; count = 0 } }
    {
        Stamp {
            time,
            site,
            count: 0,
        }
    }
}

/// Shows the time, the site's name and the count, with a blank between. What a width or a precision
/// of its place does is not said.
impl fmt::Display for Stamp {
    ghost output = { λ s. Some (decimal s.time ++ 32 ∷ s.site ++ 32 ∷ decimal s.count) };

    fn fmt<W: fmt::Write>(&self, f: &mut fmt::Formatter<W>) -> fmt::Result {
        write!(f, "{} {} {}", self.time, self.site, self.count)
    }
}

/// Any two stamps agree, and their join is the greater. It is never refused.
impl Join for Stamp {
    ghost agree = { AgreeStamps };

    ghost joined = { joined_stamps };

    ghost between = { IsEitherOf joined_stamps };

    ghost laws = { stamp_laws };

    fn agrees(&self, _other: &Stamp) -> bool {
        true
    }

    fn join(&mut self, _alloc: Global, other: &Stamp) -> Result<(), AllocError>
        ensures ok { OnOk result (self.new ≡ joined_stamps self.old other.now) }
        ensures succeeds { IsOk result }
    {
        if (*self).cmp(other).is_lt() {
            *self = *other;
        }
        Ok(())
    }

    fn copy(&self, _alloc: Global) -> Result<Stamp, AllocError>
        ensures { result ≡ Ok self.now }
    {
        Ok(*self)
    }
}
