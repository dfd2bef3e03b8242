//! What a publisher decides for all questions of readers.
ghost use Rattle.std.specs.Prelude.{◌≡◌, MatchResult};
ghost use Rattle.front_core.specs.Offering.{offers_of};
ghost use Rattle.front_c.specs.Rules.{AreRules, RefusesRules, offered_by};

use front_core::Offering;
use nego_core::{Fallbacks, NegoFault, Offer};
use std::alloc::Global;

/// What a publisher decides for all questions of readers, as texts that C keeps. It owns nothing,
/// and any threads may ask by one at once.
#[repr(C)]
#[derive(Clone, Copy)]
pub struct Rules<'a> {
    /// The field of what is offered; without bytes it stands for `*, x;q=0`.
    pub offer: &'a [u8],
    /// The table of fallbacks by which lookups go; without bytes it has no elements.
    pub fallbacks: &'a [u8],
}

impl<'a> Rules<'a> {
    /// The rules of this offer and this table. Refused are the offer first, as [`Offering::read`]
    /// refuses it (8, 9), then the table, as [`Fallbacks::parse`] does (8, 31). Out of memory (26)
    /// may come before.
    pub(crate) fn read(
        alloc: Global,
        offer: &'a [u8],
        fallbacks: &'a [u8],
    ) -> Result<Rules<'a>, NegoFault>
        ensures { MatchResult result (AreRules offer.now fallbacks.now)
            (RefusesRules offer.now fallbacks.now) }
    {
        let rules = Rules { offer, fallbacks };
        rules.offering().read(alloc)?;
        Fallbacks::parse(alloc, fallbacks)?;
        Ok(rules)
    }

    /// What is offered: all languages but those of private use if the field has no bytes, all of
    /// them by `*`, or else the languages of the field.
    pub(crate) fn offering(&self) -> Offering<'a>
        ensures { offers_of result ≡ offered_by self.now }
    {
        if self.offer.is_empty() {
            Offering::Given(Offer::Public)
        } else if self.offer == b"*".as_slice() {
            Offering::Given(Offer::All)
        } else {
            Offering::Field(self.offer)
        }
    }
}
