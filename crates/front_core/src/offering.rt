//! What readers are offered of a site, as a question gets it.
ghost use Rattle.std.specs.Prelude.{◌≡◌, ◌↔◌, All, IsTrue, MatchResult, None};
ghost use Rattle.nego_core.specs.Offer.{public_items};
ghost use Rattle.front_core.specs.Offering.{IsOffer, RefusesOffer, offers_of};

use nego_core::{Item, NegoFault, Offer, PriorityList};
use std::alloc::Global;
use std::marker::Model;

/// What a question gets as its offer.
#[derive(Clone, Copy)]
pub enum Offering<'o> {
    /// An offer that was read before.
    Given(Offer<'o>),
    /// That of the list of a field, which is read with the question as an Accept-Language field is
    /// (RFC 9110, section 12.5.4). A malformed element refuses it.
    Field(&'o [u8]),
}

impl<'o> Offering<'o> {
    /// Reads the offer. Refused is a field as [`PriorityList::from_accept`] refuses it: 8, 9, 26.
    pub fn read(self, alloc: Global) -> Result<Offered<'o>, NegoFault>
        ensures { MatchResult result (IsOffer (offers_of self.entry))
            (RefusesOffer (offers_of self.entry)) }
    {
        match self {
            Offering::Given(offer) => Ok(Offered(Held::Given(offer))),
            Offering::Field(text) => {
                let list = PriorityList::from_accept(alloc, text)?;
                if is_public(&list) {
                    return Ok(Offered(Held::Given(Offer::Public)));
                }
                Ok(Offered(Held::Read(list)))
            }
        }
    }
}

/// The offer of a question, borrowed or its own.
#[derive(Drop)]
pub struct Offered<'o>(Held<'o>);

#[derive(Drop)]
enum Held<'o> {
    /// The offer that the question got.
    Given(Offer<'o>),
    /// The list that was read.
    Read(PriorityList),
}

impl<'o> Model for Offered<'o> {
    ghost use Rattle.std.specs.Prelude.{List};
    ghost use Rattle.list_core.specs.Item.{Item};
    ghost use Rattle.front_core.specs.OfferingItems.{held_items};

    ghost Value = { List Item };

    ghost view = { λ offered. held_items offered.0 };
}

impl Offered<'_> {
    ghost use Rattle.std.specs.Prelude.{◌≡◌};
    ghost use Rattle.nego_core.specs.Offer.{items_of};

    /// The offer, borrowed.
    pub fn offer(&self) -> Offer<'_>
        ensures { items_of result ≡ self.now }
    {
        match &self.0 {
            Held::Given(offer) => *offer,
            Held::Read(list) => Offer::Listed(list),
        }
    }
}

/// Whether the list is that of the field `*, x;q=0`, which is faster without a list.
fn is_public(list: &PriorityList) -> bool
    ensures { IsTrue result → All (λ i. i.listed ≡ None) list.now → list.now ≡ public_items }
{
    match list.items() {
        [all, private] => is_item(all, "*", 1000) && is_item(private, "x", 0),
        _ => false,
    }
}

/// Whether the item is this range with this weight.
fn is_item(item: &Item, range: &str, weight: u16) -> bool
    ensures { IsTrue result ↔ ((item.now.range ≡ range.now) × (item.now.weight ≡ weight)) }
{
    item.range().as_str() == range && item.weight() == weight
}
