//! The items of a list with their index, and by which way a range is found among them:
//!
//! - Up to 16 items: each is compared, for a text here, for a tag by `deciding`.
//! - More, read as basic ranges: a text is sought in hash buckets (`hashed_ranges`), or, where a
//!   bucket would have more than 16 items, by bisection in the order of bytes (`index`, which
//!   compares by `ordered_text`). The longest prefix of a tag that is found decides it.
//! - More, read as extended ranges: each is in the bucket of one of its subtags (`buckets`). A tag,
//!   packed into numbers once (`packed_tag`), is compared with those in the buckets of its own.
//!
//! `fingerprint` has the hashes of both kinds of buckets.
ghost use Rattle.std.specs.Prelude.{◌≡◌, IfSome, length};
ghost use Rattle.lang_core.specs.Text.{pieces};
ghost use Rattle.lang_core.specs.Matching.{Basic};
ghost use Rattle.list_core.specs.Deciding.{IsBest, IsAny, Matches, MatchesNamed};
ghost use Rattle.list_core.specs.Index.{IsIndex};
ghost use Rattle.list_core.specs.inner.Index.{IsFirstAlike, MatchFirst};

use crate::deciding::{MostSpecific, best_extended, best_of, better_of};
use crate::hashed_ranges::place_in;
use crate::index::{Index, sought_place};
use crate::item::Item;
use crate::scheme::Scheme;
use lang_core::Tag;
use std::marker::Model;

const HYPHEN: u8 = b'-';

/// The range that matches every tag.
const ANY: &[u8] = b"*";

/// The items of a list, with their index where they are many.
#[derive(Drop)]
pub struct IndexedItems<'a> {
    items: &'a [Item],
    index: Option<&'a Index>,
}

impl<'a> Model for IndexedItems<'a> {
    ghost use Rattle.std.specs.Prelude.{List, IfSome};
    ghost use Rattle.list_core.specs.Item.{Item};
    ghost use Rattle.list_core.specs.Index.{IsIndex};

    ghost Value = { List Item };

    ghost view = { λ i. i.items.now };

    ghost invariant = { λ i. IfSome i.index (λ index. IsIndex i.items.now index.now) };
}

impl<'a> IndexedItems<'a> {
    /// The items with their index.
    pub(crate) fn new(items: &'a [Item], index: Option<&'a Index>) -> IndexedItems<'a>
        requires { IfSome index (λ index. IsIndex items.now index.now) }
        ensures { result ≡ items.now }
    {
        IndexedItems { items, index }
    }

    /// How many items there are.
    pub(crate) fn len(&self) -> usize
        ensures { result ≡ length self.now }
    {
        self.items.len()
    }

    /// The best of the items that match, by the index where there is one for the scheme.
    pub(crate) fn best(&self, scheme: Scheme, tag: &Tag) -> Option<MostSpecific>
        ensures { IsBest (λ _ i. Matches scheme (pieces i.range) (pieces tag.now)) self.now result }
    {
        match (scheme, self.index) {
            (Scheme::Extended, Some(Index::Subtags(buckets))) => {
                best_extended(self.items, buckets, tag)
            }
            (Scheme::Basic, Some(Index::Texts(_) | Index::Ranges(_))) => {
                self.best_basic(tag.as_str().as_bytes())
            }
            _ => best_of(self.items, scheme, tag),
        }
    }

    /// Of the items other than "*" that match under the basic match, the best: their ranges are the
    /// text and its prefixes before hyphens (RFC 4647 section 3.3.1).
    pub fn best_named(&self, text: &[u8]) -> Option<MostSpecific>
        ensures { IsBest (λ _ i. MatchesNamed (pieces text.now) i) self.now result }
    {
        let mut best = None;
        for at in 0..text.len() {
            if text[at] == HYPHEN {
                best = better_of(best, self.best_named_with(&text[..at]));
            }
        }
        better_of(best, self.best_named_with(text))
    }

    /// The best of the items that match under the basic match.
    fn best_basic(&self, text: &[u8]) -> Option<MostSpecific>
        ensures { IsBest (λ _ i. Basic (pieces i.range) (pieces text.now)) self.now result }
    {
        better_of(self.best_named(text), self.best_with(ANY))
    }

    /// The first item whose range is the text, unless that is "*".
    fn best_named_with(&self, text: &[u8]) -> Option<MostSpecific>
        ensures { IsBest (λ _ i. (¬ IsAny i) × (i.range ≡ text.now)) self.now result }
    {
        if text == ANY {
            None
        } else {
            self.best_with(text)
        }
    }

    /// The first item whose range is the text.
    fn best_with(&self, text: &[u8]) -> Option<MostSpecific>
        ensures { IsBest (λ _ i. i.range ≡ text.now) self.now result }
    {
        match self.place_of(text) {
            Some(place) => Some(MostSpecific {
                place,
                specificity: self.items[place].specificity(),
            }),
            None => None,
        }
    }

    /// The place of the first item whose range is that of the item at the place.
    pub(crate) fn first_alike(&self, place: usize) -> Option<usize>
        ensures { IsFirstAlike self.now place result }
    {
        match self.items.get(place) {
            Some(item) => self.place_of(item.range().as_str().as_bytes()),
            None => None,
        }
    }

    /// The place of the first item whose range is the text.
    pub(crate) fn place_of(&self, text: &[u8]) -> Option<usize>
        ensures { MatchFirst self.now text.now result }
    {
        match self.index {
            Some(Index::Texts(buckets)) => place_in(self.items, buckets, text),
            Some(Index::Ranges(places)) => sought_place(self.items, places, text),
            _ => first_place(self.items, text),
        }
    }
}

/// The place of the first item whose range is the text, by a scan of all items.
fn first_place(items: &[Item], text: &[u8]) -> Option<usize>
    ensures { MatchFirst items.now text.now result }
{
    for (place, item) in items.iter().enumerate() {
        if item.is_range(text) {
            return Some(place);
        }
    }
    None
}
