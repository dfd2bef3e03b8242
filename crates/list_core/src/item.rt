//! An item of a priority list: a range with its weight.
ghost use Rattle.std.specs.Prelude.{◌≡◌, ◌≤◌, ◌↔◌, IsTrue, None, Some, map};
ghost use Rattle.std.specs.Prelude.{string_bytes};
ghost use Rattle.std.specs.Str.{bytes_eq};
ghost use Rattle.list_core.specs.Deciding.{Matches};
ghost use Rattle.lang_core.specs.Text.{pieces};
ghost use Rattle.lang_core.specs.Matching.{Extended, specificity};
ghost use Rattle.std.specs.Cmp as laws_of;
ghost use Rattle.list_core.specs.Candidates.{candidates_left, candidates_of};
ghost use Rattle.list_core.specs.Item.{first_byte, item_eq};
ghost use Rattle.list_core.specs.inner.Item.{item_equiv};

use crate::candidates::Candidates;
use crate::packed_tag::PackedTag;
use crate::scheme::Scheme;
use lang_core::{Range, Tag};
use std::fmt;
use std::marker::Model;

/// A range of a priority list with its weight.
#[derive(Drop)]
pub struct Item {
    range: Range,
    weight: u16,
    /// The number of the range's subtags other than "*".
    specificity: usize,
    /// The first byte of the range.
    first: u8,
    /// What lookup tries in place of the range and its truncations, if there is a table of
    /// fallbacks.
    listed: Option<Vec<String>>,
}

impl Model for Item {
    ghost use Rattle.std.specs.Prelude.{◌≡◌, ◌≤◌, map, option_map, string_bytes};
    ghost use Rattle.lang_core.specs.Text.{pieces};
    ghost use Rattle.lang_core.specs.Matching.{specificity as specificity_of};
    ghost use Rattle.list_core.specs.Item.{Item, first_byte};

    ghost Value = { Item };

    ghost view = { λ i. record {
      range = i.range;
      weight = i.weight;
      listed = option_map (λ texts. map string_bytes texts.items) i.listed;
    } };

    ghost invariant = { λ i. (i.weight ≤ 1000) × (i.specificity ≡ specificity_of (pieces i.range))
        × (i.first ≡ first_byte (pieces i.range)) };
}

impl Item {
    /// The item of this range and this weight in thousandths.
    pub(crate) fn new(range: Range, weight: u16) -> Item
        requires { weight ≤ 1000 }
        ensures range { result.range ≡ range }
        ensures weight { result.weight ≡ weight }
        ensures listed { result.listed ≡ None }
    {
        let first = first_byte(range.as_str());
        let specificity = range.specificity();
        Item {
            range,
            weight,
            specificity,
            first,
            listed: None,
        }
    }

    /// The item for which lookup tries these texts, in this order.
    pub(crate) fn with_listed(self, texts: Vec<String>) -> Item
        ensures { result ≡ record self { listed = Some (map string_bytes texts.items) } }
    {
        let Item {
            range,
            weight,
            specificity,
            first,
            listed: _,
        } = self;
        Item {
            range,
            weight,
            specificity,
            first,
            listed: Some(texts),
        }
    }

    /// The range, as it was written but in lower case.
    pub fn range(&self) -> &Range
        ensures { result.now ≡ self.now.range }
    {
        &self.range
    }

    /// The weight in thousandths, from 0 (not acceptable) to 1000 (RFC 9110 section 12.4.2).
    pub fn weight(&self) -> u16
        ensures value { result ≡ self.now.weight }
        ensures small { result ≤ 1000 }
    {
        self.weight
    }

    /// The texts that lookup tries for the item, in order: those of a table of fallbacks, or else
    /// the lookup text of the range and its truncations (RFC 4647 section 3.4).
    pub fn candidates(&self) -> Candidates<'_>
        ensures { candidates_left result ≡ candidates_of self.now }
    {
        match &self.listed {
            Some(texts) => Candidates::Listed(texts.as_slice()),
            None => Candidates::Truncated(self.range.truncations()),
        }
    }

    /// Whether the range has this text.
    pub(crate) fn is_range(&self, text: &[u8]) -> bool
        ensures { result ≡ bytes_eq self.now.range text.now }
    {
        self.range.as_str().as_bytes() == text
    }

    /// Whether the range matches the tag, whose first byte is known.
    pub(crate) fn matches(&self, scheme: Scheme, tag: &Tag, first: u8) -> bool
        requires { first ≡ first_byte (pieces tag.now) }
        ensures { IsTrue result ↔ Matches scheme (pieces self.now.range) (pieces tag.now) }
    {
        if self.first != first && self.first != b'*' {
            return false;
        }
        match scheme {
            Scheme::Basic => self.range.matches_basic(tag),
            Scheme::Extended => self.range.matches_extended(tag),
        }
    }

    /// Whether the range matches the tag, whose first byte is known, by the extended match.
    pub(crate) fn matches_packed(&self, tag: &PackedTag, first: u8) -> bool
        requires { first ≡ first_byte (pieces tag.now) }
        ensures { IsTrue result ↔ Extended (pieces self.now.range) (pieces tag.now) }
    {
        if self.first != first && self.first != b'*' {
            return false;
        }
        tag.is_matched_by(&self.range)
    }

    /// The number of the range's subtags other than "*".
    pub(crate) fn specificity(&self) -> usize
        ensures { result ≡ specificity (pieces self.now.range) }
    {
        self.specificity
    }
}

/// Items are equal if their ranges and their weights are, and if lookup tries the same texts.
impl PartialEq for Item {
    ghost eq = { item_eq };

    ghost laws = { laws_of.partial_equiv_from_equiv item_equiv };

    fn eq(&self, other: &Item) -> bool {
        self.range.as_str() == other.range.as_str()
            && self.weight == other.weight
            && self.listed == other.listed
    }
}

impl Eq for Item {
    ghost laws = { item_equiv };
}

impl fmt::Debug for Item {
    /// Shows the range's text and the weight.
    fn fmt<W: fmt::Write>(&self, f: &mut fmt::Formatter<W>) -> fmt::Result {
        f.debug_struct("Item")
            .field("range", &self.range.as_str())
            .field("weight", &self.weight)
            .finish()
    }
}

/// The first byte of a text's first subtag, or 0 where that is empty.
pub(crate) fn first_byte(text: &str) -> u8
    ensures { result ≡ first_byte (pieces text.now) }
{
    match text.as_bytes() {
        [first, ..] if *first != b'-' => *first,
        _ => 0,
    }
}
