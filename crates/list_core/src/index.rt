//! The index of a long list: what it is under which scheme (`indexed_items` says what it is for).
ghost use Rattle.std.specs.Prelude.{IfOk, IfSome, ◌≡◌, ◌<◌, length, IsPermutation, IsSorted, map};
ghost use Rattle.list_core.specs.Index.{IsIndex, IsRangeIndex, text_at};
ghost use Rattle.list_core.specs.inner.Index.{MatchFirst, AreRangeKeys, IsPosition, range_key_cmp};
ghost use Rattle.std.specs.Ordering.{is_lt, nat_cmp};
ghost use Rattle.std.specs.Cmp.Lexicographic.{slice_cmp};

use crate::buckets::{Buckets, subtag_buckets_of};
use crate::hashed_ranges::text_buckets_of;
use crate::item::Item;
use crate::ordered_text::OrderedText;
use crate::scheme::Scheme;
use std::alloc::{AllocError, Global};

/// Up to this many items, a scan is faster than the index.
const FEW: usize = 16;

/// An index of many items.
#[derive(Drop)]
pub(crate) enum Index {
    /// For basic ranges: the places of the items in buckets by the hashes of their ranges.
    Texts(Buckets),
    /// For basic ranges of which many have one hash: the places of the items in the order of their
    /// ranges' bytes.
    Ranges(Vec<usize>),
    /// For extended ranges: the places of the items in buckets by one of their subtags each.
    Subtags(Buckets),
}

/// The index of the items, where they are many.
pub(crate) fn index_of(
    alloc: Global,
    scheme: Scheme,
    items: &[Item],
) -> Result<Option<Index>, AllocError>
    ensures { IfOk result (λ index. IfSome index (IsIndex items.now)) }
{
    if items.len() <= FEW {
        return Ok(None);
    }
    match scheme {
        Scheme::Basic => Ok(Some(range_index_of(alloc, items)?)),
        Scheme::Extended => Ok(Some(Index::Subtags(subtag_buckets_of(alloc, items)?))),
    }
}

/// The place of the first item whose range is the text, sought among the places in their order.
pub(crate) fn sought_place(items: &[Item], places: &[usize], text: &[u8]) -> Option<usize>
    requires { IsRangeIndex items.now places.now }
    ensures { MatchFirst items.now text.now result }
{
    let position = position_of(items, places, text);
    if position >= places.len() {
        return None;
    }
    let place = places[position];
    if items[place].is_range(text) {
        Some(place)
    } else {
        None
    }
}

/// The index of basic ranges: in buckets, or sorted where a bucket would be long.
fn range_index_of(alloc: Global, items: &[Item]) -> Result<Index, AllocError>
    requires { 0 < length items.now }
    ensures { IfOk result (IsIndex items.now) }
{
    match text_buckets_of(alloc, items)? {
        Some(buckets) => Ok(Index::Texts(buckets)),
        None => Ok(Index::Ranges(places_of(alloc, items)?)),
    }
}

/// How many of the ranges are below the text.
fn position_of(items: &[Item], places: &[usize], text: &[u8]) -> usize
    requires { IsRangeIndex items.now places.now }
    ensures { IsPosition items.now places.now text.now result }
{
    let mut low = 0;
    let mut high = places.len();
    while low < high {
        let middle = low + (high - low) / 2;
        if is_below(items, places[middle], text) {
            low = middle + 1;
        } else {
            high = middle;
        }
    }
    low
}

/// Whether the range at the place is below the text.
fn is_below(items: &[Item], place: usize, text: &[u8]) -> bool
    requires { place < length items.now }
    ensures { result ≡ is_lt (slice_cmp nat_cmp (text_at items.now place) text.now) }
{
    items[place].range().as_str().as_bytes().cmp(text).is_lt()
}

/// The places of the items in the order of their ranges' bytes.
fn places_of(alloc: Global, items: &[Item]) -> Result<Vec<usize>, AllocError>
    ensures { IfOk result (λ places. IsRangeIndex items.now places.items) }
{
    let mut keys = range_keys_of(alloc, items)?;
    sort_range_keys(&mut keys);
    places_by_key(alloc, &keys)
}

/// Sort key of an index: a range's text and its item's place, compared in this order.
#[derive(PartialEq, Eq, PartialOrd, Ord, Drop)]
struct RangeKey<'a> {
    pub(crate) text: OrderedText<'a>,
    pub(crate) place: usize,
}

/// The keys of the items, as written.
fn range_keys_of(alloc: Global, items: &[Item]) -> Result<Vec<RangeKey<'_>>, AllocError>
    ensures { IfOk result (λ keys. AreRangeKeys items.now (length items.now) keys.items) }
{
    let mut keys = Vec::with_capacity(alloc, items.len())?;
    for (place, item) in items.iter().enumerate() {
        keys.push(RangeKey {
            text: OrderedText::new(item.range().as_str()),
            place,
        })?;
    }
    Ok(keys)
}

/// Puts the keys in the order of their ranges' bytes, then of their places.
fn sort_range_keys(keys: &mut Vec<RangeKey>)
    ensures same { IsPermutation keys.old.items keys.new.items }
    ensures ascending { IsSorted range_key_cmp keys.new.items }
{
    keys.sort_unstable()
}

/// The places that the keys have, in their order.
fn places_by_key(alloc: Global, keys: &[RangeKey]) -> Result<Vec<usize>, AllocError>
    ensures { IfOk result (λ places. places.items ≡ map (λ e. e.place) keys.now) }
{
    keys.iter().map(|key| key.place).collect(alloc)
}
