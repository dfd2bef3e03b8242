//! Where in the order of lookup an item is first tried that matches a tag, so that widened lookup
//! asks each language once, and not once for each range.
ghost use Rattle.std.specs.Prelude.{◌≡◌, ◌≤◌, IfOk, length};
ghost use Rattle.lang_core.specs.Text.{pieces};
ghost use Rattle.lang_core.specs.Matching.{Basic, Extended};
ghost use Rattle.list_core.specs.Deciding.{Matches};
ghost use Rattle.list_core.specs.FirstTried.{AreFirstTried, IsFirstTried};
ghost use Rattle.list_core.specs.inner.FirstTried.{earlier_of};

use crate::indexed_items::IndexedItems;
use crate::item::{Item, first_byte};
use crate::lookup_order::OrderKey;
use crate::packed_tag::PackedTag;
use crate::scheme::Scheme;
use lang_core::Tag;
use std::alloc::{AllocError, Global};

const HYPHEN: u8 = b'-';

/// The range that matches every tag.
const ANY: &[u8] = b"*";

/// At the place of the first item with a text, where in the order a range of this text is first
/// tried, or the number of keys where none is.
pub(crate) fn first_tried_of(
    alloc: Global,
    items: &IndexedItems,
    keys: &[OrderKey],
) -> Result<Vec<usize>, AllocError>
    ensures { IfOk result (λ firsts. AreFirstTried items.now keys.now firsts.items) }
{
    let mut firsts = Vec::from_elem(alloc, keys.len(), items.len())?;
    for (at, key) in keys.iter().enumerate() {
        match items.first_alike(key.place) {
            Some(place) => {
                if firsts[place] == keys.len() {
                    firsts[place] = at;
                }
            }
            None => {}
        }
    }
    Ok(firsts)
}

/// Where in the order an item is first tried that matches the tag, or the number of keys where none
/// does: the items are compared one by one.
pub(crate) fn first_match(items: &[Item], keys: &[OrderKey], scheme: Scheme, tag: &Tag) -> usize
    ensures { IsFirstTried (λ i. Matches scheme (pieces i.range) (pieces tag.now)) items.now
        keys.now result }
{
    let first = first_byte(tag.as_str());
    for (at, key) in keys.iter().enumerate() {
        match items.get(key.place) {
            Some(item) => {
                if item.matches(scheme, tag, first) {
                    return at;
                }
            }
            None => {}
        }
    }
    keys.len()
}

/// The same under the extended match.
pub(crate) fn first_extended_match(items: &[Item], keys: &[OrderKey], tag: &Tag) -> usize
    ensures { IsFirstTried (λ i. Extended (pieces i.range) (pieces tag.now)) items.now keys.now
        result }
{
    let first = first_byte(tag.as_str());
    let packed = PackedTag::new(tag);
    for (at, key) in keys.iter().enumerate() {
        match items.get(key.place) {
            Some(item) => {
                if item.matches_packed(&packed, first) {
                    return at;
                }
            }
            None => {}
        }
    }
    keys.len()
}

/// The same under the basic match, of items with an index: the ranges that match are the text, its
/// prefixes before hyphens, and "*" (RFC 4647 section 3.3.1).
pub(crate) fn first_basic_match(
    items: &IndexedItems,
    keys: &[OrderKey],
    firsts: &[usize],
    text: &[u8],
) -> usize
    requires { AreFirstTried items.now keys.now firsts.now }
    ensures { IsFirstTried (λ i. Basic (pieces i.range) (pieces text.now)) items.now keys.now
        result }
{
    let mut found = first_with(items, keys, firsts, ANY);
    for at in 0..text.len() {
        if text[at] == HYPHEN {
            found = earlier_of(found, first_with(items, keys, firsts, &text[..at]));
        }
    }
    earlier_of(found, first_with(items, keys, firsts, text))
}

/// Where in the order a range of this text is first tried, or the number of keys.
fn first_with(items: &IndexedItems, keys: &[OrderKey], firsts: &[usize], text: &[u8]) -> usize
    requires { AreFirstTried items.now keys.now firsts.now }
    ensures { IsFirstTried (λ i. i.range ≡ text.now) items.now keys.now result }
{
    match items.place_of(text) {
        Some(place) => firsts[place],
        None => keys.len(),
    }
}

/// The lesser of two places.
fn earlier_of(one: usize, other: usize) -> usize
    ensures { result ≡ earlier_of one other }
{
    if other < one { other } else { one }
}
