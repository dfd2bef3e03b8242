//! The items of a long list in hash buckets by their ranges' texts, so that a text is compared with
//! few of them.
ghost use Rattle.std.specs.Prelude.{ℕ, ◌≡◌, ◌<◌, ◌↔◌, length, slice_index, IfOk, IfSome, IsTrue};
ghost use Rattle.list_core.specs.inner.Index.{MatchFirst};
ghost use Rattle.list_core.specs.HashedRanges.{AreTextBuckets, bucket_numbers, bucket_of};
ghost use Rattle.list_core.specs.inner.HashedRanges.{IsCrowded};
ghost use Rattle.list_core.specs.declared.hashed_ranges.TheConstants.{MAX_BUCKET_LEN};

use crate::buckets::{Buckets, link_buckets};
use crate::fingerprint::fingerprint_of;
use crate::item::Item;
use std::alloc::{AllocError, Global};

/// The most items of a bucket.
const MAX_BUCKET_LEN: u16 = 16;

/// The items in as many buckets, or none where more than `MAX_BUCKET_LEN` would be in one, as where
/// ranges are equal.
pub(crate) fn text_buckets_of(alloc: Global, items: &[Item]) -> Result<Option<Buckets>, AllocError>
    requires { 0 < length items.now }
    ensures { IfOk result (λ buckets. IfSome buckets (AreTextBuckets items.now)) }
{
    let numbers = bucket_numbers(alloc, items)?;
    if is_crowded(alloc, &numbers)? {
        return Ok(None);
    }
    Ok(Some(link_buckets(alloc, items.len(), &numbers)?))
}

/// The place of the first item whose range is the text, sought in the text's bucket.
pub(crate) fn place_in(items: &[Item], buckets: &Buckets, text: &[u8]) -> Option<usize>
    requires { AreTextBuckets items.now buckets.now }
    ensures { MatchFirst items.now text.now result }
{
    let bucket = bucket_of(text, items.len());
    let mut place = buckets.first[bucket];
    while place < items.len() {
        if items[place].is_range(text) {
            return Some(place);
        }
        place = buckets.next[place];
    }
    None
}

/// The bucket of a text, among so many.
fn bucket_of(text: &[u8], buckets: usize) -> usize
    requires { 0 < buckets }
    ensures bucket { result ≡ bucket_of buckets text.now }
    ensures within { result < buckets }
{
    usize::from(fingerprint_of(text)) % buckets
}

/// The bucket of each item's range.
fn bucket_numbers(alloc: Global, items: &[Item]) -> Result<Vec<usize>, AllocError>
    requires { 0 < length items.now }
    ensures { IfOk result (λ numbers. numbers.items
        ≡ bucket_numbers (length items.now) items.now) }
{
    let mut numbers = Vec::with_capacity(alloc, items.len())?;
    for item in items {
        numbers.push(bucket_of(item.range().as_str().as_bytes(), items.len()))?;
    }
    Ok(numbers)
}

/// Whether some bucket has more than `MAX_BUCKET_LEN` items.
fn is_crowded(alloc: Global, numbers: &[usize]) -> Result<bool, AllocError>
    requires { (k : ℕ) → k < length numbers.now → slice_index numbers.now k < length numbers.now }
    ensures { IfOk result (λ crowded. IsTrue crowded ↔ IsCrowded MAX_BUCKET_LEN numbers.now) }
{
    let mut lengths = Vec::from_elem(alloc, 0u16, numbers.len())?;
    for number in numbers {
        let length = lengths[*number] + 1;
        if length > MAX_BUCKET_LEN {
            return Ok(true);
        }
        lengths[*number] = length;
    }
    Ok(false)
}
