//! The items of a long list in hash buckets by one of their subtags each, so that a tag is compared
//! with few of them. Each subtag of a range but "*" has to be in the tag (RFC 4647 section 3.3.2),
//! so a range in the bucket of one of its subtags does not match where no subtag of the tag has
//! this bucket.
ghost use Rattle.std.specs.Prelude.{ℕ, ◌≡◌, ◌<◌, length, slice_index, IfOk};
ghost use Rattle.lang_core.specs.Text.{pieces};
ghost use Rattle.list_core.specs.Fingerprint.{fingerprint_of};
ghost use Rattle.list_core.specs.Buckets.{subtag_bucket, MayBeIn, AreNumbers, AreLinks};
ghost use Rattle.list_core.specs.Buckets.{AreSubtagBuckets};
ghost use Rattle.list_core.specs.inner.Buckets.{AreBucketsOf};
ghost use Rattle.list_core.specs.declared.buckets.TheConstants.{LAST_BUCKET, BUCKET_COUNT};

use crate::fingerprint::fingerprint_of;
use crate::item::Item;
use arrayvec::ArrayVec;
use lang_core::{Range, Tag};
use std::alloc::{AllocError, Global};

/// How many buckets there are for subtags. The last bucket, after them, is of the ranges that have
/// no subtag other than "*". A field has up to some 10,000 ranges that end alike: with fewer
/// buckets a tag meets several of them in each of its own.
pub(crate) const LAST_BUCKET: usize = 8192;

/// How many buckets there are, the last one included.
const BUCKET_COUNT: usize = LAST_BUCKET + 1;

/// The most subtags of a tag: 128 of one byte take 255 with their hyphens.
const MAX_SUBTAGS: usize = 128;

/// Places in buckets, each in ascending order. What follows the last of a bucket is the number of
/// places.
#[derive(Drop)]
pub(crate) struct Buckets {
    /// The first place of each bucket.
    pub(crate) first: Vec<usize>,
    /// What follows each place in its bucket.
    pub(crate) next: Vec<usize>,
}

/// The items in buckets. Each range goes into the shortest of the buckets of its subtags, so that
/// ranges with one subtag in common are spread over the buckets of their others.
pub(crate) fn subtag_buckets_of(alloc: Global, items: &[Item]) -> Result<Buckets, AllocError>
    ensures { IfOk result (AreSubtagBuckets items.now) }
{
    let numbers = numbers_of(alloc, items)?;
    link_buckets(alloc, BUCKET_COUNT, &numbers)
}

/// The buckets of a tag's subtags, each once.
pub(crate) fn buckets_of_tag(tag: &Tag) -> ArrayVec<u16, MAX_SUBTAGS>
    ensures { AreBucketsOf (pieces tag.now) result.items }
{
    let bytes = tag.as_str().len();
    prove!(bytes <= 255);
    let mut buckets = ArrayVec::new();
    for subtag in tag.subtags() {
        let bucket = subtag_bucket(subtag) as u16;
        if !buckets.contains(&bucket) {
            buckets.push(bucket);
        }
    }
    buckets
}

/// The bucket of a subtag.
fn subtag_bucket(subtag: &str) -> usize
    ensures bucket { result ≡ subtag_bucket subtag.now }
    ensures within { result < LAST_BUCKET }
{
    usize::from(fingerprint_of(subtag.as_bytes())) % LAST_BUCKET
}

/// For each item the number of its bucket.
fn numbers_of(alloc: Global, items: &[Item]) -> Result<Vec<usize>, AllocError>
    ensures { IfOk result (λ numbers. AreNumbers items.now (length items.now) numbers.items) }
{
    let mut lengths = [0u16; BUCKET_COUNT];
    let mut numbers = Vec::with_capacity(alloc, items.len())?;
    for item in items {
        let number = shortest_for(&lengths, item.range());
        lengths[number] = lengths[number].wrapping_add(1);
        numbers.push(number)?;
    }
    Ok(numbers)
}

/// The shortest of the buckets that the range may go into.
fn shortest_for(lengths: &[u16; BUCKET_COUNT], range: &Range) -> usize
    ensures may { MayBeIn (pieces range.now) result }
    ensures within { result < BUCKET_COUNT }
{
    let mut shortest = LAST_BUCKET;
    for subtag in range.subtags() {
        if subtag != "*" {
            let bucket = subtag_bucket(subtag);
            if shortest == LAST_BUCKET || lengths[bucket] < lengths[shortest] {
                shortest = bucket;
            }
        }
    }
    shortest
}

/// So many buckets, of the places that have their numbers.
pub(crate) fn link_buckets(
    alloc: Global,
    buckets: usize,
    numbers: &[usize],
) -> Result<Buckets, AllocError>
    requires { (k : ℕ) → k < length numbers.now → slice_index numbers.now k < buckets }
    ensures { IfOk result (AreLinks buckets numbers.now) }
{
    let end = numbers.len();
    let mut first = Vec::from_elem(alloc, end, buckets)?;
    let mut next = Vec::from_elem(alloc, end, end)?;
    for place in (0..end).rev() {
        let bucket = numbers[place];
        next[place] = first[bucket];
        first[bucket] = place;
    }
    Ok(Buckets { first, next })
}
