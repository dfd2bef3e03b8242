//! The item that decides a tag: of those whose ranges match, the most specific one, and the first
//! written among equals.
ghost use Rattle.std.specs.Prelude.{ℕ, ◌≡◌, ◌<◌, List};
ghost use Rattle.lang_core.specs.Text.{pieces};
ghost use Rattle.lang_core.specs.Matching.{Extended};
ghost use Rattle.list_core.specs.Deciding.{IsBest, Matches};
ghost use Rattle.list_core.specs.inner.Deciding.{better_of, is_above, is_worse};
ghost use Rattle.list_core.specs.Buckets.{AreSubtagBuckets, AreLinked};
ghost use Rattle.list_core.specs.inner.Buckets.{IsIn};
ghost use Rattle.list_core.specs.declared.buckets.TheConstants.{BUCKET_COUNT};

use crate::buckets::{Buckets, LAST_BUCKET, buckets_of_tag};
use crate::item::{Item, first_byte};
use crate::packed_tag::PackedTag;
use crate::scheme::Scheme;
use lang_core::Tag;

/// The item that decides a tag or a language.
#[derive(Clone, Copy)]
pub struct Decision {
    /// The place of the item, from 0.
    pub place: usize,
    /// Its weight in thousandths, 0 included.
    pub weight: u16,
}

/// The best of some items: the most specific, and the first written among equals.
#[derive(Clone, Copy)]
pub struct MostSpecific {
    /// The place of the item, from 0.
    pub place: usize,
    /// The number of the range's subtags other than "*".
    pub specificity: usize,
}

/// The best of the items that match.
pub(crate) fn best_of(items: &[Item], scheme: Scheme, tag: &Tag) -> Option<MostSpecific>
    ensures { IsBest (λ _ i. Matches scheme (pieces i.range) (pieces tag.now)) items.now result }
{
    let first = first_byte(tag.as_str());
    let mut best = None;
    for (place, item) in items.iter().enumerate() {
        let specificity = item.specificity();
        if is_above(best, specificity) && item.matches(scheme, tag, first) {
            best = Some(MostSpecific { place, specificity });
        }
    }
    best
}

/// The best of the items that match under the extended match. It searches the last bucket, and each
/// bucket of the tag's subtags once.
pub(crate) fn best_extended(items: &[Item], buckets: &Buckets, tag: &Tag) -> Option<MostSpecific>
    requires { AreSubtagBuckets items.now buckets.now }
    ensures { IsBest (λ _ i. Extended (pieces i.range) (pieces tag.now)) items.now result }
{
    let packed = PackedTag::new(tag);
    let mut best = best_in(items, buckets, LAST_BUCKET, &packed);
    let asked = buckets_of_tag(tag);
    for bucket in asked.as_slice() {
        best = better_of(best, best_in(items, buckets, usize::from(*bucket), &packed));
    }
    best
}

/// The better of the two, where there are two.
pub(crate) fn better_of(
    best: Option<MostSpecific>,
    other: Option<MostSpecific>,
) -> Option<MostSpecific>
    ensures { result ≡ better_of best other }
{
    match (best, other) {
        (None, other) => other,
        (Some(best), None) => Some(best),
        (Some(best), Some(other)) => {
            if is_worse(best, other) {
                Some(other)
            } else {
                Some(best)
            }
        }
    }
}

/// The best of the items of one bucket that match under the extended match.
fn best_in(
    items: &[Item],
    buckets: &Buckets,
    bucket: usize,
    tag: &PackedTag,
) -> Option<MostSpecific>
    requires linked { AreSubtagBuckets items.now buckets.now }
    requires within { bucket < BUCKET_COUNT }
    ensures { (numbers : List ℕ) → AreLinked items.now numbers buckets.now
        → IsBest (λ k i. IsIn numbers bucket k × Extended (pieces i.range) (pieces tag.now))
        items.now result }
{
    let mut best = None;
    let mut place = buckets.first[bucket];
    while place < items.len() {
        let item = &items[place];
        let specificity = item.specificity();
        if is_above(best, specificity) && tag.is_matched_by(item.range()) {
            best = Some(MostSpecific { place, specificity });
        }
        place = buckets.next[place];
    }
    best
}

/// Whether `specificity` exceeds the best specificity so far.
fn is_above(best: Option<MostSpecific>, specificity: usize) -> bool
    ensures { result ≡ is_above best specificity }
{
    match best {
        Some(best) => best.specificity < specificity,
        None => true,
    }
}

/// Whether the other is more specific, or as specific and written before.
fn is_worse(best: MostSpecific, other: MostSpecific) -> bool
    ensures { result ≡ is_worse best other }
{
    best.specificity < other.specificity
        || (best.specificity == other.specificity && other.place < best.place)
}
