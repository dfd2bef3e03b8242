//! New entries moved to their places among the entries that are there.

ghost use Rattle.std.specs.Prelude.{◌≡◌, ◌+◌, ◌≤◌, ◌++◌, OnOk, OnErr};
ghost use Rattle.std.specs.FinMap.Entries.{find};
ghost use Rattle.std.specs.Vec.Iter.{into_iter_items, into_iter_len};
ghost use Rattle.std.specs.Vec.{vec_len, vec_capacity};
ghost use Rattle.cell_core.specs.Keyed.{IsMap, AgreeIfBoth, BetweenAtKeys, IsJoinedWith};
ghost use Rattle.cell_core.specs.inner.InterleaveMissing.{pairs_of, AllGaps, AllFrom, or_other};

use crate::join::Join;
use crate::key::Key;
use crate::pairs::join_common;
use std::alloc::{AllocError, Global};
use std::vec::IntoIter;

/// Joins a run of entries to the pairs, and adds those that are new to the count.
pub(crate) fn join_pairs<K: Key, J: Join>(
    pairs: &mut Vec<(K, J)>,
    alloc: Global,
    run: &[(K, J)],
    count: &mut usize,
) -> Result<(), AllocError>
    requires pairs { IsMap K.cmp pairs.old.items }
    requires run { IsMap K.cmp run.now }
    requires agree { (q : K)
        → AgreeIfBoth J.agree (find K.cmp q pairs.old.items) (find K.cmp q run.now) }
    ensures grows { vec_len pairs.old ≤ vec_len pairs.new }
    ensures count { count.new + vec_len pairs.old ≡ count.old + vec_len pairs.new }
    ensures ok { OnOk result (IsJoinedWith K.cmp J.joined pairs.old.items run.now pairs.new.items) }
    ensures err { OnErr result
        (BetweenAtKeys K.cmp J.between pairs.old.items pairs.new.items run.now) }
{
    let missing = join_common(pairs, alloc, run)?;
    let Some(total) = count.checked_add(missing.len()) else {
        return Err(AllocError);
    };
    add_missing(pairs, missing)?;
    *count = total;
    Ok(())
}

/// Moves new pairs to their places among the pairs that are there.
fn add_missing<K: Key, J: Drop>(
    pairs: &mut Vec<(K, J)>,
    missing: Vec<(usize, (K, J))>,
) -> Result<(), AllocError>
    requires map { IsMap K.cmp pairs.old.items }
    requires sorted { IsMap K.cmp (pairs_of missing.items) }
    requires gaps { AllGaps K.cmp pairs.old.items 0 missing.items }
    ensures map { IsMap K.cmp pairs.new.items }
    ensures len { OnOk result (vec_len pairs.new ≡ vec_len pairs.old + vec_len missing) }
    ensures ok { OnOk result ((q : K) → find K.cmp q pairs.new.items
        ≡ or_other (find K.cmp q pairs.old.items) (find K.cmp q (pairs_of missing.items))) }
    ensures err { OnErr result (pairs.new.items ≡ pairs.old.items) }
{
    let Some(first) = missing.first() else {
        return Ok(());
    };
    let start = first.0;
    pairs.reserve(missing.len())?;
    let tail = pairs.split_off(start)?;
    interleave(pairs, tail.into_iter(), missing.into_iter());
    Ok(())
}

/// Appends the pairs of the tail and the new pairs to the pairs that are there, in order.
fn interleave<K: Key, J: Drop>(
    pairs: &mut Vec<(K, J)>,
    mut tail: IntoIter<(K, J), Global>,
    mut missing: IntoIter<(usize, (K, J)), Global>,
)
    requires map { IsMap K.cmp (pairs.old.items ++ into_iter_items tail) }
    requires sorted { IsMap K.cmp (pairs_of (into_iter_items missing)) }
    requires gaps { AllGaps K.cmp (pairs.old.items ++ into_iter_items tail) 0
        (into_iter_items missing) }
    requires ahead { AllFrom (vec_len pairs.old) (into_iter_items missing) }
    requires room { vec_len pairs.old + into_iter_len tail + into_iter_len missing
        ≤ vec_capacity pairs.old }
    ensures map { IsMap K.cmp pairs.new.items }
    ensures len { vec_len pairs.new
        ≡ vec_len pairs.old + into_iter_len tail + into_iter_len missing }
    ensures at { (q : K) → find K.cmp q pairs.new.items
        ≡ or_other (find K.cmp q (pairs.old.items ++ into_iter_items tail))
        (find K.cmp q (pairs_of (into_iter_items missing))) }
{
    let mut moved = pairs.len();
    while let Some((place, pair)) = missing.next() {
        move_front(pairs, &mut tail, place - moved);
        moved = place;
        pairs.push_reserved(pair);
    }
    let left = tail.len();
    move_front(pairs, &mut tail, left);
}

/// Moves this many pairs from the front of the tail.
fn move_front<T: Drop>(items: &mut Vec<T>, tail: &mut IntoIter<T, Global>, count: usize)
    requires there { count ≤ into_iter_len tail.old }
    requires room { vec_len items.old + count ≤ vec_capacity items.old }
    ensures items { items.new.items ++ into_iter_items tail.new
        ≡ items.old.items ++ into_iter_items tail.old }
    ensures len { vec_len items.new ≡ vec_len items.old + count }
    ensures capacity { vec_capacity items.new ≡ vec_capacity items.old }
    ensures left { into_iter_len tail.new + count ≡ into_iter_len tail.old }
{
    for moved in 0..count {
        if let Some(item) = tail.next() {
            items.push_reserved(item);
        }
    }
}
