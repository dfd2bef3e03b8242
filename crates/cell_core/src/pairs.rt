//! Entries in ascending order of their keys, side by side in memory: the comparison and the join of
//! two runs.

ghost use Rattle.std.specs.Prelude.{◌≡◌, ◌≤◌, ◌↔◌, ◌∷◌, ◌++◌, [], IfOk, IfErr, OnOk, OnErr, IsTrue};
ghost use Rattle.std.specs.FinMap.Entries.{find};
ghost use Rattle.cell_core.specs.Keyed.{IsMap, AgreeIfBoth, BetweenAtKeys};
ghost use Rattle.cell_core.specs.inner.KeyedPlaces.{place_of, IsPlace, IsGap};
ghost use Rattle.cell_core.specs.inner.InterleaveMissing.{IsCommonJoined};

use crate::join::Join;
use crate::key::Key;
use std::alloc::{AllocError, Global};
use std::cmp::Ordering;

/// Whether the values of common keys agree, by one walk over the first run.
pub(crate) fn agree_pairs<K: Key, J: Join>(mine: &[(K, J)], theirs: &[(K, J)]) -> bool
    requires mine { IsMap K.cmp mine.now }
    requires theirs { IsMap K.cmp theirs.now }
    ensures { IsTrue result
        ↔ ((q : K) → AgreeIfBoth J.agree (find K.cmp q mine.now) (find K.cmp q theirs.now)) }
{
    let mut at = 0;
    for (key, value) in mine {
        match seek(theirs, key, at) {
            Ok(place) => {
                if !value.agrees(&theirs[place].1) {
                    return false;
                }
                at = place + 1;
            }
            Err(place) => at = place,
        }
    }
    true
}

/// Joins the values of common keys in place, and copies the other pairs, each with the place where
/// it goes.
pub(crate) fn join_common<K: Key, J: Join>(
    mine: &mut [(K, J)],
    alloc: Global,
    theirs: &[(K, J)],
) -> Result<Vec<(usize, (K, J))>, AllocError>
    requires mine { IsMap K.cmp mine.old }
    requires theirs { IsMap K.cmp theirs.now }
    requires agree { (q : K)
        → AgreeIfBoth J.agree (find K.cmp q mine.old) (find K.cmp q theirs.now) }
    ensures ok { IfOk result (λ missing.
        IsCommonJoined K.cmp J.joined mine.old theirs.now mine.new missing.items) }
    ensures err { OnErr result (BetweenAtKeys K.cmp J.between mine.old mine.new theirs.now) }
{
    let mut missing = Vec::new(alloc);
    let mut at = 0;
    for (key, value) in theirs {
        match seek(mine, key, at) {
            Ok(place) => {
                let common = &mut mine[place];
                common.1.join(alloc, value)?;
                at = place + 1;
            }
            Err(place) => {
                let pair = (key.copy(alloc)?, value.copy(alloc)?);
                push_in_room(&mut missing, (place, pair), theirs.len())?;
                at = place;
            }
        }
    }
    Ok(missing)
}

/// Galloping search from a place; all keys before it are smaller.
fn seek<K: Key, J>(pairs: &[(K, J)], key: &K, from: usize) -> Result<usize, usize>
    requires map { IsMap K.cmp pairs.now }
    requires from { from ≤ place_of K.cmp key.now pairs.now }
    ensures found { IfOk result (IsPlace K.cmp key.now pairs.now) }
    ensures absent { IfErr result (IsGap K.cmp key.now pairs.now) }
{
    let mut low = from;
    let mut high = pairs.len();
    while low < high {
        let step = (low - from) / 2;
        let half = (high - low) / 2;
        let middle = low + step.min(half);
        match key.cmp(&pairs[middle].0) {
            Ordering::Less => high = middle,
            Ordering::Equal => return Ok(middle),
            Ordering::Greater => low = middle + 1,
        }
    }
    Err(low)
}

/// Appends an item; the first one makes room for as many as there may be.
fn push_in_room<T: Drop>(items: &mut Vec<T>, item: T, most: usize) -> Result<(), AllocError>
    ensures { OnOk result (items.new.items ≡ items.old.items ++ item ∷ []) }
{
    if items.is_empty() {
        items.reserve(most)?;
    }
    items.push(item)?;
    Ok(())
}
