//! The comparison and the join of entries in chunks, run by run: a run
//! is the part of the other map whose keys fall into one chunk.

ghost use Rattle.std.specs.Prelude.{◌≡◌, ◌<◌, ◌≤◌, ◌↔◌, IfOk, OnOk, OnErr, IsTrue, length, take};
ghost use Rattle.std.specs.FinMap.Entries.{find};
ghost use Rattle.std.specs.Vec.{vec_len};
ghost use Rattle.cell_core.specs.Keyed.{IsMap, AgreeIfBoth, BetweenAtKeys, IsJoinedWith};
ghost use Rattle.cell_core.specs.Chunks.{all_of, entries_of, IsChunked, IsKept};
ghost use Rattle.cell_core.specs.inner.Chunks.{IsRunFor};
ghost use Rattle.cell_core.specs.inner.KeyedPlaces.{place_of};

use crate::chunks::{Chunks, bisect, chunk_for, cut_if_full};
use crate::interleave::join_pairs;
use crate::join::Join;
use crate::key::Key;
use crate::pairs::agree_pairs;
use std::alloc::{AllocError, Global};

/// Whether the values of common keys agree.
pub(crate) fn agree_chunks<K: Key, J: Join>(mine: &[Vec<(K, J)>], theirs: &[Vec<(K, J)>]) -> bool
    requires mine { IsChunked K.cmp mine.now }
    requires theirs { IsChunked K.cmp theirs.now }
    ensures { IsTrue result
        ↔ ((q : K)
        → AgreeIfBoth J.agree (find K.cmp q (all_of mine.now))
        (find K.cmp q (all_of theirs.now))) }
{
    if theirs.is_empty() {
        return true;
    }
    for pairs in mine {
        if !agree_all_of(pairs, theirs) {
            return false;
        }
    }
    true
}

/// Joins the other's entries to the chunks, and counts those that are new.
pub(crate) fn join_chunks<K: Key, J: Join>(
    chunks: &mut Chunks<K, J>,
    alloc: Global,
    theirs: &[Vec<(K, J)>],
) -> Result<(), AllocError>
    requires some { 0 < vec_len chunks.old.list }
    requires kept { IsKept K.cmp chunks.old }
    requires theirs { IsChunked K.cmp theirs.now }
    requires agree { (q : K)
        → AgreeIfBoth J.agree (find K.cmp q (entries_of chunks.old))
        (find K.cmp q (all_of theirs.now)) }
    ensures kept { IsKept K.cmp chunks.new }
    ensures ok { OnOk result
        (IsJoinedWith K.cmp J.joined (entries_of chunks.old) (all_of theirs.now)
        (entries_of chunks.new)) }
    ensures err { OnErr result
        (BetweenAtKeys K.cmp J.between (entries_of chunks.old) (entries_of chunks.new)
        (all_of theirs.now)) }
{
    for pairs in theirs {
        join_all_of(chunks, alloc, pairs)?;
    }
    Ok(())
}

/// Whether the values of common keys agree, of entries side by side.
fn agree_all_of<K: Key, J: Join>(pairs: &[(K, J)], theirs: &[Vec<(K, J)>]) -> bool
    requires pairs { IsMap K.cmp pairs.now }
    requires theirs { IsChunked K.cmp theirs.now }
    requires some { 0 < length theirs.now }
    ensures { IsTrue result
        ↔ ((q : K)
        → AgreeIfBoth J.agree (find K.cmp q pairs.now) (find K.cmp q (all_of theirs.now))) }
{
    let mut from = 0;
    while from < pairs.len() {
        let rest = &pairs[from..];
        let (at, end) = first_run(theirs, rest);
        if !agree_pairs(&rest[..end], &theirs[at]) {
            return false;
        }
        from += end;
    }
    true
}

/// Joins entries that lie side by side to the chunks, and counts those that are new.
fn join_all_of<K: Key, J: Join>(
    chunks: &mut Chunks<K, J>,
    alloc: Global,
    pairs: &[(K, J)],
) -> Result<(), AllocError>
    requires some { 0 < vec_len chunks.old.list }
    requires kept { IsKept K.cmp chunks.old }
    requires pairs { IsMap K.cmp pairs.now }
    requires agree { (q : K)
        → AgreeIfBoth J.agree (find K.cmp q (entries_of chunks.old)) (find K.cmp q pairs.now) }
    ensures some { 0 < vec_len chunks.new.list }
    ensures kept { IsKept K.cmp chunks.new }
    ensures ok { OnOk result
        (IsJoinedWith K.cmp J.joined (entries_of chunks.old) pairs.now (entries_of chunks.new)) }
    ensures err { OnErr result
        (BetweenAtKeys K.cmp J.between (entries_of chunks.old) (entries_of chunks.new) pairs.now) }
{
    let mut from = 0;
    while from < pairs.len() {
        from += join_first_run(chunks, alloc, &pairs[from..])?;
    }
    Ok(())
}

/// Joins the first run of the entries to its chunk, and says how long it is.
fn join_first_run<K: Key, J: Join>(
    chunks: &mut Chunks<K, J>,
    alloc: Global,
    pairs: &[(K, J)],
) -> Result<usize, AllocError>
    requires some { 0 < vec_len chunks.old.list }
    requires kept { IsKept K.cmp chunks.old }
    requires pairs { IsMap K.cmp pairs.now }
    requires more { 0 < length pairs.now }
    requires agree { (q : K)
        → AgreeIfBoth J.agree (find K.cmp q (entries_of chunks.old)) (find K.cmp q pairs.now) }
    ensures some { 0 < vec_len chunks.new.list }
    ensures kept { IsKept K.cmp chunks.new }
    ensures end { IfOk result (λ end. (0 < end) × (end ≤ length pairs.now)) }
    ensures ok { IfOk result
        (λ end. IsJoinedWith K.cmp J.joined (entries_of chunks.old) (take end pairs.now)
        (entries_of chunks.new)) }
    ensures err { OnErr result
        (BetweenAtKeys K.cmp J.between (entries_of chunks.old) (entries_of chunks.new) pairs.now) }
{
    let (at, end) = first_run(&chunks.list, pairs);
    join_pairs(
        &mut chunks.list[at],
        alloc,
        &pairs[..end],
        &mut chunks.count,
    )?;
    cut_if_full(&mut chunks.list, at);
    Ok(end)
}

/// The chunk where the first entry goes, and how many entries from the first on go there.
fn first_run<K: Key, J>(chunks: &[Vec<(K, J)>], pairs: &[(K, J)]) -> (usize, usize)
    requires chunked { IsChunked K.cmp chunks.now }
    requires some { 0 < length chunks.now }
    requires pairs { IsMap K.cmp pairs.now }
    requires more { 0 < length pairs.now }
    ensures more { 0 < result.1 }
    ensures within { result.1 ≤ length pairs.now }
    ensures fits { IsRunFor K.cmp (take result.1 pairs.now) chunks.now result.0 }
{
    let at = chunk_for(chunks, &pairs[0].0);
    if at + 1 == chunks.len() {
        return (at, pairs.len());
    }
    (at, run_end(pairs, &chunks[at + 1][0].0))
}

/// How many entries have keys below the bound.
fn run_end<K: Key, J>(pairs: &[(K, J)], bound: &K) -> usize
    requires pairs { IsMap K.cmp pairs.now }
    requires more { 0 < length pairs.now }
    ensures { result ≡ place_of K.cmp bound.now pairs.now }
{
    if bound.cmp(&pairs[pairs.len() - 1].0).is_gt() {
        return pairs.len();
    }
    match bisect(pairs, bound) {
        Ok(end) => end,
        Err(end) => end,
    }
}
