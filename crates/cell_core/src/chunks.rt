//! Entries in ascending order of their keys, in chunks: a new key moves the entries of one chunk
//! alone.

ghost use Rattle.std.specs.Prelude.{◌≡◌, ◌+◌, ◌-◌, ◌<◌, ◌≤◌, ◌∷◌, ◌++◌, [], IfOk, IfErr, OnOk};
ghost use Rattle.std.specs.Prelude.{IsOk, IsSome, IsTrue, MatchOption, None, false, length};
ghost use Rattle.std.specs.Prelude.{slice_get, is_none};
ghost use Rattle.std.specs.Option.{option_copied};
ghost use Rattle.std.specs.FinMap.Entries.{find, put};
ghost use Rattle.std.specs.Vec.{vec_len, vec_capacity};
ghost use Rattle.cell_core.specs.KeyedAbove.{IsAboveAll};
ghost use Rattle.cell_core.specs.Keyed.{IsMap};
ghost use Rattle.cell_core.specs.inner.KeyedPlaces.{IsPlace, IsGap};
ghost use Rattle.cell_core.specs.Chunks.{all_of, entries_of, AllFilled, IsChunked, IsKept};
ghost use Rattle.cell_core.specs.inner.Chunks.{IsChunkFor, IsPlaceIn};

use crate::join::Join;
use crate::key::{Key, Query};
use std::alloc::{AllocError, Global};
use std::cmp::Ordering;

/// A chunk that reaches this length is split in two.
pub(crate) const FULL: usize = 64;

/// Entries in chunks, with their number.
#[derive(Drop)]
pub(crate) struct Chunks<K, J> {
    pub(crate) list: Vec<Vec<(K, J)>>,
    pub(crate) count: usize,
}

/// The index of the chunk that has the key, or would receive it.
pub(crate) fn chunk_for<K: Key, J, Q: Query<K>>(chunks: &[Vec<(K, J)>], query: Q) -> usize
    requires chunked { IsChunked K.cmp chunks.now }
    requires some { 0 < length chunks.now }
    ensures { IsChunkFor K.cmp (Q.sought query) chunks.now result }
{
    let mut low = 0;
    let mut high = chunks.len();
    while low + 1 < high {
        let middle = low + (high - low) / 2;
        if query.compare(&chunks[middle][0].0).is_lt() {
            high = middle;
        } else {
            low = middle;
        }
    }
    low
}

/// The place of the key that is sought in a chunk, or the place where it would go.
pub(crate) fn bisect<K: Key, J, Q: Query<K>>(pairs: &[(K, J)], query: Q) -> Result<usize, usize>
    requires { IsMap K.cmp pairs.now }
    ensures found { IfOk result (IsPlace K.cmp (Q.sought query) pairs.now) }
    ensures absent { IfErr result (IsGap K.cmp (Q.sought query) pairs.now) }
{
    let mut low = 0;
    let mut high = pairs.len();
    while low < high {
        let middle = low + (high - low) / 2;
        match query.compare(&pairs[middle].0) {
            Ordering::Less => high = middle,
            Ordering::Equal => return Ok(middle),
            Ordering::Greater => low = middle + 1,
        }
    }
    Err(low)
}

/// The chunk that has the key, and the key's place in it. The greatest key, and one above it, are
/// looked for first.
pub(crate) fn place_from_last<K: Key, J>(chunks: &[Vec<(K, J)>], key: &K) -> Option<(usize, usize)>
    requires { IsChunked K.cmp chunks.now }
    ensures { MatchOption result (find K.cmp key.now (all_of chunks.now) ≡ None)
        (λ at. IsPlaceIn K.cmp key.now chunks.now at.0 at.1) }
{
    match chunks.last() {
        Some(chunk) => match key.cmp(&chunk[chunk.len() - 1].0) {
            Ordering::Less => place_in(chunks, key),
            Ordering::Equal => Some((chunks.len() - 1, chunk.len() - 1)),
            Ordering::Greater => None,
        },
        None => None,
    }
}

/// The last entry of all chunks.
pub(crate) fn last_pair<K, J>(chunks: &[Vec<(K, J)>]) -> Option<&(K, J)>
    requires { AllFilled chunks.now }
    ensures { option_copied result
        ≡ slice_get (all_of chunks.now) (length (all_of chunks.now) - 1) }
{
    match chunks.last() {
        Some(chunk) => chunk.last(),
        None => None,
    }
}

/// The entry at a place, counted over all chunks.
pub(crate) fn nth_pair<K, J>(chunks: &[Vec<(K, J)>], place: usize) -> Option<&(K, J)>
    ensures { option_copied result ≡ slice_get (all_of chunks.now) place }
{
    let mut left = place;
    for chunk in chunks {
        if left < chunk.len() {
            return Some(&chunk[left]);
        }
        left -= chunk.len();
    }
    None
}

/// Equal chunks.
pub(crate) fn copy_chunks<K: Key, J: Join>(
    alloc: Global,
    chunks: &[Vec<(K, J)>],
) -> Result<Vec<Vec<(K, J)>>, AllocError>
    requires { AllFilled chunks.now }
    ensures same { IfOk result (λ copied. all_of copied.items ≡ all_of chunks.now) }
    ensures filled { IfOk result (λ copied. AllFilled copied.items) }
{
    let mut copied = Vec::with_capacity(alloc, chunks.len())?;
    for chunk in chunks {
        copied.push(copy_pairs(alloc, chunk)?)?;
    }
    Ok(copied)
}

/// Gives the key the value; if a new key cannot be stored, the pair is returned.
pub(crate) fn put_pair<K: Key, J: Drop>(
    chunks: &mut Chunks<K, J>,
    key: K,
    value: J,
) -> Result<(), (K, J)>
    requires { IsKept K.cmp chunks.old }
    ensures kept { IsKept K.cmp chunks.new }
    ensures ok { OnOk result (entries_of chunks.new ≡ put K.cmp key value (entries_of chunks.old)) }
    ensures err { IfErr result
        (λ pair. (pair ≡ (key, value)) × (entries_of chunks.new ≡ entries_of chunks.old)) }
    ensures held { IsSome (find K.cmp key (entries_of chunks.old)) → IsOk result }
{
    if is_above_all(&chunks.list, &key) {
        return append(chunks, key, value);
    }
    let at = chunk_for(&chunks.list, &key);
    match put_in(&mut chunks.list[at], key, value, &mut chunks.count) {
        Ok(added) => {
            if added {
                cut_if_full(&mut chunks.list, at);
            }
            Ok(())
        }
        Err(pair) => Err(pair),
    }
}

/// Whether the key is greater than all that are there.
pub(crate) fn is_above_all<K: Key, J>(chunks: &[Vec<(K, J)>], key: &K) -> bool
    requires { IsChunked K.cmp chunks.now }
    ensures above { IsTrue result
        → IsGap K.cmp key.now (all_of chunks.now) (length (all_of chunks.now)) }
    ensures below { IsAboveAll K.cmp key.now (all_of chunks.now) → IsTrue result }
    ensures some { result ≡ false → 0 < length chunks.now }
{
    match chunks.last() {
        Some(chunk) => key.cmp(&chunk[chunk.len() - 1].0).is_gt(),
        None => true,
    }
}

/// Appends a key that is greater than all others; a full last chunk stays whole.
pub(crate) fn append<K: Key, J: Drop>(
    chunks: &mut Chunks<K, J>,
    key: K,
    value: J,
) -> Result<(), (K, J)>
    requires kept { IsKept K.cmp chunks.old }
    requires above { IsGap K.cmp key (entries_of chunks.old) (length (entries_of chunks.old)) }
    ensures kept { IsKept K.cmp chunks.new }
    ensures ok { OnOk result (entries_of chunks.new ≡ put K.cmp key value (entries_of chunks.old)) }
    ensures err { IfErr result
        (λ pair. (pair ≡ (key, value)) × (entries_of chunks.new ≡ entries_of chunks.old)) }
{
    let Some(total) = chunks.count.checked_add(1) else {
        return Err((key, value));
    };
    match push_last(&mut chunks.list, (key, value)) {
        Ok(()) => {
            chunks.count = total;
            Ok(())
        }
        Err(pair) => Err(pair),
    }
}

/// Splits a full chunk into halves; if that cannot allocate, it stays as it is.
pub(crate) fn cut_if_full<K: Key, J: Drop>(chunks: &mut Vec<Vec<(K, J)>>, at: usize)
    requires at { at < vec_len chunks.old }
    requires chunked { IsChunked K.cmp chunks.old.items }
    ensures some { 0 < vec_len chunks.new }
    ensures same { all_of chunks.new.items ≡ all_of chunks.old.items }
    ensures chunked { IsChunked K.cmp chunks.new.items }
{
    if chunks[at].len() >= FULL {
        let _ = cut(chunks, at);
    }
}

/// The chunk that has the key, and the key's place in it.
fn place_in<K: Key, J>(chunks: &[Vec<(K, J)>], key: &K) -> Option<(usize, usize)>
    requires chunked { IsChunked K.cmp chunks.now }
    requires some { 0 < length chunks.now }
    ensures { MatchOption result (find K.cmp key.now (all_of chunks.now) ≡ None)
        (λ at. IsPlaceIn K.cmp key.now chunks.now at.0 at.1) }
{
    let at = chunk_for(chunks, key);
    match bisect(&chunks[at], key) {
        Ok(place) => Some((at, place)),
        Err(_) => None,
    }
}

/// Equal pairs.
fn copy_pairs<K: Key, J: Join>(alloc: Global, pairs: &[(K, J)]) -> Result<Vec<(K, J)>, AllocError>
    ensures { IfOk result (λ copied. copied.items ≡ pairs.now) }
{
    let mut copied = Vec::with_capacity(alloc, pairs.len())?;
    for (key, value) in pairs {
        copied.push((key.copy(alloc)?, value.copy(alloc)?))?;
    }
    Ok(copied)
}

/// Appends an item, in a new chunk where the last one is full.
fn push_last<T: Drop>(chunks: &mut Vec<Vec<T>>, item: T) -> Result<(), T>
    requires { AllFilled chunks.old.items }
    ensures filled { AllFilled chunks.new.items }
    ensures ok { OnOk result (all_of chunks.new.items ≡ all_of chunks.old.items ++ item ∷ []) }
    ensures err { IfErr result
        (λ back. (back ≡ item) × (all_of chunks.new.items ≡ all_of chunks.old.items)) }
{
    let len = chunks.len();
    if len == 0 || chunks[len - 1].len() + 1 >= FULL {
        return push_chunk(chunks, item);
    }
    push_in(&mut chunks[len - 1], item)
}

/// Appends an item to a chunk.
fn push_in<T: Drop>(chunk: &mut Vec<T>, item: T) -> Result<(), T>
    ensures grows { vec_len chunk.old ≤ vec_len chunk.new }
    ensures ok { OnOk result (chunk.new.items ≡ chunk.old.items ++ item ∷ []) }
    ensures err { IfErr result (λ back. (back ≡ item) × (chunk.new.items ≡ chunk.old.items)) }
{
    match make_room(chunk) {
        Ok(()) => {
            chunk.push_reserved(item);
            Ok(())
        }
        Err(AllocError) => Err(item),
    }
}

/// Makes room for one more item. A full vector grows by a quarter, and not to twice its room: a
/// catalogue has as many maps as messages, and most of them have few languages.
fn make_room<T: Drop>(items: &mut Vec<T>) -> Result<(), AllocError>
    ensures items { items.new.items ≡ items.old.items }
    ensures len { vec_len items.new ≡ vec_len items.old }
    ensures room { OnOk result (vec_len items.new < vec_capacity items.new) }
{
    if items.len() < items.capacity() {
        return Ok(());
    }
    items.reserve_exact(items.len() / 4 + 1)
}

/// Appends an item, in a chunk of its own.
fn push_chunk<T: Drop>(chunks: &mut Vec<Vec<T>>, item: T) -> Result<(), T>
    requires { AllFilled chunks.old.items }
    ensures filled { AllFilled chunks.new.items }
    ensures ok { OnOk result (all_of chunks.new.items ≡ all_of chunks.old.items ++ item ∷ []) }
    ensures err { IfErr result
        (λ back. (back ≡ item) × (all_of chunks.new.items ≡ all_of chunks.old.items)) }
{
    let room = if chunks.is_empty() { 1 } else { FULL };
    match make_room(chunks) {
        Ok(()) => {}
        Err(AllocError) => return Err(item),
    }
    let mut chunk = match Vec::with_capacity(*chunks.allocator(), room) {
        Ok(chunk) => chunk,
        Err(AllocError) => return Err(item),
    };
    chunk.push_reserved(item);
    chunks.push_reserved(chunk);
    Ok(())
}

/// Gives the key the value in a chunk, and says whether the key is new; if a new one cannot be
/// stored, the pair is returned.
fn put_in<K: Key, J: Drop>(
    pairs: &mut Vec<(K, J)>,
    key: K,
    value: J,
    count: &mut usize,
) -> Result<bool, (K, J)>
    requires { IsMap K.cmp pairs.old.items }
    ensures count { count.new + vec_len pairs.old ≡ count.old + vec_len pairs.new }
    ensures ok { OnOk result (pairs.new.items ≡ put K.cmp key value pairs.old.items) }
    ensures err { IfErr result
        (λ pair. (pair ≡ (key, value)) × (pairs.new.items ≡ pairs.old.items)) }
    ensures held { IsSome (find K.cmp key pairs.old.items) → IsOk result }
    ensures new { IfOk result (λ new. new ≡ is_none (find K.cmp key pairs.old.items)) }
{
    match bisect(pairs, &key) {
        Ok(at) => {
            pairs[at].1 = value;
            Ok(false)
        }
        Err(at) => {
            let Some(total) = count.checked_add(1) else {
                return Err((key, value));
            };
            match make_room(pairs) {
                Ok(()) => {}
                Err(AllocError) => return Err((key, value)),
            }
            match pairs.insert(at, (key, value)) {
                Ok(()) => {
                    *count = total;
                    Ok(true)
                }
                Err(failed) => Err(failed.value),
            }
        }
    }
}

/// Cuts a chunk into two halves.
fn cut<K: Key, J: Drop>(chunks: &mut Vec<Vec<(K, J)>>, at: usize) -> Result<(), AllocError>
    requires at { at < vec_len chunks.old }
    requires chunked { IsChunked K.cmp chunks.old.items }
    ensures some { 0 < vec_len chunks.new }
    ensures same { all_of chunks.new.items ≡ all_of chunks.old.items }
    ensures chunked { IsChunked K.cmp chunks.new.items }
{
    let len = chunks[at].len();
    if len < 2 {
        return Ok(());
    }
    chunks.reserve(1)?;
    let tail = chunks[at].split_off(len / 2)?;
    match chunks.insert(at + 1, tail) {
        Ok(()) => Ok(()),
        Err(_) => Err(AllocError),
    }
}
