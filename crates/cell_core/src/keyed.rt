//! Maps from keys to values that join, in ascending order of the keys.

ghost use Rattle.std.specs.Prelude.{◌≡◌, ◌-◌, ◌↔◌, ◌∷◌, ◌++◌, [], IsTrue, IfErr, OnOk, IsOk};
ghost use Rattle.std.specs.Prelude.{IsSome};
ghost use Rattle.std.specs.Prelude.{length, slice_get};
ghost use Rattle.std.specs.Option.{option_copied, option_copied_mut, option_map};
ghost use Rattle.std.specs.Borrow.{LendsIf, sem};
ghost use Rattle.std.specs.FinMap.Entries.{find, put};
ghost use Rattle.cell_core.specs.contracts.keyed.Keyed.{the_row};
ghost use Rattle.cell_core.specs.KeyedAbove.{IsAboveAll};
ghost use Rattle.cell_core.specs.KeyedFound.{with_key};
ghost use Rattle.cell_core.specs.Keyed.{IsMap, AgreeMaps, joined_maps, BetweenMaps};
ghost use Rattle.cell_core.specs.inner.KeyedLaws.{map_laws};

pub(crate) mod iter;

use crate::chunk_joins::{agree_chunks, join_chunks};
use crate::chunks::{
    Chunks, append, bisect, chunk_for, copy_chunks, is_above_all, last_pair, nth_pair,
    place_from_last, put_pair,
};
use crate::join::Join;
use crate::key::{Key, Query};
use crate::keyed::iter::{Iter, are_equal};
use std::alloc::{AllocError, Global};
use std::fmt;
use std::marker::Model;

/// A finite map from keys to values, whose entries are in strictly ascending order of the keys.
///
/// Maps of values that join, join key by key; see [`Join`]. Two maps agree where their values agree
/// at each key that both have, and their join has at a key of one alone that one's value, and at a
/// key of both the two values joined. After a [`Join::join`] that runs out of memory each key has
/// its old value, or none as before, or the join's value, or one between them; a repeated join then
/// gives the whole join.
///
/// `get`, `get_by` and `put` search in about log2(n) steps; `nth` walks over the chunks before its
/// entry. A `put` of a new key moves at most some sixty entries, and a key greater than all others
/// is appended. A join takes time for the other map and for those parts of this one where the
/// other's keys fall.
///
/// ```text
/// let mut map = Keyed::new(alloc);
/// map.put(key, value)                  // Ok(()), or the pair back where there is no memory
/// map.get(&key)                        // Some(&value)
/// ```
#[derive(Drop)]
pub struct Keyed<K: Key, J> {
    // Of fewer than 64 entries each where memory allows, so that a new key moves few entries.
    chunks: Chunks<K, J>,
}

impl<K: Key, J> Model for Keyed<K, J> {
    ghost use Rattle.std.specs.Prelude.{List};
    ghost use Rattle.cell_core.specs.Chunks.{entries_of, IsKept};

    ghost Value = { List (K × J) };

    ghost view = { λ a. entries_of a.chunks };

    ghost invariant = { λ a. IsKept K.cmp a.chunks };
}

impl<K: Key, J> Keyed<K, J> {
    ghost use Rattle.cell_core.specs.Iter.{entries_left};

    /// The empty map, which grows by this allocator. It takes no memory.
    pub fn new(alloc: Global) -> Self
        ensures { result ≡ [] }
    {
        Keyed {
            chunks: Chunks {
                list: Vec::new(alloc),
                count: 0,
            },
        }
    }

    /// How many keys there are.
    pub fn len(&self) -> usize
        ensures len { result ≡ length self.now }
        ensures map { IsMap K.cmp self.now }
    {
        self.chunks.count
    }

    /// Whether there is no key.
    pub fn is_empty(&self) -> bool
        ensures empty { IsTrue result ↔ (self.now ≡ []) }
    {
        self.len() == 0
    }

    /// The entry at a place in ascending order of the keys, counted from 0; none from `len` on.
    pub fn nth(&self, place: usize) -> Option<(&K, &J)>
        ensures entry { option_map (λ e. (e.0.now, e.1.now)) result ≡ slice_get self.now place }
        ensures map { IsMap K.cmp self.now }
    {
        match nth_pair(&self.chunks.list, place) {
            Some(pair) => Some((&pair.0, &pair.1)),
            None => None,
        }
    }

    /// The entry with the greatest key; none where the map is empty.
    pub fn last(&self) -> Option<(&K, &J)>
        ensures entry { option_map (λ e. (e.0.now, e.1.now)) result
            ≡ slice_get self.now (length self.now - 1) }
        ensures map { IsMap K.cmp self.now }
    {
        match last_pair(&self.chunks.list) {
            Some(pair) => Some((&pair.0, &pair.1)),
            None => None,
        }
    }

    /// The value of the key, if the map has it.
    pub fn get(&self, key: &K) -> Option<&J>
        ensures value { option_copied result ≡ find K.cmp key.now self.now }
        ensures map { IsMap K.cmp self.now }
    {
        match self.get_by(key) {
            Some((_, value)) => Some(value),
            None => None,
        }
    }

    /// The entry of the key that the query represents, if the map has it: so a language is found by
    /// its text, without memory for a key.
    pub fn get_by<Q: Query<K>>(&self, query: Q) -> Option<(&K, &J)>
        ensures entry { option_map (λ e. (e.0.now, e.1.now)) result
            ≡ with_key (Q.sought query) (find K.cmp (Q.sought query) self.now) }
        ensures map { IsMap K.cmp self.now }
    {
        if self.chunks.list.is_empty() {
            return None;
        }
        let at = chunk_for(&self.chunks.list, query);
        let chunk = &self.chunks.list[at];
        match bisect(chunk, query) {
            Ok(place) => {
                let entry = &chunk[place];
                Some((&entry.0, &entry.1))
            }
            Err(_) => None,
        }
    }

    /// The value of the key, if the map has it, to be changed: whatever is written through it, the
    /// map is then the old one with that value at that key.
    ///
    /// The greatest key, and one above it, are looked for first.
    pub fn get_mut(&mut self, key: &K) -> Option<&mut J>
        ensures* lends { sem 𝓛
            (LendsIf
            (the_row K.row J.row (record { cmp = K.cmp }) (record { eq = K.eq })
            (record { partial_cmp = K.partial_cmp })) J.row self.entry result
            (λ w. put K.cmp key.now w self.old) self.old) }
        ensures value { option_copied_mut result ≡ find K.cmp key.now self.old }
        ensures map { IsMap K.cmp self.old }
    {
        match place_from_last(&self.chunks.list, key) {
            Some((at, place)) => Some(&mut self.chunks.list[at][place].1),
            None => None,
        }
    }

    /// Gives the key the value, whether the key is new or not.
    ///
    /// For a key that the map has it takes no memory, and always succeeds. Where there is no memory
    /// for a new key, that very pair comes back, and the map is as it was.
    pub fn put(&mut self, key: K, value: J) -> Result<(), (K, J)>
    where
        J: Drop,
        ensures ok { OnOk result (self.new ≡ put K.cmp key value self.old) }
        ensures err { IfErr result (λ pair. (pair ≡ (key, value)) × (self.new ≡ self.old)) }
        ensures held { IsSome (find K.cmp key self.old) → IsOk result }
    {
        put_pair(&mut self.chunks, key, value)
    }

    /// Whether the key is greater than all others, as [`Keyed::push`] requires.
    pub fn is_above_all(&self, key: &K) -> bool
        ensures { IsTrue result ↔ IsAboveAll K.cmp key.now self.now }
    {
        is_above_all(&self.chunks.list, key)
    }

    /// Appends a key with its value; the key has to be greater than all others
    /// ([`Keyed::is_above_all`]).
    ///
    /// Where there is no memory that very pair comes back, and the map is as it was.
    pub fn push(&mut self, key: K, value: J) -> Result<(), (K, J)>
    where
        J: Drop,
        requires { IsAboveAll K.cmp key self.old }
        ensures ok { OnOk result (self.new ≡ self.old ++ (key, value) ∷ []) }
        ensures err { IfErr result (λ pair. (pair ≡ (key, value)) × (self.new ≡ self.old)) }
    {
        append(&mut self.chunks, key, value)
    }

    /// An iterator over the entries in ascending order of the keys.
    pub fn iter(&self) -> Iter<'_, K, J>
        ensures rest { entries_left result ≡ self.now }
        ensures map { IsMap K.cmp self.now }
    {
        Iter {
            rest: &[],
            chunks: self.chunks.list.as_slice(),
        }
    }
}

/// Maps are equal where their entries are, however they lie in memory.
impl<K: Key, J: PartialEq> PartialEq for Keyed<K, J> {
    ghost use Rattle.std.specs.Prelude.{◌&&◌};
    ghost use Rattle.std.specs.Cmp.{and_per, on_per};
    ghost use Rattle.std.specs.Cmp.Lexicographic.{pointwise, lists_per};

    ghost eq = { pointwise (λ p q. K.eq p.0 q.0 && J.eq p.1 q.1) };

    ghost laws = { lists_per
        (and_per (on_per (λ p. p.0) K.PartialEq.laws) (on_per (λ p. p.1) J.laws)) };

    fn eq(&self, other: &Self) -> bool {
        other.chunks.count == self.chunks.count && are_equal(self.iter(), other.iter())
    }
}

impl<K: Key, J: Eq> Eq for Keyed<K, J> {
    ghost use Rattle.std.specs.Cmp.{and_equiv, on_equiv};
    ghost use Rattle.std.specs.Cmp.Lexicographic.{lists_equiv};

    ghost laws = { lists_equiv
        (and_equiv (on_equiv (λ p. p.0) K.Eq.laws) (on_equiv (λ p. p.1) J.Eq.laws)) };
}

/// Lists the entries, in ascending order of the keys.
impl<K: Key + fmt::Debug, J: fmt::Debug> fmt::Debug for Keyed<K, J> {
    fn fmt<W: fmt::Write>(&self, f: &mut fmt::Formatter<W>) -> fmt::Result {
        f.debug_map().entries(self.iter()).finish()
    }
}

/// Maps agree where their values at each common key do, and the join has each key of both, with the
/// joined values of both at a common key. When memory runs out the map is between what it was and
/// the join.
impl<K: Key, J: Join> Join for Keyed<K, J> {
    ghost agree = { AgreeMaps K.cmp J.agree };

    ghost joined = { joined_maps K.cmp J.joined };

    ghost between = { BetweenMaps K.cmp J.between };

    ghost laws = { map_laws K.cmp K.total K.exact J.laws };

    fn agrees(&self, other: &Self) -> bool {
        // Over the smaller map, with a search in the greater.
        if self.chunks.count <= other.chunks.count {
            agree_chunks(&self.chunks.list, &other.chunks.list)
        } else {
            agree_chunks(&other.chunks.list, &self.chunks.list)
        }
    }

    fn join(&mut self, alloc: Global, other: &Self) -> Result<(), AllocError> {
        if self.chunks.list.is_empty() {
            *self = other.copy(alloc)?;
            return Ok(());
        }
        join_chunks(&mut self.chunks, alloc, &other.chunks.list)
    }

    fn copy(&self, alloc: Global) -> Result<Self, AllocError> {
        Ok(Keyed {
            chunks: Chunks {
                list: copy_chunks(alloc, &self.chunks.list)?,
                count: self.chunks.count,
            },
        })
    }
}
