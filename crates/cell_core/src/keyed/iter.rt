//! The iterator over the entries of a map.

ghost use Rattle.std.specs.Prelude.{◌≡◌, ◌&&◌, length};
ghost use Rattle.std.specs.Cmp.Lexicographic.{pointwise};
ghost use Rattle.std.specs.Iterator.{YieldsFirstBy, at_most};
ghost use Rattle.cell_core.specs.Iter.{entries_left};

use std::fmt;

/// The entries of a map that are left, in ascending order of the keys.
#[derive(Clone, Copy)]
pub struct Iter<'a, K, J> {
    pub(crate) rest: &'a [(K, J)],
    pub(crate) chunks: &'a [Vec<(K, J)>],
}

/// Gives the entries that are left, in ascending order of key.
impl<'a, K, J> Iterator for Iter<'a, K, J> {
    type Item = (&'a K, &'a J);

    ghost use Rattle.cell_core.specs.Iter.{entries_left};

    ghost next_gives = { YieldsFirstBy (λ e. (e.0.now, e.1.now)) entries_left };

    ghost remaining = { λ s. at_most (length (entries_left s)) };

    fn next(&mut self) -> Option<(&'a K, &'a J)> {
        while self.rest.is_empty() {
            let (chunk, chunks) = self.chunks.split_first()?;
            self.rest = chunk;
            self.chunks = chunks;
        }
        let (first, rest) = self.rest.split_first()?;
        self.rest = rest;
        Some((&first.0, &first.1))
    }
}

/// Lists the entries that are left.
impl<K: fmt::Debug, J: fmt::Debug> fmt::Debug for Iter<'_, K, J> {
    fn fmt<W: fmt::Write>(&self, f: &mut fmt::Formatter<W>) -> fmt::Result {
        let left = Iter {
            rest: self.rest,
            chunks: self.chunks,
        };
        f.debug_map().entries(left).finish()
    }
}

/// Whether the same entries are left, in the same order.
pub(crate) fn are_equal<K: PartialEq, J: PartialEq>(
    mine: Iter<'_, K, J>,
    others: Iter<'_, K, J>,
) -> bool
    ensures { result
        ≡ pointwise (λ p q. K.eq p.0 q.0 && J.eq p.1 q.1) (entries_left mine.entry)
        (entries_left others.entry) }
{
    let mut mine = mine;
    let mut others = others;
    while let Some(entry) = mine.next() {
        let Some(other) = others.next() else {
            return false;
        };
        if !is_equal(entry, other) {
            return false;
        }
    }
    others.next().is_none()
}

/// Whether the keys are equal, and the values.
fn is_equal<K: PartialEq, J: PartialEq>(entry: (&K, &J), other: (&K, &J)) -> bool
    ensures { result
        ≡ (K.eq entry.entry.0.now other.entry.0.now && J.eq entry.entry.1.now other.entry.1.now) }
{
    entry.0 == other.0 && entry.1 == other.1
}
