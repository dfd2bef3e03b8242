//! What may be a key of a map, and what a map is searched by.

ghost use Rattle.std.specs.Prelude.{◌≡◌, IfOk};
ghost use Rattle.std.specs.Ordering.{nat_cmp};
ghost use Rattle.std.specs.Cmp.Lexicographic.{slice_cmp};
ghost use Rattle.std.specs.declared.cmp.Ordering.TheVariants.{Equal};
ghost use Rattle.std.proofs.lemmas.Map.Lookups.{exact_bytes};

use lang_core::Lang;
use std::alloc::{AllocError, Global};
use std::cmp::Ordering;

/// Values in a total order, of which two that compare equal are the same.
pub trait Key: Ord + Drop {
    /// An equal key.
    fn copy(&self, alloc: Global) -> Result<Self, AllocError>
        ensures { IfOk result (λ copied. copied ≡ self.now) };

    /// Keys that compare equal are the same key.
    ghost exact: { (x y : Self) → Self.cmp x y ≡ Equal → x ≡ y };
}

/// Languages are ordered by their texts, so `@none` comes first.
impl Key for Lang {
    ghost exact = { exact_bytes };

    fn copy(&self, alloc: Global) -> Result<Lang, AllocError> {
        Lang::copy(self, alloc)
    }
}

/// What a map is searched by: a key, or what represents one, as a text represents the language that
/// is written so.
///
/// It compares with keys as the key that it represents, whether or not the map has that key.
pub trait Query<K: Key>: Copy {
    /// The key that it represents.
    ghost sought: { Self → K };

    /// How the key that it represents is ordered to this one.
    fn compare(&self, key: &K) -> Ordering
        ensures { result ≡ K.cmp (sought self.now) key.now };
}

impl<K: Key> Query<K> for &K {
    ghost sought = { λ key. key.now };

    fn compare(&self, key: &K) -> Ordering {
        (*self).cmp(key)
    }
}

/// A text that is no language compares by its bytes too, and is found nowhere.
impl Query<Lang> for &str {
    ghost sought = { λ text. text.now };

    fn compare(&self, key: &Lang) -> Ordering {
        compare_texts(*self, key.as_str())
    }
}

/// How the texts are ordered by their bytes.
fn compare_texts<'a>(text: &'a str, other: &'a str) -> Ordering
    ensures { result ≡ slice_cmp nat_cmp text.now other.now }
{
    text.cmp(other)
}
