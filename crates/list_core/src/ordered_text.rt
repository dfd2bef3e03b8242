//! Texts that are compared quickly.
ghost use Rattle.std.specs.Prelude.{◌≡◌, Some};
ghost use Rattle.std.specs.Str.{bytes_eq};
ghost use Rattle.std.specs.Ordering.{nat_cmp};
ghost use Rattle.std.specs.Cmp.Lexicographic.{slice_cmp};
ghost use Rattle.std.specs.Cmp.Rules.{comparing};
ghost use Rattle.list_core.specs.Fingerprint.{head_of};
ghost use borrow.Author.Rules.{rules};

use crate::fingerprint::head_of;
use std::cmp::Ordering;
use std::marker::Model;

/// A text with its first eight bytes as a number, which decides the order of most texts.
#[derive(Drop)]
pub struct OrderedText<'a> {
    head: u64,
    text: &'a str,
}

impl<'a> Model for OrderedText<'a> {
    ghost use Rattle.std.specs.Prelude.{List, ℕ, ◌≡◌};
    ghost use Rattle.list_core.specs.Fingerprint.{head_of};

    ghost Value = { List ℕ };

    ghost view = { λ t. t.text.now };

    ghost invariant = { λ t. t.head ≡ head_of t.text.now };
}

impl<'a> OrderedText<'a> {
    /// The text with its number.
    pub fn new(text: &'a str) -> OrderedText<'a>
        ensures { result ≡ text.now }
    {
        OrderedText {
            head: head_of(text),
            text,
        }
    }

    /// The text.
    pub fn text(&self) -> &'a str
        ensures { result.now ≡ self.now }
    {
        self.text
    }
}

/// The same text.
impl<'a> PartialEq for OrderedText<'a> {
    ghost eq = { bytes_eq };

    ghost laws = { Prim.search (comparing, rules) };

    fn eq(&self, other: &OrderedText<'a>) -> bool {
        self.text == other.text
    }
}

/// Equality of texts is an equivalence.
impl<'a> Eq for OrderedText<'a> {
    ghost laws = { Prim.search (comparing, rules) };
}

/// In ascending order of bytes.
impl<'a> PartialOrd for OrderedText<'a> {
    ghost partial_cmp = { λ a b. Some (slice_cmp nat_cmp a b) };

    ghost laws = { Prim.search (comparing, rules) };

    fn partial_cmp(&self, other: &OrderedText<'a>) -> Option<Ordering> {
        Some(self.cmp(other))
    }
}

/// In ascending order of bytes.
impl<'a> Ord for OrderedText<'a> {
    ghost cmp = { slice_cmp nat_cmp };

    ghost total = { Prim.search (comparing, rules) };

    ghost matches_partial_cmp = { Prim.search (comparing, rules) };

    ghost matches_eq = { Prim.search (comparing, rules) };

    fn cmp(&self, other: &OrderedText<'a>) -> Ordering {
        if self.head < other.head {
            Ordering::Less
        } else if other.head < self.head {
            Ordering::Greater
        } else {
            self.text.cmp(other.text)
        }
    }
}
