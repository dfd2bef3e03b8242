//! Subtags, and which kinds of the grammar each of them is (RFC 5646 section 2.1).
ghost use Rattle.std.specs.Prelude.{◌≡◌, ◌≤◌, IsTrue, MatchOption, take, ◌&&◌, nat_le, length};
ghost use Rattle.std.specs.Prelude.{sum_by, false};
ghost use Rattle.std.specs.List.{list_any};
ghost use Rattle.std.specs.Str.{str_to_ascii_lowercase};
ghost use Rattle.lang_core.specs.Grammar.{is_letter, is_digit, is_alphanum, is_run};
ghost use Rattle.lang_core.specs.Grammar.{is_short_language, is_long_language, is_extlang};
ghost use Rattle.lang_core.specs.Grammar.{is_script, is_region, is_variant, is_x, is_singleton};
ghost use Rattle.lang_core.specs.Grammar.{is_extension_piece, is_private_piece};
ghost use Rattle.lang_core.specs.inner.Subtag.{class_of};

use std::marker::Model;

/// What each byte adds to the sum of a text: a letter 0, a digit 1, any other byte 16.
#[rattlefmt::skip]
static CLASSES: [u8; 256] = [
    16, 16, 16, 16, 16, 16, 16, 16, 16, 16, 16, 16, 16, 16, 16, 16,
    16, 16, 16, 16, 16, 16, 16, 16, 16, 16, 16, 16, 16, 16, 16, 16,
    16, 16, 16, 16, 16, 16, 16, 16, 16, 16, 16, 16, 16, 16, 16, 16,
    1, 1, 1, 1, 1, 1, 1, 1, 1, 1, 16, 16, 16, 16, 16, 16,
    16, 0, 0, 0, 0, 0, 0, 0, 0, 0, 0, 0, 0, 0, 0, 0,
    0, 0, 0, 0, 0, 0, 0, 0, 0, 0, 0, 16, 16, 16, 16, 16,
    16, 0, 0, 0, 0, 0, 0, 0, 0, 0, 0, 0, 0, 0, 0, 0,
    0, 0, 0, 0, 0, 0, 0, 0, 0, 0, 0, 16, 16, 16, 16, 16,
    16, 16, 16, 16, 16, 16, 16, 16, 16, 16, 16, 16, 16, 16, 16, 16,
    16, 16, 16, 16, 16, 16, 16, 16, 16, 16, 16, 16, 16, 16, 16, 16,
    16, 16, 16, 16, 16, 16, 16, 16, 16, 16, 16, 16, 16, 16, 16, 16,
    16, 16, 16, 16, 16, 16, 16, 16, 16, 16, 16, 16, 16, 16, 16, 16,
    16, 16, 16, 16, 16, 16, 16, 16, 16, 16, 16, 16, 16, 16, 16, 16,
    16, 16, 16, 16, 16, 16, 16, 16, 16, 16, 16, 16, 16, 16, 16, 16,
    16, 16, 16, 16, 16, 16, 16, 16, 16, 16, 16, 16, 16, 16, 16, 16,
    16, 16, 16, 16, 16, 16, 16, 16, 16, 16, 16, 16, 16, 16, 16, 16,
];

/// The least sum of a text that has another byte than letters and digits.
const OTHER: u8 = 16;

/// A subtag of 1 to 8 letters or digits in any case. Contracts see it in lower case.
#[derive(Drop)]
pub(crate) struct Subtag<'a> {
    text: &'a [u8],
    has_letters_only: bool,
    has_digits_only: bool,
}

impl<'a> Model for Subtag<'a> {
    ghost use Rattle.std.specs.Prelude.{List, ℕ, IsTrue, ◌≡◌};
    ghost use Rattle.std.specs.List.{list_all};
    ghost use Rattle.std.specs.Str.{str_to_ascii_lowercase};
    ghost use Rattle.lang_core.specs.Grammar.{is_letter, is_digit, is_private_piece};

    ghost Value = { List ℕ };

    ghost view = { λ s. str_to_ascii_lowercase s.text.now };

    ghost invariant = { λ s. IsTrue (is_private_piece (str_to_ascii_lowercase s.text.now))
        × (s.has_letters_only ≡ list_all is_letter (str_to_ascii_lowercase s.text.now))
        × (s.has_digits_only ≡ list_all is_digit (str_to_ascii_lowercase s.text.now)) };
}

impl<'a> Subtag<'a> {
    /// The subtag, if the text is one.
    pub(crate) fn read(text: &'a [u8]) -> Option<Subtag<'a>>
        ensures { let lower = str_to_ascii_lowercase text.now in MatchOption result
            (is_private_piece lower ≡ false)
            (λ subtag. (subtag ≡ lower) × IsTrue (is_private_piece lower)) }
    {
        if text.is_empty() || text.len() > 8 {
            return None;
        }
        let sum = class_sum(text);
        if sum >= OTHER {
            return None;
        }
        Some(Subtag {
            text,
            has_letters_only: sum == 0,
            has_digits_only: usize::from(sum) == text.len(),
        })
    }

    /// Whether its length is in this range.
    fn has_len(&self, low: usize, high: usize) -> bool
        ensures { result ≡ nat_le low (length self.now) && nat_le (length self.now) high }
    {
        low <= self.text.len() && self.text.len() <= high
    }

    /// Whether it is of letters alone, and its length in this range.
    fn is_letters(&self, low: usize, high: usize) -> bool
        ensures { result ≡ is_run is_letter low high self.now }
    {
        self.has_len(low, high) && self.has_letters_only
    }

    /// Whether it is of digits alone, and its length in this range.
    fn is_digits(&self, low: usize, high: usize) -> bool
        ensures { result ≡ is_run is_digit low high self.now }
    {
        self.has_len(low, high) && self.has_digits_only
    }

    /// Whether its length is in this range; it is of letters and digits in any case.
    fn is_alphanums(&self, low: usize, high: usize) -> bool
        ensures { result ≡ is_run is_alphanum low high self.now }
    {
        let _ = &self.text;
        self.has_len(low, high)
    }

    /// 1*8ALPHA, the first subtag of a range.
    #[tactic(auto, unfolding(crate::specs::Grammar::is_run))]
    pub(crate) fn is_first_of_range(&self) -> bool
        ensures { result ≡ is_run is_letter 1 8 self.now }
    {
        self.is_letters(1, 8)
    }

    /// 2*3ALPHA, a language that extlangs may follow.
    #[tactic(auto, unfolding(crate::specs::Grammar::is_short_language))]
    pub(crate) fn is_short_language(&self) -> bool
        ensures { result ≡ is_short_language self.now }
    {
        self.is_letters(2, 3)
    }

    /// 4ALPHA / 5*8ALPHA, a language that no extlang may follow.
    #[tactic(auto, unfolding(crate::specs::Grammar::is_long_language))]
    pub(crate) fn is_long_language(&self) -> bool
        ensures { result ≡ is_long_language self.now }
    {
        self.is_letters(4, 8)
    }

    /// 3ALPHA
    #[tactic(auto, unfolding(crate::specs::Grammar::is_extlang))]
    pub(crate) fn is_extlang(&self) -> bool
        ensures { result ≡ is_extlang self.now }
    {
        self.is_letters(3, 3)
    }

    /// 4ALPHA
    #[tactic(auto, unfolding(crate::specs::Grammar::is_script))]
    pub(crate) fn is_script(&self) -> bool
        ensures { result ≡ is_script self.now }
    {
        self.is_letters(4, 4)
    }

    /// 2ALPHA / 3DIGIT
    #[tactic(auto, unfolding(crate::specs::Grammar::is_region))]
    pub(crate) fn is_region(&self) -> bool
        ensures { result ≡ is_region self.now }
    {
        self.is_letters(2, 2) || self.is_digits(3, 3)
    }

    /// 5*8alphanum / (DIGIT 3alphanum)
    #[tactic(auto, unfolding(crate::specs::Grammar::is_variant))]
    pub(crate) fn is_variant(&self) -> bool
        ensures { result ≡ is_variant self.now }
    {
        self.is_alphanums(5, 8) || (self.is_alphanums(4, 4) && self.begins_with_digit())
    }

    /// Whether its first byte is a digit.
    fn begins_with_digit(&self) -> bool
        ensures { result ≡ list_any is_digit (take 1 self.now) }
    {
        match self.text {
            [first, ..] => first.is_ascii_digit(),
            [] => false,
        }
    }

    /// "x" in any case, which begins the private use part.
    #[tactic(auto, unfolding(crate::specs::Grammar::is_x))]
    pub(crate) fn is_x(&self) -> bool
        ensures { result ≡ is_x self.now }
    {
        match self.text {
            [only] => *only == b'x' || *only == b'X',
            _ => false,
        }
    }

    /// One letter or digit other than "x".
    #[tactic(auto, unfolding(crate::specs::Grammar::is_singleton))]
    pub(crate) fn is_singleton(&self) -> bool
        ensures { result ≡ is_singleton self.now }
    {
        self.is_alphanums(1, 1) && !self.is_x()
    }

    /// 2*8alphanum
    #[tactic(auto, unfolding(crate::specs::Grammar::is_extension_piece))]
    pub(crate) fn is_extension_piece(&self) -> bool
        ensures { result ≡ is_extension_piece self.now }
    {
        self.is_alphanums(2, 8)
    }

    /// 1*8alphanum
    #[tactic(auto, unfolding(crate::specs::Grammar::is_private_piece))]
    pub(crate) fn is_private_piece(&self) -> bool
        ensures { result ≡ is_private_piece self.now }
    {
        self.is_alphanums(1, 8)
    }
}

/// What the byte adds to the sum of a text.
fn class_of(byte: u8) -> u8
    ensures class { result ≡ class_of byte }
    ensures small { result ≤ 16 }
{
    CLASSES[usize::from(byte)]
}

/// The sum of what the bytes add: of letters and digits alone it is the number of digits.
fn class_sum(text: &[u8]) -> u8
    requires { length text.now ≤ 8 }
    ensures { result ≡ sum_by class_of text.now }
{
    let mut sum = 0;
    for byte in text {
        sum += class_of(*byte);
    }
    sum
}
