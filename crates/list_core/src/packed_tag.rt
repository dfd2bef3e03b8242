//! Tags whose subtags are packed into numbers, so that a tag is compared with many ranges fast.
ghost use Rattle.std.specs.Prelude.{◌≡◌, ◌==◌, ◌<◌, ◌∷◌, ◌↔◌, IsTrue, IfSome, IfNone, List, ℕ};
ghost use Rattle.std.specs.Prelude.{drop, length, false};
ghost use Rattle.lang_core.specs.Text.{pieces};
ghost use Rattle.lang_core.specs.Grammar.{AreAll};
ghost use Rattle.lang_core.specs.Subtags.{subtags_left};
ghost use Rattle.lang_core.specs.Matching.{Extended};
ghost use Rattle.list_core.specs.inner.PackedTag.{is_packable, packed, all_packed, greedy_packed};
ghost use Rattle.list_core.specs.inner.PackedTag.{extended_packed};

use arrayvec::ArrayVec;
use lang_core::{Range, Subtags, Tag};
use std::marker::Model;

/// The most subtags of a tag: 128 of one byte take 255 with their hyphens.
const MAX_SUBTAGS: usize = 128;

/// The number of "*".
const STAR: u64 = 42;

/// A tag and its subtags as numbers, for the extended match of many ranges, each of which then
/// takes a quarter of the steps. It takes no memory.
#[derive(Drop)]
pub(crate) struct PackedTag<'a> {
    tag: &'a Tag,
    subtags: ArrayVec<u64, MAX_SUBTAGS>,
}

impl<'a> Model for PackedTag<'a> {
    ghost use Rattle.std.specs.Prelude.{List, ℕ, ◌≡◌};
    ghost use Rattle.lang_core.specs.Tag.{IsTag};
    ghost use Rattle.lang_core.specs.Text.{pieces};
    ghost use Rattle.list_core.specs.inner.PackedTag.{all_packed};

    ghost Value = { List ℕ };

    ghost view = { λ p. p.tag.now };

    ghost invariant = { λ p. IsTag p.tag.now × (p.subtags.items ≡ all_packed (pieces p.tag.now)) };
}

impl<'a> PackedTag<'a> {
    /// The tag with its subtags packed.
    pub(crate) fn new(tag: &'a Tag) -> PackedTag<'a>
        ensures { result ≡ tag.now }
    {
        let bytes = tag.as_str().len();
        prove!(bytes <= 255);
        let mut subtags = ArrayVec::new();
        for subtag in tag.subtags() {
            subtags.push(pack(subtag.as_bytes()));
        }
        PackedTag { tag, subtags }
    }

    /// Extended filtering of the tag (RFC 4647 section 3.3.2).
    pub(crate) fn is_matched_by(&self, range: &Range) -> bool
        ensures { IsTrue result ↔ Extended (pieces range.now) (pieces self.now) }
    {
        matches_packed(range.subtags(), self.subtags.as_slice())
    }
}

/// The number of a subtag, by which two are compared at once.
fn pack(subtag: &[u8]) -> u64
    requires { IsTrue (is_packable subtag.now) }
    ensures { result ≡ packed subtag.now }
{
    let mut number = 0;
    for place in (0..subtag.len()).rev() {
        number = number * 256 + u64::from(subtag[place]);
    }
    number
}

/// RFC 4647 section 3.3.2, of a range's subtags and the numbers of a tag's.
fn matches_packed(range: Subtags<'_>, tag: &[u64]) -> bool
    requires { AreAll is_packable (subtags_left range) }
    ensures { result ≡ extended_packed (all_packed (subtags_left range.entry)) tag.now }
{
    let mut wanted = range;
    match (wanted.next(), tag.first()) {
        (Some(subtag), Some(first)) => {
            let number = pack(subtag.as_bytes());
            (number == STAR || number == *first) && pairs_packed(wanted, tag)
        }
        _ => false,
    }
}

/// Pairs each wanted subtag but "*" with the first given number, after the first of all, that is
/// left and its own (RFC 4647 section 3.3.2, steps 3 and 4).
fn pairs_packed(wanted: Subtags<'_>, given: &[u64]) -> bool
    requires packable { AreAll is_packable (subtags_left wanted) }
    requires first { 0 < length given.now }
    ensures { result ≡ greedy_packed (all_packed (subtags_left wanted.entry)) (drop 1 given.now) }
{
    let mut from = 1;
    for subtag in wanted {
        let number = pack(subtag.as_bytes());
        if number != STAR {
            match place_after(number, given, from) {
                Some(next) => from = next,
                None => return false,
            }
        }
    }
    true
}

/// The place after the wanted number, from a place on. No subtag of one byte is skipped.
fn place_after(wanted: u64, given: &[u64], from: usize) -> Option<usize>
    requires { (wanted == 42) ≡ false }
    ensures missing { IfNone result ((rest : List ℕ)
        → greedy_packed (wanted ∷ rest) (drop from given.now) ≡ false) }
    ensures found { IfSome result (λ next. (rest : List ℕ)
        → greedy_packed (wanted ∷ rest) (drop from given.now)
        ≡ greedy_packed rest (drop next given.now)) }
{
    let mut place = from;
    while place < given.len() {
        let number = given[place];
        if number == wanted {
            return Some(place + 1);
        }
        if number <= 255 {
            return None;
        }
        place += 1;
    }
    None
}
