//! Basic and extended filtering of texts (RFC 4647 sections 3.3.1 and 3.3.2).
ghost use Rattle.std.specs.Prelude.{◌≡◌, false, ◌&&◌, ◌∷◌, ◌↔◌, ◌⊎◌, ◌≤◌, length, IsTrue, List, ℕ};
ghost use Rattle.std.specs.Prelude.{is_some, IfSome, take};
ghost use Rattle.std.specs.Str.{str_to_ascii_lowercase};
ghost use Rattle.lang_core.specs.Text.{pieces, subtags};
ghost use Rattle.lang_core.specs.inner.MatchingFronts.{ends_at, ends_subtag};
ghost use Rattle.lang_core.specs.inner.Pieces.{pieces_left};
ghost use Rattle.lang_core.specs.Grammar.{is_star};
ghost use Rattle.lang_core.specs.Matching.{Basic, IsFront, Extended, greedy, without_stars};

use crate::pieces::{HYPHEN, Pieces};
use crate::range_syntax::is_star;

/// Basic filtering (RFC 4647 section 3.3.1), of texts in lower case.
pub(crate) fn matches_basic(range: &[u8], tag: &[u8]) -> bool
    ensures { IsTrue result ↔ Basic (pieces range.now) (pieces tag.now) }
{
    is_star(range) || is_front(range, tag)
}

/// Basic filtering (RFC 4647 section 3.3.1), of a text in any case.
pub(crate) fn matches_basic_text(range: &[u8], text: &[u8]) -> bool
    requires { str_to_ascii_lowercase range.now ≡ range.now }
    ensures { IsTrue result ↔ Basic (pieces range.now) (subtags text.now) }
{
    is_star(range) || is_front_in_any_case(range, text)
}

/// RFC 4647 section 3.3.2, of texts in lower case.
pub(crate) fn matches_extended(range: &[u8], tag: &[u8]) -> bool
    ensures { IsTrue result ↔ Extended (pieces range.now) (pieces tag.now) }
{
    let mut wanted = Pieces::new(range, HYPHEN);
    let mut given = Pieces::new(tag, HYPHEN);
    match (wanted.next(), given.next()) {
        (Some(first), Some(first_given)) if begins(first, first_given) => pairs(wanted, given),
        _ => false,
    }
}

/// Whether the text's first subtags are those of the front.
fn is_front(front: &[u8], text: &[u8]) -> bool
    ensures { IsTrue result ↔ IsFront (pieces front.now) (pieces text.now) }
{
    match front_of(text, front.len()) {
        Some(start) => start == front,
        None => false,
    }
}

/// Whether the text's first subtags are those of the front, without regard to case.
fn is_front_in_any_case(front: &[u8], text: &[u8]) -> bool
    ensures { IsTrue result ↔ IsFront (subtags front.now) (subtags text.now) }
{
    match front_of(text, front.len()) {
        Some(start) => start.eq_ignore_ascii_case(front),
        None => false,
    }
}

/// The first `len` bytes of the text, if a subtag ends there.
fn front_of(text: &[u8], len: usize) -> Option<&[u8]>
    ensures ends { is_some result ≡ ends_at text.now len }
    ensures front { IfSome result (λ front. front.now ≡ take len text.now) }
{
    if text.len() < len {
        return None;
    }
    let (front, rest) = text.split_at(len);
    if ends_subtag(rest) { Some(front) } else { None }
}

/// Whether a subtag ends before this rest of a text.
fn ends_subtag(rest: &[u8]) -> bool
    ensures { result ≡ ends_subtag rest.now }
{
    match rest {
        [next, ..] => *next == HYPHEN,
        [] => true,
    }
}

/// Whether the first subtag of a range matches that of a tag.
fn begins(wanted: &[u8], given: &[u8]) -> bool
    ensures { IsTrue result ↔ (IsTrue (is_star wanted.now) ⊎ (wanted.now ≡ given.now)) }
{
    is_star(wanted) || wanted == given
}

/// Pairs each wanted piece but "*" with the first given one that is left and equal to it
/// (RFC 4647 section 3.3.2, steps 3 and 4).
fn pairs(wanted: Pieces, mut given: Pieces) -> bool
    ensures { result ≡ greedy (pieces_left wanted.entry) (pieces_left given.entry) }
{
    for piece in wanted {
        if !is_star(piece) && !finds(&mut given, piece) {
            return false;
        }
    }
    true
}

/// Takes pieces up to and including the wanted one, and skips no piece of one character.
fn finds(given: &mut Pieces, wanted: &[u8]) -> bool
    requires { is_star wanted.now ≡ false }
    ensures { (rest : List (List ℕ)) → greedy (wanted.now ∷ rest) (pieces_left given.old)
        ≡ (result && greedy rest (pieces_left given.new)) }
{
    while let Some(piece) = given.next() {
        if wanted == piece {
            return true;
        }
        if piece.len() <= 1 {
            return false;
        }
    }
    false
}
