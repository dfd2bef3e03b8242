//! A range truncated for lookup (RFC 4647 section 3.4).
ghost use Rattle.std.specs.Prelude.{◌≡◌, ◌≢◌, ◌<◌, ◌++◌, ◌∷◌, ◌||◌, [], ℕ, List, length};
ghost use Rattle.std.specs.Prelude.{slice_index, MatchOption, IfSome};
ghost use Rattle.std.specs.Iterator.{YieldsFirstBy, item_count};
ghost use Rattle.lang_core.specs.Text.{pieces};
ghost use Rattle.lang_core.specs.Grammar.{is_star};
ghost use Rattle.lang_core.specs.TruncationsCandidates.{candidates, truncated, is_cut, is_single};

use crate::pieces::HYPHEN;
use crate::range_syntax::is_star;

/// The lookup text of a range and its truncations as slices of it, longest first (RFC 4647
/// section 3.4). It takes no memory.
#[derive(Clone, Debug, Drop)]
pub struct Truncations<'a> {
    next: Option<&'a str>,
}

impl<'a> Truncations<'a> {
    ghost use Rattle.lang_core.specs.Truncations.{truncations_left};

    /// The truncations of this text, itself first.
    ///
    /// ```text
    /// Truncations::new("zh-hant-cn-x-private1")  zh-hant-cn-x-private1, zh-hant-cn, zh-hant, zh
    /// ```
    pub fn new(text: &'a str) -> Truncations<'a>
        ensures { truncations_left result ≡ candidates (pieces text.now) }
    {
        Truncations { next: Some(text) }
    }
}

/// Gives the candidates that are left, longest first.
impl<'a> Iterator for Truncations<'a> {
    type Item = &'a str;

    ghost use Rattle.lang_core.specs.Truncations.{truncations_left};

    ghost next_gives = { YieldsFirstBy (λ x. pieces x.now) truncations_left };

    ghost remaining = { item_count truncations_left };

    fn next(&mut self) -> Option<&'a str> {
        let current = self.next?;
        self.next = shorter(current);
        Some(current)
    }
}

/// The place of the last hyphen.
fn last_hyphen(text: &str) -> Option<usize>
    ensures { MatchOption result
        ((k : ℕ) → k < length text.now → slice_index text.now k ≢ 45)
        (λ at. (at < length text.now) × (slice_index text.now at ≡ 45)
        × ((k : ℕ) → at < k → k < length text.now → slice_index text.now k ≢ 45)) }
{
    let bytes = text.as_bytes();
    for at in (0..bytes.len()).rev() {
        if bytes[at] == HYPHEN {
            return Some(at);
        }
    }
    None
}

/// The text before the last hyphen, and the last piece.
fn cut_last(text: &str) -> Option<(&str, &str)>
    ensures parts { MatchOption result
        (pieces text.now ≡ text.now ∷ [])
        (λ x. pieces text.now ≡ pieces x.0.now ++ x.1.now ∷ []) }
    ensures shorter { IfSome result (λ x. length x.0.now < length text.now) }
{
    match last_hyphen(text) {
        Some(at) => Some((&text[..at], &text[at + 1..])),
        None => None,
    }
}

/// Whether the piece is one letter or digit, in lower case.
#[tactic(auto, unfolding(crate::specs::Grammar::is_run))]
fn is_single(piece: &[u8]) -> bool
    ensures { result ≡ is_single piece.now }
{
    match piece {
        [only] => only.is_ascii_lowercase() || only.is_ascii_digit(),
        _ => false,
    }
}

/// Whether the piece is one letter or digit, in lower case, or "*".
fn is_character(piece: &[u8]) -> bool
    ensures { result ≡ (is_single piece.now || is_star piece.now) }
{
    is_single(piece) || is_star(piece)
}

/// Whether a truncation may not end here (RFC 4647 section 3.4): its last subtag is one letter or
/// digit, or it is a single character.
fn is_cut(text: &str) -> bool
    ensures { result ≡ is_cut (pieces text.now) }
{
    match cut_last(text) {
        Some((_, last)) => is_single(last.as_bytes()),
        None => is_character(text.as_bytes()),
    }
}

/// The next truncation.
fn shorter(text: &str) -> Option<&str>
    ensures { MatchOption result
        (truncated (pieces text.now) ≡ [])
        (λ front. truncated (pieces text.now) ≡ candidates (pieces front.now)) }
{
    let mut rest = text;
    while let Some((front, _)) = cut_last(rest) {
        if !is_cut(front) {
            return Some(front);
        }
        rest = front;
    }
    None
}
