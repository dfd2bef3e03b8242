//! Which subtags a range may have (RFC 4647 sections 2.1 and 2.2).
ghost use Rattle.std.specs.Prelude.{◌≡◌, ◌≤◌, length, MatchOption, IsTrue};
ghost use Rattle.std.specs.Str.{str_to_ascii_lowercase};
ghost use Rattle.lang_core.specs.Text.{subtags};
ghost use Rattle.lang_core.specs.Grammar.{are_allowed, IsFirstRefused, basic_piece, extended_piece};
ghost use Rattle.lang_core.specs.Grammar.{is_star, BasicRange, ExtendedRange};

use crate::pieces::{HYPHEN, Pieces};
use crate::subtag::Subtag;

/// Where the first piece begins that a basic range may not have there (RFC 4647 section 2.1):
/// `(1*8ALPHA *("-" 1*8alphanum)) / "*"`.
pub(crate) fn basic_fault(text: &[u8]) -> Option<usize>
    requires { length text.now ≤ 255 }
    ensures { let list = subtags text.now in MatchOption result
        (BasicRange list)
        (λ offset. ¬ BasicRange list × IsFirstRefused basic_piece list offset) }
{
    if is_star(text) {
        return None;
    }
    RangeSyntax::Basic.first_refused(text)
}

/// The same for an extended range (RFC 4647 section 2.2):
/// `(1*8ALPHA / "*") *("-" (1*8alphanum / "*"))`.
pub(crate) fn extended_fault(text: &[u8]) -> Option<usize>
    requires { length text.now ≤ 255 }
    ensures { let list = subtags text.now in MatchOption result
        (ExtendedRange list)
        (λ offset. ¬ ExtendedRange list × IsFirstRefused extended_piece list offset) }
{
    RangeSyntax::Extended.first_refused(text)
}

/// Whether the piece is "*".
#[tactic(auto, unfolding(crate::specs::Grammar::is_star))]
pub(crate) fn is_star(piece: &[u8]) -> bool
    ensures { result ≡ is_star piece.now }
{
    match piece {
        [only] => *only == b'*',
        _ => false,
    }
}

/// Which subtags each place of a range may have, except for the lone "*" of a basic range.
#[derive(Clone, Copy)]
enum RangeSyntax {
    Basic,
    Extended,
}

impl RangeSyntax {
    ghost use Rattle.lang_core.specs.inner.RangeSyntax.{allowed_by};

    /// Whether a range may have the piece at the place.
    fn allows(self, place: usize, piece: &[u8]) -> bool
        ensures { result ≡ allowed_by self place (str_to_ascii_lowercase piece.now) }
    {
        match self {
            RangeSyntax::Basic => is_basic_piece(place, piece),
            RangeSyntax::Extended => is_star(piece) || is_basic_piece(place, piece),
        }
    }

    /// Where the first piece begins that is not allowed at its place.
    fn first_refused(self, text: &[u8]) -> Option<usize>
        requires { length text.now ≤ 255 }
        ensures { let list = subtags text.now in MatchOption result
            (IsTrue (are_allowed (allowed_by self) 0 list))
            (IsFirstRefused (allowed_by self) list) }
    {
        let mut offset = 0;
        let mut place = 0;
        for piece in Pieces::new(text, HYPHEN) {
            if !self.allows(place, piece) {
                return Some(offset);
            }
            offset += piece.len() + 1;
            place += 1;
        }
        None
    }
}

/// Whether a basic range of several pieces may have the piece at the place.
fn is_basic_piece(place: usize, piece: &[u8]) -> bool
    ensures { result ≡ basic_piece place (str_to_ascii_lowercase piece.now) }
{
    match Subtag::read(piece) {
        Some(subtag) => place > 0 || subtag.is_first_of_range(),
        None => false,
    }
}
