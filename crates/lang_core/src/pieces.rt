//! Texts cut at a separator.
ghost use Rattle.std.specs.Prelude.{◌≡◌, ◌==◌, ◌∷◌, [], ◌<◌, length, position, IfSome, IfNone};
ghost use Rattle.std.specs.Iterator.{YieldsFirstBy, item_count};
ghost use Rattle.lang_core.specs.Text.{pieces_by};

/// The separator of the subtags of a tag or a range.
pub(crate) const HYPHEN: u8 = b'-';

/// The pieces of a text between its separators, in order. A text with n separators has n + 1
/// pieces, and some of them may be empty.
#[derive(Clone, Debug, Drop)]
pub(crate) struct Pieces<'a> {
    separator: u8,
    rest: Option<&'a [u8]>,
}

impl<'a> Pieces<'a> {
    ghost use Rattle.lang_core.specs.inner.Pieces.{pieces_left};

    /// The pieces of any bytes between the bytes that are the separator.
    pub(crate) fn new(text: &'a [u8], separator: u8) -> Pieces<'a>
        ensures { pieces_left result ≡ pieces_by separator text.now }
    {
        Pieces {
            separator,
            rest: Some(text),
        }
    }
}

impl<'a> Iterator for Pieces<'a> {
    type Item = &'a [u8];

    ghost use Rattle.lang_core.specs.inner.Pieces.{pieces_left};

    ghost next_gives = { YieldsFirstBy (λ x. x.now) pieces_left };

    ghost remaining = { item_count pieces_left };

    fn next(&mut self) -> Option<&'a [u8]> {
        let rest = self.rest?;
        match cut(rest, self.separator) {
            Some((first, others)) => {
                self.rest = Some(others);
                Some(first)
            }
            None => {
                self.rest = None;
                Some(rest)
            }
        }
    }
}

/// The place of the first separator.
pub(crate) fn separator_at(text: &[u8], separator: u8) -> Option<usize>
    ensures { result ≡ position (λ b. b == separator) text.now }
{
    text.iter().position(|b| *b == separator)
}

/// The first piece and the text after its separator, where there is one.
#[tactic(auto, using(crate::proofs::PiecesLemmas::cuts))]
fn cut(text: &[u8], separator: u8) -> Option<(&[u8], &[u8])>
    ensures whole { IfNone result (pieces_by separator text.now ≡ text.now ∷ []) }
    ensures parts { IfSome result
        (λ x. pieces_by separator text.now ≡ x.0.now ∷ pieces_by separator x.1.now) }
{
    match separator_at(text, separator) {
        Some(at) => Some((&text[..at], &text[at + 1..])),
        None => None,
    }
}
