//! The subtags of a tag or a range, one after another.
ghost use Rattle.std.specs.Prelude.{◌≡◌, ◌∷◌, [], MatchOption, position};
ghost use Rattle.std.specs.Iterator.{YieldsFirstBy, item_count};
ghost use Rattle.lang_core.specs.Text.{pieces};
ghost use Rattle.lang_core.specs.Grammar.{AreAll, is_private_piece};
ghost use Rattle.lang_core.specs.inner.Kind.{is_of};
ghost use Rattle.lang_core.specs.inner.SubtagsRuns.{IsSplit, TakesRun};

use crate::kind::Kind;
use crate::pieces::{HYPHEN, separator_at};

/// The subtags of a tag, of a part of it or of a range as slices of its text, in order; each "*" is
/// one. It takes no memory.
#[derive(Clone, Debug, Drop)]
pub struct Subtags<'a> {
    rest: Option<&'a str>,
}

impl<'a> Subtags<'a> {
    ghost use Rattle.lang_core.specs.Subtags.{subtags_left};

    /// The subtags of this text.
    pub(crate) fn new(text: &'a str) -> Subtags<'a>
        ensures { subtags_left result ≡ pieces text.now }
    {
        Subtags { rest: Some(text) }
    }

    /// No subtags.
    pub(crate) fn none() -> Subtags<'a>
        ensures { subtags_left result ≡ [] }
    {
        Subtags { rest: None }
    }

    /// The first subtags, all that are of the kind, and those after them.
    pub(crate) fn split_run(self, kind: Kind) -> (Subtags<'a>, Subtags<'a>)
        requires { AreAll is_private_piece (subtags_left self) }
        ensures { IsSplit (is_of kind) (subtags_left self.entry)
            (subtags_left result.0) (subtags_left result.1) }
    {
        match self.rest {
            Some(text) => Subtags::split_text(text, kind),
            None => (Subtags::none(), Subtags::none()),
        }
    }

    /// The first subtags of the text, all that are of the kind, and those after them.
    fn split_text(text: &'a str, kind: Kind) -> (Subtags<'a>, Subtags<'a>)
        requires { AreAll is_private_piece (pieces text.now) }
        ensures { IsSplit (is_of kind) (pieces text.now)
            (subtags_left result.0) (subtags_left result.1) }
    {
        let len = run_len(text, kind);
        if len == 0 {
            (Subtags::none(), Subtags::new(text))
        } else if len > text.len() {
            (Subtags::new(text), Subtags::none())
        } else {
            (Subtags::new(&text[..len - 1]), Subtags::new(&text[len..]))
        }
    }
}

/// Gives the subtags that are left, in order.
impl<'a> Iterator for Subtags<'a> {
    type Item = &'a str;

    ghost use Rattle.lang_core.specs.Subtags.{subtags_left};

    ghost next_gives = { YieldsFirstBy (λ x. x.now) subtags_left };

    ghost remaining = { item_count subtags_left };

    fn next(&mut self) -> Option<&'a str> {
        let rest = self.rest?;
        match cut_first(rest) {
            Some((first, others)) => {
                self.rest = Some(others);
                Some(first)
            }
            None => {
                self.rest = None;
                Some(rest)
            }
        }
    }
}

/// The bytes of the first subtags, all that are of the kind, with a hyphen after each.
fn run_len(text: &str, kind: Kind) -> usize
    requires { AreAll is_private_piece (pieces text.now) }
    ensures { TakesRun (is_of kind) (pieces text.now) result }
{
    let mut len = 0;
    for subtag in Subtags::new(text) {
        if !kind.has(subtag) {
            return len;
        }
        len += subtag.len() + 1;
    }
    len
}

/// The first subtag and the text after its hyphen, where there is one.
fn cut_first(text: &str) -> Option<(&str, &str)>
    ensures { MatchOption result
        (pieces text.now ≡ text.now ∷ [])
        (λ x. pieces text.now ≡ x.0.now ∷ pieces x.1.now) }
{
    match separator_at(text.as_bytes(), HYPHEN) {
        Some(at) => Some((&text[..at], &text[at + 1..])),
        None => None,
    }
}
