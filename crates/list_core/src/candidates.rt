//! The texts that lookup tries for an item.
ghost use Rattle.std.specs.Prelude.{◌≡◌};
ghost use Rattle.std.specs.Iterator.{YieldsFirstBy, item_count};
ghost use Rattle.lang_core.specs.Text.{pieces};

use lang_core::Truncations;

/// The texts that lookup tries for an item, in the order in which it tries them. It takes no
/// memory.
#[derive(Drop)]
pub enum Candidates<'a> {
    /// The lookup text of the range, and what is left as it is truncated (RFC 4647 section 3.4).
    Truncated(Truncations<'a>),
    /// These texts, of a table of fallbacks.
    Listed(&'a [String]),
}

/// Gives the texts that are left.
impl<'a> Iterator for Candidates<'a> {
    type Item = &'a str;

    ghost use Rattle.list_core.specs.Candidates.{candidates_left};

    ghost next_gives = { YieldsFirstBy (λ x. pieces x.now) candidates_left };

    ghost remaining = { item_count candidates_left };

    fn next(&mut self) -> Option<&'a str> {
        match self {
            Candidates::Truncated(texts) => texts.next(),
            Candidates::Listed(texts) => match *texts {
                [first, rest @ ..] => {
                    *texts = rest;
                    Some(first.as_str())
                }
                [] => None,
            },
        }
    }
}
