//! The entries of a summary, one by one.

ghost use Rattle.std.specs.Iterator.{YieldsFirstBy, item_count};

use cell_core::{Entry, MessageId, Stamp};
use lang_core::Lang;

/// Iterates over the keys of a summary, each with its stamp, in ascending order of key.
#[derive(Debug, Drop)]
pub struct SummaryEntries<'a> {
    entries: &'a [Entry<Stamp>],
}

impl<'a> SummaryEntries<'a> {
    ghost use Rattle.std.specs.Prelude.{◌≡◌};
    ghost use Rattle.cata_core.specs.SummaryEntries.{stamps_left};

    /// The entries of this slice.
    pub(crate) fn new(entries: &'a [Entry<Stamp>]) -> SummaryEntries<'a>
        ensures { stamps_left result ≡ entries.now }
    {
        SummaryEntries { entries }
    }
}

/// Gives the entries that are left, in ascending order of key.
impl<'a> Iterator for SummaryEntries<'a> {
    type Item = (&'a MessageId, &'a Lang, Stamp);

    ghost use Rattle.cata_core.specs.SummaryEntries.{stamps_left};

    ghost next_gives = { YieldsFirstBy (λ x. ((x.0.now, x.1.now), x.2)) stamps_left };

    ghost remaining = { item_count stamps_left };

    fn next(&mut self) -> Option<(&'a MessageId, &'a Lang, Stamp)> {
        let (first, rest) = self.entries.split_first()?;
        self.entries = rest;
        Some((first.id(), first.lang(), *first.value()))
    }
}
