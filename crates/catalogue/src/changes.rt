//! What changed between two catalogues, one by one.

ghost use Rattle.std.specs.Prelude.{◌≡◌};
ghost use Rattle.std.specs.Iterator.{YieldsFirstBy, item_count};
ghost use Rattle.std.specs.Option.{option_copied};
ghost use Rattle.catalogue.specs.Changes.{is_same};
ghost use Rattle.catalogue.specs.ChangesLeft.{change_seen};
ghost use Rattle.cell_core.specs.Entry.{key_cmp};
ghost use Rattle.catalogue.specs.Equality.{seen};

use crate::cells::Cells;
use cell_core::{Cell, MessageId};
use lang_core::Lang;
use std::cmp::Ordering;

/// A key at which two catalogues differ, borrowed from them.
#[derive(Clone, Copy, Debug)]
pub struct Change<'a> {
    /// The message.
    pub id: &'a MessageId,
    /// The language.
    pub lang: &'a Lang,
    /// The cell of the catalogue before, where it has one.
    pub before: Option<&'a Cell>,
    /// The cell of the catalogue after, where it has one.
    pub after: Option<&'a Cell>,
}

/// Iterates over the keys at which two catalogues differ, in ascending order of key.
#[derive(Debug, Drop)]
pub struct Changes<'a> {
    sides: BothSides<'a>,
}

impl<'a> Changes<'a> {
    ghost use Rattle.catalogue.specs.Cells.{cells_left};
    ghost use Rattle.catalogue.specs.ChangesLeft.{changes_left, differing, side_by_side};

    /// The changes from these cells to those.
    pub(crate) fn new(before: Cells<'a>, after: Cells<'a>) -> Changes<'a>
        ensures { changes_left result
            ≡ differing (side_by_side (cells_left before.entry) (cells_left after.entry)) }
    {
        Changes {
            sides: BothSides {
                before: Ahead::new(before),
                after: Ahead::new(after),
            },
        }
    }
}

/// Gives the changes that are left, in ascending order of key.
impl<'a> Iterator for Changes<'a> {
    type Item = Change<'a>;

    ghost use Rattle.catalogue.specs.ChangesLeft.{change_seen, changes_left};

    ghost next_gives = { YieldsFirstBy change_seen changes_left };

    ghost remaining = { item_count changes_left };

    fn next(&mut self) -> Option<Change<'a>> {
        while let Some(change) = self.sides.next() {
            if !are_same(change.before, change.after) {
                return Some(change);
            }
        }
        None
    }
}

/// Iterates over the keys of either of two catalogues, each with what both have there, in ascending
/// order of key.
#[derive(Debug, Drop)]
struct BothSides<'a> {
    before: Ahead<'a>,
    after: Ahead<'a>,
}

impl<'a> Iterator for BothSides<'a> {
    type Item = Change<'a>;

    ghost use Rattle.catalogue.specs.ChangesLeft.{change_seen, sides_left};

    ghost next_gives = { YieldsFirstBy change_seen sides_left };

    ghost remaining = { item_count sides_left };

    fn next(&mut self) -> Option<Change<'a>> {
        match (self.before.first, self.after.first) {
            (Some(mine), Some(other)) => match compare(mine, other) {
                Ordering::Less => {
                    self.before.advance();
                    Some(at_key(mine, Some(mine.2), None))
                }
                Ordering::Equal => {
                    self.before.advance();
                    self.after.advance();
                    Some(at_key(mine, Some(mine.2), Some(other.2)))
                }
                Ordering::Greater => {
                    self.after.advance();
                    Some(at_key(other, None, Some(other.2)))
                }
            },
            (Some(mine), None) => {
                self.before.advance();
                Some(at_key(mine, Some(mine.2), None))
            }
            (None, Some(other)) => {
                self.after.advance();
                Some(at_key(other, None, Some(other.2)))
            }
            (None, None) => None,
        }
    }
}

/// The cells that are left, of which the first is seen before it is taken.
#[derive(Debug, Drop)]
struct Ahead<'a> {
    first: Option<(&'a MessageId, &'a Lang, &'a Cell)>,
    rest: Cells<'a>,
}

impl<'a> Ahead<'a> {
    ghost use Rattle.catalogue.specs.Cells.{cells_left};
    ghost use Rattle.catalogue.specs.ChangesLeft.{ahead_left};

    /// All these cells.
    fn new(cells: Cells<'a>) -> Ahead<'a>
        ensures { ahead_left result ≡ cells_left cells.entry }
    {
        let mut rest = cells;
        let first = rest.next();
        Ahead { first, rest }
    }

    /// Goes past the first.
    fn advance(&mut self)
        ensures { ahead_left self.new ≡ cells_left self.old.rest }
    {
        self.first = self.rest.next();
    }
}

/// By the message, then by the language.
fn compare(mine: (&MessageId, &Lang, &Cell), other: (&MessageId, &Lang, &Cell)) -> Ordering
    ensures { result ≡ key_cmp (seen mine.entry).0 (seen other.entry).0 }
{
    mine.0.cmp(other.0).then(mine.1.cmp(other.1))
}

/// The key of the entry, with what both have there.
fn at_key<'a>(
    entry: (&'a MessageId, &'a Lang, &'a Cell),
    before: Option<&'a Cell>,
    after: Option<&'a Cell>,
) -> Change<'a>
    ensures { change_seen result
        ≡ ((seen entry.entry).0, (option_copied before.entry, option_copied after.entry)) }
{
    Change {
        id: entry.0,
        lang: entry.1,
        before,
        after,
    }
}

/// Whether both have equal cells, or neither has one.
fn are_same(before: Option<&Cell>, after: Option<&Cell>) -> bool
    ensures { result ≡ is_same (option_copied before.entry) (option_copied after.entry) }
{
    match (before, after) {
        (Some(before), Some(after)) => before == after,
        (None, None) => true,
        _ => false,
    }
}
