//! When edits and catalogues are equal.

ghost use Rattle.std.specs.Prelude.{◌≡◌};
ghost use Rattle.std.specs.Cmp as laws_of;
ghost use Rattle.catalogue.specs.Cells.{cells_left};
ghost use Rattle.catalogue.specs.Equality.{entry_eq, entries_eq, seen};
ghost use Rattle.catalogue.specs.inner.Equality.{entry_equiv, entries_equiv};

use crate::catalogue::Catalogue;
use crate::cells::Cells;
use crate::edit::Edit;
use cell_core::{Cell, MessageId};
use lang_core::Lang;

/// Edits are equal where their keys and their cells are.
impl PartialEq for Edit {
    ghost eq = { entry_eq };

    ghost laws = { laws_of.partial_equiv_from_equiv entry_equiv };

    fn eq(&self, other: &Edit) -> bool {
        is_equal(
            (self.id(), self.lang(), self.cell()),
            (other.id(), other.lang(), other.cell()),
        )
    }
}

impl Eq for Edit {
    ghost laws = { entry_equiv };
}

/// The same cells of the same messages and languages.
impl PartialEq for Catalogue {
    ghost eq = { entries_eq };

    ghost laws = { laws_of.partial_equiv_from_equiv entries_equiv };

    fn eq(&self, other: &Catalogue) -> bool {
        are_equal(self.iter(), other.iter())
    }
}

impl Eq for Catalogue {
    ghost laws = { entries_equiv };
}

/// Whether the same cells are left, in the same order.
fn are_equal(mine: Cells<'_>, others: Cells<'_>) -> bool
    ensures { result ≡ entries_eq (cells_left mine.entry) (cells_left others.entry) }
{
    let mut mine = mine;
    let mut others = others;
    while let Some(cell) = mine.next() {
        let Some(other) = others.next() else {
            return false;
        };
        if !is_equal(cell, other) {
            return false;
        }
    }
    others.next().is_none()
}

/// Whether the keys are equal, and the cells.
fn is_equal(entry: (&MessageId, &Lang, &Cell), other: (&MessageId, &Lang, &Cell)) -> bool
    ensures { result ≡ entry_eq (seen entry.entry) (seen other.entry) }
{
    entry.0.cmp(other.0).then(entry.1.cmp(other.1)).is_eq() && entry.2 == other.2
}
