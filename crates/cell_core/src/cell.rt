//! Cells: a stamp with a label, or with none for a deletion.

ghost use Rattle.std.specs.Prelude.{◌≡◌, OnOk, OnErr};
ghost use Rattle.std.specs.Option.{option_copied};
ghost use Rattle.cell_core.specs.Cell.{AgreeCells, joined_cells};
ghost use Rattle.cell_core.specs.inner.Cell.{cell_laws};
ghost use Rattle.cell_core.specs.StampLater.{IsEitherOf};

use crate::join::Join;
use crate::label::Label;
use crate::stamp::Stamp;
use std::alloc::{AllocError, Global};

/// What a message has in one language: the stamp of its last edit, and its label.
///
/// A cell without a label is a deletion: a stamped edit like any other, and kept.
#[derive(Debug, PartialEq, Eq, Drop)]
pub struct Cell {
    /// The stamp of the last edit.
    pub stamp: Stamp,
    /// The label, or none where it was deleted.
    pub label: Option<Label>,
}

impl Cell {
    /// The cell with this stamp and label.
    pub fn new(stamp: Stamp, label: Option<Label>) -> Cell
        ensures { result ≡ record { stamp = stamp; label = label } }
    {
        Cell { stamp, label }
    }

    /// The stamp of the last edit.
    pub fn stamp(&self) -> Stamp
        ensures { result ≡ self.now.stamp }
    {
        self.stamp
    }

    /// The label; none where the last edit deleted it.
    pub fn label(&self) -> Option<&Label>
        ensures { option_copied result ≡ self.now.label }
    {
        self.label.as_ref()
    }
}

/// Cells agree unless one stamp has two labels, and their join is the one with the greater stamp. A
/// cell is unchanged when memory runs out.
impl Join for Cell {
    ghost agree = { AgreeCells };

    ghost joined = { joined_cells };

    ghost between = { IsEitherOf joined_cells };

    ghost laws = { cell_laws };

    fn agrees(&self, other: &Cell) -> bool {
        other.stamp != self.stamp || self.label == other.label
    }

    /// Keeps the cell with the greater stamp; when memory runs out this one stays as it was.
    fn join(&mut self, alloc: Global, other: &Cell) -> Result<(), AllocError>
        requires { AgreeCells self.old other.now }
        ensures ok { OnOk result (self.new ≡ joined_cells self.old other.now) }
        ensures err { OnErr result (self.new ≡ self.old) }
    {
        if self.stamp.cmp(&other.stamp).is_lt() {
            *self = other.copy(alloc)?;
        }
        Ok(())
    }

    fn copy(&self, alloc: Global) -> Result<Cell, AllocError> {
        let label = match &self.label {
            Some(label) => Some(label.copy(alloc)?),
            None => None,
        };
        Ok(Cell {
            stamp: self.stamp,
            label,
        })
    }
}
