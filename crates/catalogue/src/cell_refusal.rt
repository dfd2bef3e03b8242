//! Why one cell is not joined.

ghost use Rattle.std.specs.Prelude.{◌≡◌};
ghost use Rattle.catalogue.specs.declared.cell_refusal.CellRefusal.TheVariants.{NoMemory};

use cell_core::Stamp;
use std::alloc::AllocError;

/// Why one cell is not joined to that of its key.
#[derive(Clone, Copy, Debug)]
pub(crate) enum CellRefusal {
    /// The stored cell has this stamp too, and another label.
    Clash(Stamp),
    /// An allocation was refused.
    NoMemory,
}

impl From<AllocError> for CellRefusal {
    ghost from_gives = { λ _ fault. fault ≡ NoMemory };

    fn from(_: AllocError) -> CellRefusal {
        CellRefusal::NoMemory
    }
}
