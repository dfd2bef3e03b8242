//! Laws of names, stamps and cells over their definitions alone: each is the contract of a function
//! without parameters.

ghost use Rattle.std.specs.Prelude.{◌≡◌, ◌<◌, ◌^◌, ℕ, List};
ghost use Rattle.std.specs.Ordering.{nat_cmp};
ghost use Rattle.std.specs.Cmp.Lexicographic.{slice_cmp};
ghost use Rattle.cell_core.specs.SiteName.{IsSiteName, padded_name};
ghost use Rattle.cell_core.specs.ZeroPadded.{zero_padded};
ghost use Rattle.cell_core.specs.Stamp.{stamp_cmp};
ghost use Rattle.cell_core.specs.Cell.{AgreeStamps, joined_stamps, AgreeCells, joined_cells};
ghost use Rattle.cell_core.specs.CellMigration.{OldStamp, IsOldStamp, OldCell, old_stamp_cmp};
ghost use Rattle.cell_core.specs.CellMigration.{AgreeOldStamps, joined_old_stamps, AgreeOldCells};
ghost use Rattle.cell_core.specs.CellMigration.{joined_old_cells, migrated_stamp, migrated_cell};
ghost use Rattle.cell_core.specs.CellMigration.{KeepsJoins};

use crate::stamp::Stamp;

/// Names padded with zero bytes to 16 are in the order of the names.
pub fn filled_names_keep_order()
    ensures { (x y : List ℕ) → IsSiteName x → IsSiteName y
        → slice_cmp nat_cmp (zero_padded 16 x) (zero_padded 16 y) ≡ slice_cmp nat_cmp x y }
{}

/// The padded names of numbers are site names.
pub fn padded_names_are_names()
    ensures { (n : ℕ) → n < 2 ^ 32 → IsSiteName (padded_name n) }
{}

/// The padded names of numbers are in the order of the numbers, so different numbers have different
/// names.
pub fn padded_names_keep_order()
    ensures { (m n : ℕ) → m < 2 ^ 32 → n < 2 ^ 32
        → slice_cmp nat_cmp (padded_name m) (padded_name n) ≡ nat_cmp m n }
{}

/// Stamps compare by time, then by the bytes of the site's name, then by count.
pub fn stamps_compare_by_parts()
    ensures { (s t : Stamp) → ⟦<Stamp as Ord>⟧.cmp s t ≡ stamp_cmp s t }
{}

/// Migration keeps the order of stamps: they compare after it as they did before.
pub fn migration_keeps_order()
    ensures { (s t : OldStamp) → IsOldStamp s → IsOldStamp t
        → stamp_cmp (migrated_stamp s) (migrated_stamp t) ≡ old_stamp_cmp s t }
{}

/// Migration keeps the joins of stamps.
pub fn migration_keeps_stamp_joins()
    ensures { (s t : OldStamp) → IsOldStamp s → IsOldStamp t
        → KeepsJoins migrated_stamp AgreeOldStamps joined_old_stamps AgreeStamps joined_stamps s t }
{}

/// Migration keeps the joins of cells: two agree after it exactly where they did before, and then
/// their join is the migrated join.
pub fn migration_keeps_cell_joins()
    ensures { (a b : OldCell) → IsOldStamp a.stamp → IsOldStamp b.stamp
        → KeepsJoins migrated_cell AgreeOldCells joined_old_cells AgreeCells joined_cells a b }
{}
