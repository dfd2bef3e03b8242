//! Laws over the definitions alone, each the contract of a function that does nothing.
ghost use Rattle.serde_json.specs.Data.{Data};
ghost use Rattle.row_docs.specs.WritingTexts.{IsOneLine, text};
ghost use Rattle.std.specs.Prelude.{◌≡◌, Some, List, Option, ℕ};
ghost use Rattle.cata_core.specs.SiteMigration.{OldEntry, migrated_entry};
ghost use Rattle.row_docs.specs.Fields.{entry_of};
ghost use Rattle.row_docs.specs.ShapesRows.{cell_in};
ghost use Rattle.row_docs.specs.EntriesValues.{Row};
ghost use Rattle.row_docs.specs.declared.version.Version.TheVariants.{One};
ghost use Rattle.row_docs.specs.ShapesMigration.{old_entry_in};

/// What is written for a value is one line, and ends in its line feed.
pub fn a_written_text_is_one_line()
    ensures { (value : Data) → IsOneLine (text value) }
{}

/// A row with a cell is read as the migrated cell that it has.
pub fn a_row_reads_as_migrated()
    ensures { (d : Data) (p : Row × Option (List (List ℕ))) → cell_in One d ≡ Some p
        → (old : OldEntry) × (old_entry_in d ≡ Some old) × (migrated_entry old ≡ entry_of p.0 p.1) }
{}
