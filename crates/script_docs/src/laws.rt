//! Laws over the definitions alone, each the contract of a function that does nothing.
ghost use Rattle.std.specs.Prelude.{◌≡◌, ◌≤◌, ℕ, List, length};
ghost use Rattle.list_core.specs.Item.{Item};
ghost use Rattle.list_core.specs.declared.scheme.Scheme.{Scheme};
ghost use Rattle.script_docs.specs.FieldWriting.{field_text};
ghost use Rattle.script_docs.specs.Reading.{ReadsAsScript, IsScriptDocument};
ghost use Rattle.script_docs.specs.Scripts.{ScriptState};
ghost use Rattle.script_docs.specs.StepFields.{Lists};
ghost use Rattle.serde_json.specs.Data.{Data};
ghost use Rattle.row_docs.specs.Headers.{version_of};
ghost use Rattle.row_docs.specs.declared.version.Version.TheVariants.{One};
ghost use Rattle.script_docs.specs.ScriptsMigration.{IsOldScriptDocument, OldScript};
ghost use Rattle.script_docs.specs.ScriptsMigration.{migrated_script};

/// A text reads as one script at most.
pub fn one_script()
    ensures { (bytes : List ℕ) (s t : ScriptState) → ReadsAsScript bytes s
        → ReadsAsScript bytes t → s ≡ t }
{}

/// The field that a script has for a priority list reads as it, and none that does is shorter.
pub fn a_written_field_is_the_shortest()
    ensures { (scheme : Scheme) (field : List ℕ) (items : List Item) → Lists scheme field items
        → Lists scheme (field_text items) items × (length (field_text items) ≤ length field) }
{}

/// A script is read as the migrated script that its document has.
pub fn a_script_reads_as_migrated()
    ensures { (d : Data) (script : ScriptState) → version_of d ≡ One → IsScriptDocument d script
        → (old : OldScript) × IsOldScriptDocument d old × (script ≡ migrated_script old) }
{}
