//! Laws: a document of version 1 is read as what its plain data become.
ghost use Rattle.std.specs.Prelude.{◌≡◌, List, ℕ};
ghost use Rattle.serde_json.specs.Data.{Data};
ghost use Rattle.cata_core.specs.SiteMigration.{AgreeOld, OldDelta, OldSite, OldSummary};
ghost use Rattle.cata_core.specs.SiteMigration.{joined_old, migrated_delta};
ghost use Rattle.cata_core.specs.SiteMigration.{migrated_site, migrated_summary};
ghost use Rattle.cata_core.specs.Site.{SiteState};
ghost use Rattle.cata_core.specs.Summary.{SummaryState};
ghost use Rattle.cata_core.specs.declared.delta.Delta.{Delta};
ghost use Rattle.json_docs.specs.FaultChecks.{AreJson};
ghost use Rattle.row_docs.specs.Headers.{version_of};
ghost use Rattle.site_docs.specs.Reading.{ReadsAsDelta, ReadsAsSite, ReadsAsSummary};
ghost use Rattle.row_docs.specs.declared.version.Version.TheVariants.{One};
ghost use Rattle.script_docs.specs.Reading.{ReadsAsScript};
ghost use Rattle.script_docs.specs.Scripts.{ScriptState};
ghost use Rattle.docs_core.specs.Calls.{AreSynced};
ghost use Rattle.site_docs.specs.declared.checks.Checks.{Checks};
ghost use Rattle.site_docs.specs.DocumentsMigration.{IsOldDeltaDocument};
ghost use Rattle.script_docs.specs.ScriptsMigration.{IsOldScriptDocument};
ghost use Rattle.site_docs.specs.DocumentsMigration.{IsOldSiteDocument, IsOldSummaryDocument};
ghost use Rattle.script_docs.specs.ScriptsMigration.{OldScript};
ghost use Rattle.script_docs.specs.ScriptsMigration.{migrated_script};
ghost use Rattle.docs_core.specs.MigrationSites.{IsOldDelta, IsOldScript, IsOldSite, IsOldSummary};

pub use row_docs::laws::a_row_reads_as_migrated;
pub use script_docs::laws::a_script_reads_as_migrated;
pub use site_docs::laws::{
    a_delta_reads_as_migrated, a_site_reads_as_migrated, a_summary_reads_as_migrated,
};

/// The answer of a reader on a text of version 1 is the migrated value of the data in the text,
/// whose numbers fit and whose keys ascend.
pub fn a_text_reads_as_migrated()
    ensures site { (bytes : List ℕ) (d : Data) (site : SiteState) → AreJson bytes d
        → version_of d ≡ One → ReadsAsSite bytes site
        → (old : OldSite) × IsOldSite old × IsOldSiteDocument d old × (site ≡ migrated_site old) }
    ensures delta { (bytes : List ℕ) (d : Data) (delta : Delta) → AreJson bytes d
        → version_of d ≡ One → ReadsAsDelta bytes delta
        → (old : OldDelta) × IsOldDelta old × IsOldDeltaDocument d old
        × (delta ≡ migrated_delta old) }
    ensures summary { (bytes : List ℕ) (d : Data) (summary : SummaryState) → AreJson bytes d
        → version_of d ≡ One → ReadsAsSummary bytes summary
        → (old : OldSummary) × IsOldSummary old × IsOldSummaryDocument d old
        × (summary ≡ migrated_summary old) }
    ensures script { (bytes : List ℕ) (d : Data) (script : ScriptState) → AreJson bytes d
        → version_of d ≡ One → ReadsAsScript bytes script
        → (old : OldScript) × IsOldScript old × IsOldScriptDocument d old
        × (script ≡ migrated_script old) }
{}

/// Where two sites of version 1 sync, they agree as they are, and each of the documents reads as
/// its site with the migrated join of both.
pub fn a_sync_gives_the_migrated_join()
    ensures { (checks : Checks) (a b x y : List ℕ) (d e : Data) (first second : OldSite)
        → AreJson a d
        → version_of d ≡ One → IsOldSiteDocument d first → AreJson b e → version_of e ≡ One
        → IsOldSiteDocument e second → AreSynced checks a b x y
        → let cells = joined_old first.cells second.cells in
        AgreeOld first.cells second.cells
        × ReadsAsSite x (migrated_site (record { number = first.number; cells = cells }))
        × ReadsAsSite y (migrated_site (record { number = second.number; cells = cells })) }
{}
