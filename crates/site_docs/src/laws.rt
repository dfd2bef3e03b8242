//! Laws over the definitions alone, each the contract of a function that does nothing.
ghost use Rattle.std.specs.Prelude.{◌≡◌, ℕ, IsUtf8, List};
ghost use Rattle.cell_core.specs.SiteName.{IsSiteName};
ghost use Rattle.cata_core.specs.Site.{SiteState};
ghost use Rattle.cata_core.specs.Summary.{SummaryState};
ghost use Rattle.cata_core.specs.declared.delta.Delta.{Delta};
ghost use Rattle.row_docs.specs.EntriesValid.{AreKeptCells, AreKeptStamps};
ghost use Rattle.site_docs.specs.Documents.{delta_text, site_text, summary_text};
ghost use Rattle.site_docs.specs.Reading.{ReadsAsDelta, ReadsAsSite, ReadsAsSummary};
ghost use Rattle.serde_json.specs.Data.{Data};
ghost use Rattle.cata_core.specs.SiteMigration.{OldDelta, OldSite, OldSummary, migrated_delta};
ghost use Rattle.cata_core.specs.SiteMigration.{migrated_site, migrated_summary};
ghost use Rattle.row_docs.specs.Headers.{version_of};
ghost use Rattle.site_docs.specs.SiteDocuments.{IsDeltaDocument, IsSiteDocument, IsSummaryDocument};
ghost use Rattle.row_docs.specs.declared.version.Version.TheVariants.{One};
ghost use Rattle.site_docs.specs.DocumentsMigration.{IsOldDeltaDocument, IsOldSiteDocument};
ghost use Rattle.site_docs.specs.DocumentsMigration.{IsOldSummaryDocument};

/// The text that is written for a site reads as that site.
pub fn written_site_reads()
    ensures { (site : SiteState) → IsSiteName site.name → AreKeptCells site.cells
        → IsUtf8 (site_text site) → ReadsAsSite (site_text site) site }
{}

/// The text that is written for a delta reads as that delta.
pub fn written_delta_reads()
    ensures { (delta : Delta) → IsSiteName delta.addressee → AreKeptCells delta.cells
        → IsUtf8 (delta_text delta) → ReadsAsDelta (delta_text delta) delta }
{}

/// The text that is written for a summary reads as that summary.
pub fn written_summary_reads()
    ensures { (summary : SummaryState) → IsSiteName summary.owner → AreKeptStamps summary.stamps
        → IsUtf8 (summary_text summary) → ReadsAsSummary (summary_text summary) summary }
{}

/// A text reads as one site at most.
pub fn one_site()
    ensures { (bytes : List ℕ) (s t : SiteState) → ReadsAsSite bytes s → ReadsAsSite bytes t
        → s ≡ t }
{}

/// A text reads as one delta at most.
pub fn one_delta()
    ensures { (bytes : List ℕ) (s t : Delta) → ReadsAsDelta bytes s → ReadsAsDelta bytes t → s ≡ t }
{}

/// A text reads as one summary at most.
pub fn one_summary()
    ensures { (bytes : List ℕ) (s t : SummaryState) → ReadsAsSummary bytes s
        → ReadsAsSummary bytes t → s ≡ t }
{}

/// A site is read as the migrated site that its document has.
pub fn a_site_reads_as_migrated()
    ensures { (d : Data) (site : SiteState) → version_of d ≡ One → IsSiteDocument d site
        → (old : OldSite) × IsOldSiteDocument d old × (site ≡ migrated_site old) }
{}

/// A delta is read as the migrated delta that its document has.
pub fn a_delta_reads_as_migrated()
    ensures { (d : Data) (delta : Delta) → version_of d ≡ One → IsDeltaDocument d delta
        → (old : OldDelta) × IsOldDeltaDocument d old × (delta ≡ migrated_delta old) }
{}

/// A summary is read as the migrated summary that its document has.
pub fn a_summary_reads_as_migrated()
    ensures { (d : Data) (summary : SummaryState) → version_of d ≡ One → IsSummaryDocument d summary
        → (old : OldSummary) × IsOldSummaryDocument d old × (summary ≡ migrated_summary old) }
{}
