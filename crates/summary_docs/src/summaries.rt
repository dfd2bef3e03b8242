//! The summary of a site, with labels or without, and the delta for one.
ghost use Rattle.std.specs.Prelude.{◌≡◌, IfOk, MatchResult};
ghost use Rattle.cata_core.specs.Site.{SiteState};
ghost use Rattle.json_docs.specs.FaultChecks.{OrMemory};
ghost use Rattle.row_docs.specs.Reading.{IsOfDocument, no_memory};
ghost use Rattle.site_docs.specs.Reading.{IsDeltaText, ReadsAsSite, RefusesSite};
ghost use Rattle.summary_docs.specs.Reading.{ReadsAsShown, RefusesShown};
ghost use Rattle.summary_docs.specs.Shown.{ShownState, delta_for, shown_of};
ghost use Rattle.summary_docs.specs.Writing.{IsShownText, IsSummaryBy};

use crate::lacked_rows::LackedRows;
use crate::reading::shown_at;
use crate::shown::ShownSummary;
use crate::writing::write_shown;
use cata_core::Site;
use cell_core::SiteName;
use json_docs::{Doc, DocFault};
use site_docs::{document_summary, show_catalogue, show_document, write_summary};
use std::alloc::{AllocError, Global};

/// What a summary shows of each cell.
#[derive(Clone, Copy, Debug, PartialEq, Eq)]
pub enum Shows {
    /// Its stamp.
    Stamps,
    /// Its stamp, and a digest of its label.
    Labels,
}

/// The document of the summary of the site of the input document with this number.
///
/// Refused as the document is by its reader, with its number, or since memory ran out (26).
pub fn summary_of_document(
    alloc: Global,
    document: usize,
    bytes: &[u8],
    shows: Shows,
) -> Result<Doc, DocFault>
    ensures { MatchResult result (λ doc. (site : SiteState) × ReadsAsSite bytes.now site
        × IsSummaryBy shows site doc)
        (OrMemory no_memory (IsOfDocument document (RefusesSite bytes.now))) }
{
    match shows {
        Shows::Stamps => document_summary(alloc, document, bytes),
        Shows::Labels => labels_of_document(alloc, document, bytes),
    }
}

/// The document of the summary of a site, which reads as that summary.
///
/// Its one refusal is out of memory (26).
pub fn summary_of_site(alloc: Global, site: &Site, shows: Shows) -> Result<Doc, AllocError>
    ensures { IfOk result (IsSummaryBy shows site.now) }
{
    match shows {
        Shows::Stamps => {
            let summary = site.summary(alloc)?;
            write_summary(alloc, &summary)
        }
        Shows::Labels => labels_of_site(alloc, site),
    }
}

/// The document of the delta of what a summary lacks of the site, for the summary's owner.
///
/// Refused as [`shown_at`] refuses the summary, by document 1, or since memory ran out (26).
pub fn delta_of_site(alloc: Global, site: &Site, summary: &[u8]) -> Result<Doc, DocFault>
    ensures { MatchResult result (λ doc. (shown : ShownState) × ReadsAsShown summary.now shown
        × IsDeltaText (record {
          addressee = shown.summary.owner;
          cells = delta_for site.now.cells shown;
        }) doc)
        (OrMemory no_memory (IsOfDocument 1 (RefusesShown summary.now))) }
{
    let summary = shown_at(alloc, 1, summary)?;
    let start = LackedRows::new(alloc, &summary, 0)?;
    let rows = show_catalogue(alloc, site.catalogue(), &start)?;
    let doc = rows.close(alloc, summary.owner())?;
    Ok(doc)
}

/// The document of the summary with labels of the site of a document.
fn labels_of_document(alloc: Global, document: usize, bytes: &[u8]) -> Result<Doc, DocFault>
    ensures { MatchResult result (λ doc. (site : SiteState) × ReadsAsSite bytes.now site
        × IsShownText (shown_of site.name site.cells) doc)
        (OrMemory no_memory (IsOfDocument document (RefusesSite bytes.now))) }
{
    let start = ShownSummary::empty(alloc, SiteName::of_number(0));
    let (name, shown) = show_document(alloc, document, bytes, &start)?;
    let shown = shown.with_owner(name);
    let doc = write_shown(alloc, &shown)?;
    Ok(doc)
}

/// The document of the summary with labels of a site.
fn labels_of_site(alloc: Global, site: &Site) -> Result<Doc, AllocError>
    ensures { IfOk result (IsShownText (shown_of site.now.name site.now.cells)) }
{
    let start = ShownSummary::empty(alloc, SiteName::of_number(0));
    let shown = show_catalogue(alloc, site.catalogue(), &start)?;
    let shown = shown.with_owner(site.name());
    write_shown(alloc, &shown)
}
