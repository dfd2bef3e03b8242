//! Documents, read.
ghost use Rattle.std.specs.Prelude.{MatchResult};
ghost use Rattle.json_docs.specs.FaultChecks.{OrMemory};
ghost use Rattle.row_docs.specs.Reading.{IsOfDocument};
ghost use Rattle.site_docs.specs.Reading.{ReadsAsDelta, ReadsAsSite, ReadsAsSummary};
ghost use Rattle.row_docs.specs.Reading.{no_memory};
ghost use Rattle.site_docs.specs.Reading.{RefusesDelta, RefusesSite, RefusesSummary};

use crate::document::site_documents::{delta_from, site_from, summary_from};
use cata_core::{Delta, Site, Summary};
use json_docs::DocFault;
use std::alloc::Global;

/// The site of a document of version 1 or 2. In version 1 each site number is read as its padded
/// name.
///
/// Refusals, in their order: 18, 19, 20 for the document, 28, 20 for the document, 27 for the
/// document; each row 20, 10, 1 to 4, 27, 12, 11, 21; 26, which may come before a later one. All
/// but 26 name document 1.
pub fn read_site(alloc: Global, bytes: &[u8]) -> Result<Site, DocFault>
    ensures { MatchResult result (ReadsAsSite bytes.now)
        (OrMemory no_memory (IsOfDocument 1 (RefusesSite bytes.now))) }
{
    site_at(alloc, 1, bytes)
}

/// The delta of a document of version 1 or 2; refusals as of [`read_site`].
pub fn read_delta(alloc: Global, bytes: &[u8]) -> Result<Delta, DocFault>
    ensures { MatchResult result (ReadsAsDelta bytes.now)
        (OrMemory no_memory (IsOfDocument 1 (RefusesDelta bytes.now))) }
{
    delta_at(alloc, 1, bytes)
}

/// The summary of a document of version 1 or 2; refusals as of [`read_site`], without those of
/// labels (12, 11).
pub fn read_summary(alloc: Global, bytes: &[u8]) -> Result<Summary, DocFault>
    ensures { MatchResult result (ReadsAsSummary bytes.now)
        (OrMemory no_memory (IsOfDocument 1 (RefusesSummary bytes.now))) }
{
    summary_at(alloc, 1, bytes)
}

/// The site of the input document with this number.
pub fn site_at(alloc: Global, document: usize, bytes: &[u8]) -> Result<Site, DocFault>
    ensures { MatchResult result (ReadsAsSite bytes.now)
        (OrMemory no_memory (IsOfDocument document (RefusesSite bytes.now))) }
{
    match site_from(alloc, bytes) {
        Ok(site) => Ok(site),
        Err(cause) => Err(DocFault::of_document(document, cause)),
    }
}

/// The delta of the input document with this number.
pub fn delta_at(alloc: Global, document: usize, bytes: &[u8]) -> Result<Delta, DocFault>
    ensures { MatchResult result (ReadsAsDelta bytes.now)
        (OrMemory no_memory (IsOfDocument document (RefusesDelta bytes.now))) }
{
    match delta_from(alloc, bytes) {
        Ok(delta) => Ok(delta),
        Err(cause) => Err(DocFault::of_document(document, cause)),
    }
}

/// The summary of the input document with this number.
pub fn summary_at(alloc: Global, document: usize, bytes: &[u8]) -> Result<Summary, DocFault>
    ensures { MatchResult result (ReadsAsSummary bytes.now)
        (OrMemory no_memory (IsOfDocument document (RefusesSummary bytes.now))) }
{
    match summary_from(alloc, bytes) {
        Ok(summary) => Ok(summary),
        Err(cause) => Err(DocFault::of_document(document, cause)),
    }
}
