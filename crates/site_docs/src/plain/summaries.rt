//! The summary of a site, made as the rows of the site's document are read.
ghost use Rattle.std.specs.Prelude.{◌≡◌, IfSome, MatchResult};
ghost use Rattle.cata_core.specs.Delta.{summary_of};
ghost use Rattle.cata_core.specs.Site.{SiteState};
ghost use Rattle.json_docs.specs.FaultChecks.{OrMemory};
ghost use Rattle.json_docs.specs.declared.fault.DocCause.TheVariants.{NoMemory};
ghost use Rattle.row_docs.specs.Reading.{IsOfDocument, no_memory};
ghost use Rattle.site_docs.specs.Reading.{IsSummaryText, ReadsAsSite, RefusesSite};

use crate::document::site_documents::show_members;
use crate::document::writing::write_summary;
use crate::plain::documents::show_plain;
use crate::plain::written_rows::name_after_rows;
use crate::stamps_draft::StampsDraft;
use cata_core::Summary;
use cell_core::SiteName;
use json_docs::{Doc, DocCause, DocFault};
use row_docs::Kind;
use std::alloc::Global;

/// The document of the summary of the site of the input document with this number.
///
/// Refused as the document is by its reader, with its number, or since memory ran out (26).
pub fn document_summary(alloc: Global, document: usize, bytes: &[u8]) -> Result<Doc, DocFault>
    ensures { MatchResult result (λ doc. (site : SiteState) × ReadsAsSite bytes.now site
        × IsSummaryText (record { owner = site.name; stamps = summary_of site.cells }) doc)
        (OrMemory no_memory (IsOfDocument document (RefusesSite bytes.now))) }
{
    if let Some(doc) = written_summary(alloc, bytes) {
        return Ok(doc);
    }
    match summary_in_any_form(alloc, bytes) {
        Ok(summary) => {
            let doc = write_summary(alloc, &summary)?;
            Ok(doc)
        }
        Err(cause) => Err(DocFault::of_document(document, cause)),
    }
}

/// The summary of the site of a document in any form.
fn summary_in_any_form(alloc: Global, bytes: &[u8]) -> Result<Summary, DocCause>
    ensures { MatchResult result (λ summary. (site : SiteState) × ReadsAsSite bytes.now site
        × (summary ≡ record { owner = site.name; stamps = summary_of site.cells }))
        (OrMemory NoMemory (RefusesSite bytes.now)) }
{
    let start = Summary::new(alloc, SiteName::of_number(0));
    let (owner, stamps) = show_members(alloc, bytes, Kind::Site, &start)?;
    Ok(stamps.with_owner(owner))
}

/// The document of the summary of a site, where the bytes are the text that is written for the
/// site, with its last line feed or without.
///
/// `None` says nothing of the document: it may be valid in another form, it may be refused, or
/// memory ran out.
fn written_summary(alloc: Global, bytes: &[u8]) -> Option<Doc>
    ensures { IfSome result (λ doc. (site : SiteState) × ReadsAsSite bytes.now site
        × IsSummaryText (record { owner = site.name; stamps = summary_of site.cells }) doc) }
{
    // A summary has its owner before its rows, and a site its name after them.
    let owner = name_after_rows(bytes)?;
    let Ok(mut draft) = StampsDraft::new(alloc, owner) else {
        return None;
    };
    let name = show_plain(alloc, bytes, Kind::Site, &mut draft)?;
    if name.as_str() != owner.as_str() {
        return None;
    }
    match draft.close(alloc) {
        Ok(doc) => Some(doc),
        Err(_) => None,
    }
}
