//! What a site shows of itself as a whole, and the delta that another site lacks.
ghost use Rattle.std.specs.Prelude.{MatchResult};
ghost use Rattle.front_core.specs.Exchange.{IsDelta, RefusesDelta};

use crate::answer::Answer;
use crate::ask::{Question, SiteIn};
use crate::fault::FrontFault;
use cata_core::Site;
use docs_core::{
    DocFault, Shows, delta_of_site, export_document, labels_document, labels_lines, read_site,
    status_document, status_line, summary_document, summary_of_site, write_live_labels, write_site,
};
use std::alloc::{AllocError, Global};

/// A text that is made of a whole site.
#[derive(Clone, Copy, Debug, PartialEq, Eq)]
pub enum View {
    /// Its document, which reads as this site.
    Document,
    /// The document of its summary: the stamps of its cells, deletions among them, and a digest of
    /// each label if it shows labels.
    Summary(Shows),
    /// Its status line: how many cells and labels it has, and its latest stamp.
    Status,
    /// The language maps of all its labels.
    Export,
    /// `labels N` and N lines: each language that has labels, and how many.
    Labels,
}

impl View {
    ghost use Rattle.std.specs.Prelude.{IfOk, MatchResult};
    ghost use Rattle.json_docs.specs.FaultChecks.{OrMemory};
    ghost use Rattle.row_docs.specs.Reading.{IsOfDocument, no_memory};
    ghost use Rattle.site_docs.specs.Reading.{ReadsAsSite, RefusesSite};
    ghost use Rattle.front_core.specs.Exchange.{ShowsView};
    ghost use Rattle.front_core.specs.inner.Exchange.{ShowsViewOf};

    /// The text of the site of a document.
    fn of_document(self, alloc: Global, bytes: &[u8]) -> Result<Answer, DocFault>
        ensures { MatchResult result (ShowsViewOf self bytes.now)
            (OrMemory no_memory (IsOfDocument 1 (RefusesSite bytes.now))) }
    {
        match self {
            View::Document => {
                let site = read_site(alloc, bytes)?;
                let text = write_site(alloc, &site)?;
                Ok(Answer::found(text))
            }
            View::Summary(shows) => Ok(Answer::found(summary_document(alloc, bytes, shows)?)),
            View::Status => Ok(Answer::found(status_document(alloc, bytes)?)),
            View::Export => Ok(Answer::found(export_document(alloc, bytes)?)),
            View::Labels => Ok(Answer::of(labels_document(alloc, bytes)?)),
        }
    }

    /// The text of a site in memory.
    fn of_site(self, alloc: Global, site: &Site) -> Result<Answer, AllocError>
        ensures { IfOk result (ShowsView self site.now) }
    {
        match self {
            View::Document => Ok(Answer::found(write_site(alloc, site)?)),
            View::Summary(shows) => Ok(Answer::found(summary_of_site(alloc, site, shows)?)),
            View::Status => Ok(Answer::found(status_line(alloc, site)?)),
            View::Export => Ok(Answer::found(write_live_labels(alloc, site.catalogue())?)),
            View::Labels => Ok(Answer::of(labels_lines(alloc, site.catalogue())?)),
        }
    }
}

/// The text, which counts as found, but for `labels 0`.
impl Question for View {
    ghost use Rattle.front_core.specs.Exchange.{ShowsView};

    ghost Answers = { ShowsView };

    fn answer(&self, alloc: Global, site: SiteIn<'_>) -> Result<Answer, FrontFault> {
        match site {
            SiteIn::Document(bytes) => Ok(self.of_document(alloc, bytes)?),
            SiteIn::Open(site) => Ok(self.of_site(alloc, site)?),
        }
    }
}

/// The document of the delta of what a summary lacks, with labels or without, for the summary's
/// owner.
///
/// Refused as the summary is, by document 1, or since memory ran out (26).
pub fn delta(alloc: Global, site: &Site, summary: &[u8]) -> Result<Answer, FrontFault>
    ensures { MatchResult result (IsDelta site.now summary.now) (RefusesDelta summary.now) }
{
    let text = delta_of_site(alloc, site, summary)?;
    Ok(Answer::found(text))
}
