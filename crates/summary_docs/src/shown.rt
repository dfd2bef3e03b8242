//! A summary, with a digest of each label if it shows labels.
ghost use Rattle.std.specs.Prelude.{◌≡◌, [], length, option_map, slice_get, string_bytes};
ghost use Rattle.cell_core.specs.Keyed.{IsMap};
ghost use Rattle.cell_core.specs.Entry.{key_cmp};
ghost use Rattle.cata_core.specs.Delta.{summary_of};
ghost use Rattle.summary_docs.specs.Shown.{digests_of, known_in};

use crate::digest::digest_of;
use cata_core::Summary;
use cell_core::{MessageId, SiteName, Stamp};
use lang_core::Lang;
use site_docs::{CellRef, CellSink};
use std::alloc::{AllocError, Global};
use std::marker::Model;

/// A summary and, if it shows labels, their digests, in the order of its stamps.
#[derive(Debug, Drop)]
pub struct ShownSummary {
    summary: Summary,
    digests: Vec<String>,
}

/// What a summary shows of a cell.
#[derive(Clone, Copy)]
pub(crate) struct Known<'a> {
    /// The stamp.
    pub stamp: Stamp,
    /// The digest of the label, if labels are shown.
    pub digest: Option<&'a str>,
}

impl Model for ShownSummary {
    ghost use Rattle.cell_core.specs.Label.{texts_of};
    ghost use Rattle.summary_docs.specs.Shown.{ShownState};

    ghost Value = { ShownState };

    ghost view = { λ s. record { summary = s.summary; digests = texts_of s.digests.items } };
}

impl ShownSummary {
    ghost use Rattle.cell_core.specs.Label.{texts_of};
    ghost use Rattle.summary_docs.specs.inner.ShownCells.{known_as};

    /// A summary with these digests. Without any it shows no labels.
    pub(crate) fn new(summary: Summary, digests: Vec<String>) -> ShownSummary
        ensures { result ≡ record { summary = summary; digests = texts_of digests.items } }
    {
        ShownSummary { summary, digests }
    }

    /// The summary of no cell, for this owner.
    pub(crate) fn empty(alloc: Global, owner: SiteName) -> ShownSummary
        ensures { result
            ≡ record { summary = record { owner = owner; stamps = [] }; digests = [] } }
    {
        ShownSummary::new(Summary::new(alloc, owner), Vec::new(alloc))
    }

    /// The same cells, for another owner.
    pub(crate) fn with_owner(self, owner: SiteName) -> ShownSummary
        ensures { result ≡ record {
          summary = record { owner = owner; stamps = self.summary.stamps };
          digests = self.digests;
        } }
    {
        ShownSummary {
            summary: self.summary.with_owner(owner),
            digests: self.digests,
        }
    }

    /// The name of the site whose summary it is.
    pub fn owner(&self) -> SiteName
        ensures { result ≡ self.now.summary.owner }
    {
        self.summary.owner()
    }

    /// The owner and the stamps.
    pub(crate) fn summary(&self) -> &Summary
        ensures { result.now ≡ self.now.summary }
    {
        &self.summary
    }

    /// The digests, in the order of the stamps.
    pub(crate) fn digests(&self) -> &[String]
        ensures { texts_of result.now ≡ self.now.digests }
    {
        self.digests.as_slice()
    }

    /// How many cells it shows.
    pub(crate) fn len(&self) -> usize
        ensures len { result ≡ length (known_in self.now) }
        ensures sorted { IsMap key_cmp (known_in self.now) }
    {
        self.summary.len()
    }

    /// What it shows at a place in ascending order of key, from 0; none from `len` on.
    pub(crate) fn nth(&self, place: usize) -> Option<(&MessageId, &Lang, Known<'_>)>
        ensures { option_map (λ e. ((e.0.now, e.1.now), known_as e.2)) result
            ≡ slice_get (known_in self.now) place }
    {
        let Some((id, lang, stamp)) = self.summary.nth(place) else {
            return None;
        };
        let digest = digest_at(self.digests.as_slice(), place);
        Some((id, lang, Known { stamp, digest }))
    }
}

/// The digest at a place; none past the last.
fn digest_at(digests: &[String], place: usize) -> Option<&str>
    ensures { option_map (λ d. d.now) result
        ≡ option_map string_bytes (slice_get digests.now place) }
{
    match digests.get(place) {
        Some(digest) => Some(digest.as_str()),
        None => None,
    }
}

/// Keeps the stamps of all cells, and the digests of their labels.
impl<'t> CellSink<'t> for ShownSummary {
    ghost Holds = { λ first shown seen. (shown.summary.stamps ≡ summary_of seen)
        × (shown.digests ≡ digests_of seen) };

    fn begin(&self, alloc: Global) -> Result<ShownSummary, AllocError> {
        Ok(ShownSummary::empty(alloc, self.owner()))
    }

    fn see(&mut self, alloc: Global, cell: CellRef<'_, 't>) -> Result<(), AllocError> {
        let digest = digest_of(alloc, &cell.label)?;
        self.digests.push(digest)?;
        self.summary.see(alloc, cell)
    }
}
