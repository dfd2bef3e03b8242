//! The sites of a run, and what was told, posted and answered.

ghost use Rattle.std.specs.Prelude.{◌≡◌};

use crate::answer::Answer;
use crate::summary::Summary;
use catalogue::Catalogue;
use std::marker::Model;

/// A summary that was told, with the place of the site that told it: sites are places here, and
/// the names of summaries are none.
#[derive(Drop)]
pub(crate) struct ToldSummary {
    teller: usize,
    summary: Summary,
}

impl Model for ToldSummary {
    ghost use Rattle.cata_core.specs.WorldHeld.{ToldStamps};

    ghost Value = { ToldStamps };

    ghost view = { λ t. record { teller = t.teller; stamps = t.summary.stamps } };
}

impl ToldSummary {
    /// The summary, told by the site at this place.
    pub(crate) fn new(teller: usize, summary: Summary) -> ToldSummary
        ensures { result ≡ record { teller = teller; stamps = summary.stamps } }
    {
        ToldSummary { teller, summary }
    }

    /// The place of the site that told it.
    pub(crate) fn teller(&self) -> usize
        ensures { result ≡ self.now.teller }
    {
        self.teller
    }

    /// The summary.
    pub(crate) fn summary(&self) -> &Summary
        ensures { result.now.stamps ≡ self.now.stamps }
    {
        &self.summary
    }
}

/// A delta that was posted, with the place of the site that it is for.
#[derive(Drop)]
pub(crate) struct PostedDelta {
    addressee: usize,
    cells: Catalogue,
}

impl Model for PostedDelta {
    ghost use Rattle.cata_core.specs.WorldHeld.{PostedCells};

    ghost Value = { PostedCells };

    ghost view = { λ p. record { addressee = p.addressee; cells = p.cells } };
}

impl PostedDelta {
    /// The delta of these cells, for the site at this place.
    pub(crate) fn new(addressee: usize, cells: Catalogue) -> PostedDelta
        ensures { result ≡ record { addressee = addressee; cells = cells } }
    {
        PostedDelta { addressee, cells }
    }

    /// The place of the site that it is for.
    pub(crate) fn addressee(&self) -> usize
        ensures { result ≡ self.now.addressee }
    {
        self.addressee
    }

    /// The cells of the delta.
    pub(crate) fn cells(&self) -> &Catalogue
        ensures { result.now ≡ self.now.cells }
    {
        &self.cells
    }
}

/// The catalogues of the sites by place, and what was told, posted and answered so far.
#[derive(Drop)]
pub(crate) struct World {
    /// The catalogues, each at the place of its site.
    pub(crate) sites: Vec<Catalogue>,
    /// The summaries that were told, in order.
    pub(crate) told: Vec<ToldSummary>,
    /// The deltas that were posted, in order.
    pub(crate) posts: Vec<PostedDelta>,
    /// The answers, in order.
    pub(crate) answers: Vec<Answer>,
}
