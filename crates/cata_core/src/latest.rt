//! The latest stamp of a catalogue, and what a site knows of it.

ghost use Rattle.std.specs.Prelude.{◌≡◌, Some};
ghost use Rattle.cell_core.specs.Cell.{joined_stamps};
ghost use Rattle.cell_core.specs.Keyed.{joined_if_both};
ghost use Rattle.catalogue.specs.CatalogueLatest.{latest_of};

use catalogue::Catalogue;
use cell_core::Stamp;

/// What is known of the latest stamp of a catalogue, without a walk over its cells.
#[derive(Clone, Copy, Debug)]
pub(crate) enum Latest {
    /// It is this one; none where there are no cells.
    Known(Option<Stamp>),
    /// It takes a walk over the cells.
    Unknown,
}

impl Latest {
    ghost use Rattle.cata_core.specs.LatestKnown.{IsKnownLatest};
    ghost use Rattle.cata_core.specs.inner.LatestKnown.{known_with};

    /// The latest stamp of these cells, of which this is known.
    pub(crate) fn of(self, catalogue: &Catalogue) -> Option<Stamp>
        requires { IsKnownLatest self catalogue.now }
        ensures { result ≡ latest_of catalogue.now }
    {
        match self {
            Latest::Known(latest) => latest,
            Latest::Unknown => latest_of(catalogue),
        }
    }

    /// What is known when a cell with this stamp joins.
    pub(crate) fn with(self, stamp: Stamp) -> Latest
        ensures { result ≡ known_with self (Some stamp) }
    {
        match self {
            Latest::Known(latest) => Latest::Known(Some(latest_with(latest, stamp))),
            Latest::Unknown => Latest::Unknown,
        }
    }

    /// What is known when the cells of another catalogue join, of which that is known.
    pub(crate) fn with_cells(self, other: &Catalogue, latest: Latest) -> Latest
        requires { IsKnownLatest latest other.now }
        ensures { result ≡ known_with self (latest_of other.now) }
    {
        match self {
            Latest::Known(own) => Latest::Known(latest_of_both(own, latest.of(other))),
            Latest::Unknown => Latest::Unknown,
        }
    }
}

/// The latest stamp of the cells; none where there are no cells.
fn latest_of(catalogue: &Catalogue) -> Option<Stamp>
    ensures { result ≡ latest_of catalogue.now }
{
    let mut latest = None;
    for (_, _, cell) in catalogue.iter() {
        latest = Some(latest_with(latest, cell.stamp()));
    }
    latest
}

/// The later of the stamps, where there are any.
fn latest_of_both(first: Option<Stamp>, second: Option<Stamp>) -> Option<Stamp>
    ensures { result ≡ joined_if_both joined_stamps first second }
{
    match second {
        Some(stamp) => Some(latest_with(first, stamp)),
        None => first,
    }
}

/// The later of the stamps.
fn latest_with(latest: Option<Stamp>, stamp: Stamp) -> Stamp
    ensures { Some result ≡ joined_if_both joined_stamps latest (Some stamp) }
{
    match latest {
        Some(held) => {
            if held.cmp(&stamp).is_lt() {
                stamp
            } else {
                held
            }
        }
        None => stamp,
    }
}
