//! Deltas: the cells that a summary lacks.

ghost use Rattle.std.specs.Prelude.{◌≡◌, IfOk};
ghost use Rattle.std.specs.FinMap.Entries.{find};
ghost use Rattle.cell_core.specs.Keyed.{IsMap};
ghost use Rattle.cata_core.specs.Delta.{delta_of, is_missing};
ghost use Rattle.cell_core.specs.Entry.{key_cmp};
ghost use Rattle.cata_core.specs.inner.DeltaSeeking.{IsRestAfter};

use crate::summary::Summary;
use catalogue::Catalogue;
use cell_core::{Entry, Join, Key, MessageId, SiteName, Stamp};
use lang_core::Lang;
use std::alloc::{AllocError, Global};
use std::cmp::Ordering;

/// The cells that one site sends another, its addressee.
#[derive(Debug, PartialEq, Eq, Drop)]
pub struct Delta {
    addressee: SiteName,
    cells: Catalogue,
}

impl Delta {
    /// The delta of these cells, for this site.
    pub fn from_catalogue(addressee: SiteName, cells: Catalogue) -> Delta
        ensures { result ≡ record { addressee = addressee; cells = cells } }
    {
        Delta { addressee, cells }
    }

    /// The name of the site that it is for.
    pub fn addressee(&self) -> SiteName
        ensures { result ≡ self.now.addressee }
    {
        self.addressee
    }

    /// The cells.
    pub fn cells(&self) -> &Catalogue
        ensures { result.now ≡ self.now.cells }
    {
        &self.cells
    }

    /// An equal delta.
    pub fn copy(&self, alloc: Global) -> Result<Delta, AllocError>
        ensures { IfOk result (λ copied. copied ≡ self.now) }
    {
        Ok(Delta {
            addressee: self.addressee,
            cells: self.cells.copy(alloc)?,
        })
    }

    /// The cells, for which the delta is given up.
    pub fn into_cells(self) -> Catalogue
        ensures { result ≡ self.cells }
    {
        self.cells
    }
}

/// The cells whose key the summary lacks or has with an older stamp.
pub(crate) fn missing_cells(
    alloc: Global,
    catalogue: &Catalogue,
    summary: &Summary,
) -> Result<Catalogue, AllocError>
    ensures { IfOk result (λ missing. missing ≡ delta_of catalogue.now summary.now.stamps) }
{
    let mut missing = Catalogue::new(alloc);
    let mut rest = summary.entries();
    for (id, lang, cell) in catalogue.iter() {
        let (stamp, more) = stamp_at(rest, id, lang);
        rest = more;
        if !is_missing(stamp, cell.stamp()) {
            continue;
        }
        missing.push(alloc, id.copy(alloc)?, lang.copy(alloc)?, cell.copy(alloc)?)?;
    }
    Ok(missing)
}

/// The stamp of the key, if it is among the entries, and the entries with greater keys.
fn stamp_at<'a>(
    entries: &'a [Entry<Stamp>],
    id: &MessageId,
    lang: &Lang,
) -> (Option<Stamp>, &'a [Entry<Stamp>])
    requires { IsMap key_cmp entries.now }
    ensures stamp { result.0 ≡ find key_cmp (id.now, lang.now) entries.now }
    ensures rest { IsRestAfter (id.now, lang.now) entries.now result.1.now }
{
    let mut rest = entries;
    while let Some((first, more)) = rest.split_first() {
        match first.compare(id, lang) {
            Ordering::Less => rest = more,
            Ordering::Equal => return (Some(*first.value()), more),
            Ordering::Greater => return (None, rest),
        }
    }
    (None, rest)
}

/// Whether the summary has nothing of the key, or an older stamp.
fn is_missing(known: Option<Stamp>, stamp: Stamp) -> bool
    ensures { result ≡ is_missing known stamp }
{
    match known {
        Some(known) => known.cmp(&stamp).is_lt(),
        None => true,
    }
}
