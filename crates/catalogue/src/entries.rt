//! Answers of filters.

ghost use Rattle.std.specs.Prelude.{◌≡◌, length, slice_get, IfOk, IsTrue, ◌↔◌, []};
ghost use Rattle.catalogue.specs.Asking.{picked, with_weight};
ghost use Rattle.std.specs.Slice.Iter.{iter_rest};
ghost use Rattle.catalogue.specs.EntriesBorrowed.{lent_weighed, weighed_of};
ghost use Rattle.catalogue.specs.inner.EntriesBorrowed.{labelled_of};

use cell_core::Label;
use lang_core::Lang;
use nego_core::{Pick, Picks};
use std::alloc::{AllocError, Global};
use std::marker::Model;
use std::slice;

/// The answer of a filter, borrowed from the catalogue: languages with their labels and weights, in
/// order.
#[derive(Debug, Drop)]
pub struct LentEntries<'a> {
    lent: Vec<(&'a Lang, &'a Label, u16)>,
}

impl<'a> Model for LentEntries<'a> {
    ghost use Rattle.catalogue.specs.Asking.{Weighed};
    ghost use Rattle.catalogue.specs.EntriesBorrowed.{weighed_of};

    ghost Value = { Weighed };

    ghost view = { λ e. weighed_of e.lent.items };
}

impl<'a> LentEntries<'a> {
    /// How many there are.
    pub fn len(&self) -> usize
        ensures { result ≡ length self.now }
    {
        self.lent.len()
    }

    /// Whether there is none.
    pub fn is_empty(&self) -> bool
        ensures empty { IsTrue result ↔ (self.now ≡ []) }
    {
        self.lent.is_empty()
    }

    /// The language, the label and the weight in thousandths at a place, from 0; none from `len`
    /// on.
    pub fn nth(&self, place: usize) -> Option<(&'a Lang, &'a Label, u16)>
        ensures { lent_weighed result ≡ slice_get self.now place }
    {
        match self.lent.get(place) {
            Some(item) => Some((item.0, item.1, item.2)),
            None => None,
        }
    }

    /// All of them, in order.
    pub fn iter(&self) -> slice::Iter<'_, (&'a Lang, &'a Label, u16)>
        ensures { weighed_of (iter_rest result) ≡ self.now }
    {
        self.lent.iter()
    }

    /// The list, copied.
    pub fn copy(&self, alloc: Global) -> Result<Entries, AllocError>
        ensures { IfOk result (λ copied. copied ≡ self.now) }
    {
        let mut items = Vec::with_capacity(alloc, self.lent.len())?;
        for (lang, label, weight) in &self.lent {
            items.push((lang.copy(alloc)?, label.copy(alloc)?, *weight))?;
        }
        Ok(Entries { items })
    }
}

/// The answer of a filter: languages with their labels and weights, in order.
#[derive(Debug, Drop)]
pub struct Entries {
    items: Vec<(Lang, Label, u16)>,
}

impl Model for Entries {
    ghost use Rattle.catalogue.specs.Asking.{Weighed};

    ghost Value = { Weighed };

    ghost view = { λ e. e.items.items };
}

impl Entries {
    /// How many there are.
    pub fn len(&self) -> usize
        ensures { result ≡ length self.now }
    {
        self.items.len()
    }

    /// Whether there is none.
    pub fn is_empty(&self) -> bool
        ensures empty { IsTrue result ↔ (self.now ≡ []) }
    {
        self.items.is_empty()
    }

    /// The language, the label and the weight in thousandths at a place, from 0; none from `len`
    /// on.
    pub fn nth(&self, place: usize) -> Option<(&Lang, &Label, u16)>
        ensures { lent_weighed result ≡ slice_get self.now place }
    {
        match self.items.get(place) {
            Some(item) => Some((&item.0, &item.1, item.2)),
            None => None,
        }
    }

    /// All of them, in order.
    pub fn iter(&self) -> slice::Iter<'_, (Lang, Label, u16)>
        ensures { iter_rest result ≡ self.now }
    {
        self.items.iter()
    }

    /// An equal list.
    pub fn copy(&self, alloc: Global) -> Result<Entries, AllocError>
        ensures { IfOk result (λ copied. copied ≡ self.now) }
    {
        let mut items = Vec::with_capacity(alloc, self.items.len())?;
        for (lang, label, weight) in &self.items {
            let item = (lang.copy(alloc)?, label.copy(alloc)?, *weight);
            items.push(item)?;
        }
        Ok(Entries { items })
    }
}

/// Answers of a filter are equal where their languages, labels and weights are.
impl PartialEq for Entries {
    ghost use Rattle.std.specs.Cmp as laws_of;
    ghost use Rattle.catalogue.specs.EntriesEq.{weighed_eq};
    ghost use Rattle.catalogue.specs.inner.EntriesEq.{weighed_equiv};

    ghost eq = { weighed_eq };

    ghost laws = { laws_of.partial_equiv_from_equiv weighed_equiv };

    fn eq(&self, other: &Entries) -> bool {
        self.items == other.items
    }
}

impl Eq for Entries {
    ghost use Rattle.catalogue.specs.inner.EntriesEq.{weighed_equiv};

    ghost laws = { weighed_equiv };
}

/// The languages and labels at the places that a filter picked.
pub(crate) fn pick_all<'a>(
    alloc: Global,
    labels: &[(&'a Lang, &'a Label)],
    picks: &Picks,
) -> Result<LentEntries<'a>, AllocError>
    ensures { IfOk result (λ entries. entries ≡ picked (labelled_of labels.now) picks.now) }
{
    let mut items = Vec::with_capacity(alloc, picks.len())?;
    for place in 0..picks.len() {
        if let Some(pick) = picks.nth(place) {
            if let Some(item) = pick_one(labels, pick) {
                items.push(item)?;
            }
        }
    }
    Ok(LentEntries { lent: items })
}

/// The language and label at the place of one pick.
fn pick_one<'a>(labels: &[(&'a Lang, &'a Label)], pick: Pick) -> Option<(&'a Lang, &'a Label, u16)>
    ensures { lent_weighed result
        ≡ with_weight (slice_get (labelled_of labels.now) pick.place) pick.weight }
{
    match labels.get(pick.place) {
        Some(pair) => Some((pair.0, pair.1, pick.weight)),
        None => None,
    }
}
