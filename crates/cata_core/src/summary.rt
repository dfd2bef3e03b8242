//! Summaries: the stamps of a site's cells.

ghost use Rattle.std.specs.Prelude.{◌≡◌, ◌++◌, ◌∷◌, [], IfOk, OnOk, OnErr, IsTrue, ◌↔◌, Some};
ghost use Rattle.std.specs.Prelude.{length, slice_get};
ghost use Rattle.std.specs.Option.{option_map};
ghost use Rattle.cell_core.specs.Keyed.{IsMap};
ghost use Rattle.cata_core.specs.Delta.{summary_of};
ghost use Rattle.cell_core.specs.Entry.{key_cmp};

use crate::summary_entries::SummaryEntries;
use catalogue::Catalogue;
use cell_core::{Entry, Key, MessageId, SiteName, Stamp};
use lang_core::Lang;
use std::alloc::{AllocError, Global};
use std::marker::Model;

/// The stamps of a site's cells, in strictly ascending order of key, and the name of the site, its
/// owner.
#[derive(Debug, Drop)]
pub struct Summary {
    owner: SiteName,
    entries: Vec<Entry<Stamp>>,
}

impl Model for Summary {
    ghost use Rattle.cell_core.specs.Keyed.{IsMap};
    ghost use Rattle.cell_core.specs.Entry.{key_cmp};
    ghost use Rattle.cata_core.specs.Summary.{SummaryState};

    ghost Value = { SummaryState };

    ghost view = { λ s. record { owner = s.owner; stamps = s.entries.items } };

    ghost invariant = { λ s. IsMap key_cmp s.entries.items };
}

impl Summary {
    ghost use Rattle.catalogue.specs.Entries.{IsAboveAll};
    ghost use Rattle.cata_core.specs.SummaryEntries.{stamps_left};
    ghost use Rattle.cata_core.specs.Summary.{SummaryState};

    /// The summary of this owner without a key, which grows by this allocator.
    pub fn new(alloc: Global, owner: SiteName) -> Summary
        ensures { result ≡ record { owner = owner; stamps = [] } }
    {
        Summary {
            owner,
            entries: Vec::new(alloc),
        }
    }

    /// The name of the site whose summary it is.
    pub fn owner(&self) -> SiteName
        ensures { result ≡ self.now.owner }
    {
        self.owner
    }

    /// The same keys with their stamps, for another owner.
    pub fn with_owner(self, owner: SiteName) -> Summary
        ensures { result ≡ record { owner = owner; stamps = self.stamps } }
    {
        Summary {
            owner,
            entries: self.entries,
        }
    }

    /// How many keys there are.
    pub fn len(&self) -> usize
        ensures len { result ≡ length self.now.stamps }
        ensures sorted { IsMap key_cmp self.now.stamps }
    {
        self.entries.len()
    }

    /// Whether there is no key.
    pub fn is_empty(&self) -> bool
        ensures empty { IsTrue result ↔ (self.now.stamps ≡ []) }
    {
        self.entries.is_empty()
    }

    /// The key and stamp at a place in ascending order of key, from 0; none from `len` on.
    pub fn nth(&self, place: usize) -> Option<(&MessageId, &Lang, Stamp)>
        ensures { option_map (λ e. ((e.0.now, e.1.now), e.2)) result
            ≡ slice_get self.now.stamps place }
    {
        match self.entries.get(place) {
            Some(entry) => Some((entry.id(), entry.lang(), *entry.value())),
            None => None,
        }
    }

    /// All keys, each with its stamp, in ascending order of key.
    pub fn iter(&self) -> SummaryEntries<'_>
        ensures stamps { stamps_left result ≡ self.now.stamps }
        ensures sorted { IsMap key_cmp self.now.stamps }
    {
        SummaryEntries::new(&self.entries)
    }

    /// Whether the key is greater than all others, as [`Summary::push`] requires.
    pub fn is_above_all(&self, id: &MessageId, lang: &Lang) -> bool
        ensures { IsTrue result ↔ IsAboveAll (id.now, lang.now) self.now.stamps }
    {
        match self.entries.last() {
            Some(last) => last.compare(id, lang).is_lt(),
            None => true,
        }
    }

    /// Appends a key; it has to be greater than all others ([`Summary::is_above_all`]).
    ///
    /// When memory runs out (26) the summary is unchanged, and what was passed in is dropped.
    pub fn push(&mut self, id: MessageId, lang: Lang, stamp: Stamp) -> Result<(), AllocError>
        requires { IsAboveAll (id, lang) self.old.stamps }
        ensures ok { OnOk result
            (self.new
            ≡ record {
              owner = self.old.owner;
              stamps =
                  self.old.stamps ++ ((id, lang), stamp) ∷ [];
            }) }
        ensures err { OnErr result (self.new ≡ self.old) }
    {
        self.entries.push(Entry::new(id, lang, stamp))?;
        Ok(())
    }

    /// An equal summary.
    pub fn copy(&self, alloc: Global) -> Result<Summary, AllocError>
        ensures { IfOk result (λ copied. copied ≡ self.now) }
    {
        let mut entries = Vec::with_capacity(alloc, self.entries.len())?;
        for entry in &self.entries {
            entries.push(entry.copy(alloc)?)?;
        }
        Ok(Summary {
            owner: self.owner,
            entries,
        })
    }

    /// Its entries, in ascending order of key.
    pub(crate) fn entries(&self) -> &[Entry<Stamp>]
        ensures entries { result.now ≡ self.now.stamps }
        ensures sorted { IsMap key_cmp self.now.stamps }
    {
        &self.entries
    }

    /// The summary of a catalogue, for this owner.
    pub(crate) fn of(
        alloc: Global,
        owner: SiteName,
        catalogue: &Catalogue,
    ) -> Result<Summary, AllocError>
        ensures { IfOk result
            (λ summary. summary ≡ record { owner = owner; stamps = summary_of catalogue.now }) }
    {
        let mut entries = Vec::new(alloc);
        for (id, lang, cell) in catalogue.iter() {
            entries.push(Entry::new(id.copy(alloc)?, lang.copy(alloc)?, cell.stamp()))?;
        }
        Ok(Summary { owner, entries })
    }
}

/// Summaries are equal where their owners, their keys and their stamps are.
impl PartialEq for Summary {
    ghost use Rattle.std.specs.Cmp as laws_of;
    ghost use Rattle.cata_core.specs.SummaryEq.{summary_eq};
    ghost use Rattle.cata_core.specs.inner.SummaryEq.{summary_equiv};

    ghost eq = { summary_eq };

    ghost laws = { laws_of.partial_equiv_from_equiv summary_equiv };

    fn eq(&self, other: &Summary) -> bool {
        other.owner == self.owner && self.entries == other.entries
    }
}

impl Eq for Summary {
    ghost use Rattle.cata_core.specs.inner.SummaryEq.{summary_equiv};

    ghost laws = { summary_equiv };
}
