//! Language maps of messages (JSON-LD 1.1, section 9.8) as a list of labels.
ghost use Rattle.std.specs.Prelude.{◌≡◌, ◌==◌, ◌++◌, ◌∷◌, [], IfOk, OnOk, OnErr, length, slice_get};
ghost use Rattle.std.specs.Prelude.{option_map};
ghost use Rattle.std.specs.Slice.Iter.{iter_rest};
ghost use Rattle.cell_core.specs.Keyed.{IsMap};
ghost use Rattle.cell_core.specs.Entry.{key_cmp};

use cell_core::{Entry, Label, MessageId};
use lang_core::Lang;
use std::alloc::{AllocError, Global};
use std::marker::Model;
use std::slice;

/// The labels of messages by language, in strictly ascending order of key: by the bytes of the id,
/// then by those of the language. A contract sees them as a list.
#[derive(Drop)]
pub struct LangMaps {
    labels: Vec<Entry<Label>>,
}

impl Model for LangMaps {
    ghost use Rattle.std.specs.Prelude.{List};
    ghost use Rattle.cell_core.specs.Keyed.{IsMap};
    ghost use Rattle.cell_core.specs.Entry.{key_cmp};
    ghost use Rattle.map_docs.specs.Maps.{Labelled};

    ghost Value = { List Labelled };

    ghost view = { λ m. m.labels.items };

    ghost invariant = { λ m. IsMap key_cmp m.labels.items };
}

impl LangMaps {
    ghost use Rattle.catalogue.specs.Entries.{IsAboveAll};

    /// No label yet. The list grows by this allocator; it takes no memory now.
    pub fn new(alloc: Global) -> LangMaps
        ensures { result ≡ [] }
    {
        LangMaps {
            labels: Vec::new(alloc),
        }
    }

    /// No label yet, with room for this many.
    pub(crate) fn with_capacity(alloc: Global, count: usize) -> Result<LangMaps, AllocError>
        ensures { IfOk result (λ maps. maps ≡ []) }
    {
        let labels = Vec::with_capacity(alloc, count)?;
        Ok(LangMaps { labels })
    }

    /// How many labels there are.
    pub fn len(&self) -> usize
        ensures len { result ≡ length self.now }
        ensures sorted { IsMap key_cmp self.now }
    {
        self.labels.len()
    }

    /// Whether there is no label.
    pub fn is_empty(&self) -> bool
        ensures { result ≡ (length self.now == 0) }
    {
        self.labels.is_empty()
    }

    /// The message, the language and the label at a place in ascending order of key, counted from
    /// 0; none from `len` on.
    pub fn nth(&self, place: usize) -> Option<(&MessageId, &Lang, &Label)>
        ensures { option_map (λ e. ((e.0.now, e.1.now), e.2.now)) result
            ≡ slice_get self.now place }
    {
        match self.labels.get(place) {
            Some(found) => Some((found.id(), found.lang(), found.value())),
            None => None,
        }
    }

    /// All labels with their messages and languages, in ascending order of key.
    pub fn iter(&self) -> slice::Iter<'_, Entry<Label>>
        ensures labels { (iter_rest result) ≡ self.now }
        ensures sorted { IsMap key_cmp self.now }
    {
        self.labels.iter()
    }

    /// Appends a label; its key has to be greater than all others.
    ///
    /// When memory runs out (26) the list is unchanged, and what was passed in is dropped.
    pub fn push(&mut self, id: MessageId, lang: Lang, label: Label) -> Result<(), AllocError>
        requires { IsAboveAll (id, lang) self.old }
        ensures ok { OnOk result (self.new ≡ self.old ++ ((id, lang), label) ∷ []) }
        ensures err { OnErr result (self.new ≡ self.old) }
    {
        self.labels.push(Entry::new(id, lang, label))?;
        Ok(())
    }

    /// The labels, in ascending order of key.
    pub fn labels(&self) -> &[Entry<Label>]
        ensures labels { result.now ≡ self.now }
        ensures sorted { IsMap key_cmp self.now }
    {
        &self.labels
    }
}
