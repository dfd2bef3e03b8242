//! Entries: a value of a message in a language.

ghost use Rattle.std.specs.Prelude.{◌≡◌, IfOk};
ghost use Rattle.cell_core.specs.Entry.{key_cmp};

use crate::join::Join;
use crate::key::Key;
use crate::message_id::MessageId;
use lang_core::Lang;
use std::alloc::{AllocError, Global};
use std::cmp::Ordering;
use std::marker::Model;

/// A value of a message in a language, as a cell, a label or a stamp. Its key is the id and the
/// language.
#[derive(Debug, Drop)]
pub struct Entry<V> {
    id: MessageId,
    lang: Lang,
    value: V,
}

impl<V> Model for Entry<V> {
    ghost use Rattle.cell_core.specs.Entry.{EntryKey};

    ghost Value = { EntryKey × V };

    ghost view = { λ e. ((e.id, e.lang), e.value) };
}

impl<V> Entry<V> {
    /// The entry of this key with this value.
    pub fn new(id: MessageId, lang: Lang, value: V) -> Self
        ensures { result ≡ ((id, lang), value) }
    {
        Entry { id, lang, value }
    }

    /// The id of its message.
    pub fn id(&self) -> &MessageId
        ensures { result.now ≡ self.now.0.0 }
    {
        &self.id
    }

    /// Its language.
    pub fn lang(&self) -> &Lang
        ensures { result.now ≡ self.now.0.1 }
    {
        &self.lang
    }

    /// Its value.
    pub fn value(&self) -> &V
        ensures { result.now ≡ self.now.1 }
    {
        &self.value
    }

    /// The id, the language and the value.
    pub fn into_parts(self) -> (MessageId, Lang, V)
        ensures { ((result.0, result.1), result.2) ≡ self }
    {
        (self.id, self.lang, self.value)
    }

    /// How its key is ordered to this one: by the id, then by the language.
    pub fn compare(&self, id: &MessageId, lang: &Lang) -> Ordering
        ensures { result ≡ key_cmp self.now.0 (id.now, lang.now) }
    {
        self.id.cmp(id).then(self.lang.cmp(lang))
    }
}

/// Entries are equal where their keys and their values are.
impl<V: PartialEq> PartialEq for Entry<V> {
    ghost use Rattle.std.specs.Cmp as laws_of;
    ghost use Rattle.std.specs.Cmp.{and_per, on_per, eq_by_cmp_equiv};
    ghost use Rattle.std.specs.Ordering.{eq_by_cmp, eq_of_both, on};
    ghost use Rattle.cell_core.specs.Entry.{key_cmp};
    ghost use Rattle.cell_core.specs.inner.Entry.{key_cmp_total};

    ghost eq = { eq_of_both (on (λ e. e.0) (eq_by_cmp key_cmp)) (on (λ e. e.1) V.eq) };

    ghost laws = { and_per
        (on_per (λ e. e.0) (laws_of.partial_equiv_from_equiv (eq_by_cmp_equiv key_cmp_total)))
        (on_per (λ e. e.1) V.laws) };

    fn eq(&self, other: &Self) -> bool {
        self.compare(&other.id, &other.lang).is_eq() && self.value == other.value
    }
}

impl<V: Join> Entry<V> {
    /// An equal entry.
    pub fn copy(&self, alloc: Global) -> Result<Self, AllocError>
        ensures { IfOk result (λ copied. copied ≡ self.now) }
    {
        Ok(Entry {
            id: self.id.copy(alloc)?,
            lang: self.lang.copy(alloc)?,
            value: self.value.copy(alloc)?,
        })
    }
}
