//! Sets of languages that lookup searches.
ghost use Rattle.std.specs.Prelude.{◌≡◌, ◌<◌, ℕ, List, Bool};
ghost use Rattle.list_core.specs.Fingerprint.{slot_of};
ghost use Rattle.nego_core.specs.LangSet.{is_among};

use lang_core::Lang;
use list_core::slot_of;
use std::marker::Model;

/// How many slots the table has.
const SLOTS: usize = 1024;

/// A set of languages, each by its text: a tag in lower case, or `@none`.
///
/// This is all that `choose` needs of a set. It takes no memory, so long as `holds` takes none. A
/// slice of languages is such a set: `choose(&list, &langs.as_slice(), None)`.
pub trait Holds {
    /// Whether a text is in the set.
    ghost held: { Self → List ℕ → Bool };

    /// Whether the language of this text is in the set. It should take no memory.
    fn holds(&self, lang: &str) -> bool
        ensures { result ≡ held self.now lang.now };
}

/// The languages of the slice, which are compared one by one.
impl Holds for &[Lang] {
    ghost held = { λ langs text. is_among langs.now text };

    fn holds(&self, lang: &str) -> bool {
        is_among(self, lang)
    }
}

/// The languages of a slice, and a table in which the slot of each of them is set: most other texts
/// have a slot that is not set, so they are not among them.
#[derive(Drop)]
pub(crate) struct LangSet<'a> {
    langs: &'a [Lang],
    slots: [bool; SLOTS],
}

impl<'a> Model for LangSet<'a> {
    ghost use Rattle.std.specs.Prelude.{List, ℕ};
    ghost use Rattle.list_core.specs.Fingerprint.{slot_of};
    ghost use Rattle.list_core.specs.inner.Fingerprint.{IsTableOf};

    ghost Value = { List (List ℕ) };

    ghost view = { λ s. s.langs.now };

    ghost invariant = { λ s. IsTableOf slot_of 1024 s.langs.now s.slots };
}

impl<'a> LangSet<'a> {
    /// The set of these languages, with its table.
    pub(crate) fn new(langs: &'a [Lang]) -> LangSet<'a>
        ensures { result ≡ langs.now }
    {
        let mut slots = [false; SLOTS];
        for lang in langs {
            slots[slot_of(lang.as_str().as_bytes())] = true;
        }
        LangSet { langs, slots }
    }
}

impl<'a> Holds for LangSet<'a> {
    ghost held = { λ langs text. is_among langs text };

    fn holds(&self, lang: &str) -> bool {
        self.slots[slot_of(lang.as_bytes())] && is_among(self.langs, lang)
    }
}

/// Whether the language of this text is among the languages, which are compared one by one.
pub(crate) fn is_among(langs: &[Lang], lang: &str) -> bool
    ensures { result ≡ is_among langs.now lang.now }
{
    langs.iter().any(|other| other.as_str() == lang)
}
