//! Widened lookup over any languages that can be searched, with a default.
ghost use Rattle.std.specs.Prelude.{◌≡◌, ◌++◌, ◌∷◌, [], ℕ, List, MatchOption, option_map};
ghost use Rattle.lang_core.specs.Text.{pieces};
ghost use Rattle.nego_core.specs.LangSet.{is_among};
ghost use Rattle.nego_core.specs.WidenedChoice.{IsChosenWidened, IsTriedAt, MatchEarliest};
ghost use Rattle.nego_core.specs.inner.WidenedChoice.{IsTriedFirst, is_earlier};
ghost use Rattle.nego_core.specs.Widening.{IsLookedUpWidened};

use crate::choosing::{Choice, first_at, has_open_default, named_refuse};
use crate::lang_set::Holds;
use lang_core::Lang;
use list_core::{PriorityList, Scheme};

/// Languages that widened lookup searches.
///
/// This is all that `choose_widened` needs of them. It takes no memory, so long as these two take
/// none.
pub trait Languages {
    /// Their texts.
    ghost texts: { Self → List (List ℕ) };

    /// Whether the language of this text is among them.
    fn has(&self, lang: &str) -> bool
        ensures { result ≡ is_among (texts self.now) lang.now };

    /// Of those that the ranges match the earliest: each language is given once to
    /// [`WidenedRanges::earlier`], with what it answered of those before.
    fn earliest(&self, ranges: &WidenedRanges<'_>) -> Option<Earliest<'_>>
        ensures { MatchEarliest ranges.now.scheme ranges.now.list.now (texts self.now) result };
}

/// The language that a list matches first.
#[derive(Clone, Copy, Drop)]
pub struct Earliest<'a> {
    /// Where in the order of lookup the range comes that matches it.
    tried: usize,
    lang: &'a Lang,
}

/// The ranges of a list, in the order in which lookup tries them, as they match languages under a
/// scheme.
#[derive(Drop)]
pub struct WidenedRanges<'a> {
    list: &'a PriorityList,
    scheme: Scheme,
}

impl<'a> WidenedRanges<'a> {
    /// The ranges of the list.
    pub(crate) fn new(list: &'a PriorityList, scheme: Scheme) -> WidenedRanges<'a>
        ensures list { result.list.now ≡ list.now }
        ensures scheme { result.scheme ≡ scheme }
    {
        WidenedRanges { list, scheme }
    }

    /// Of the earliest so far and another language the one that is matched by the earlier range, or
    /// by the same range and is the lesser by bytes. A language that no range matches, or that the
    /// items other than "*" refuse, changes nothing.
    pub fn earlier<'b>(
        &self,
        earliest: Option<Earliest<'b>>,
        lang: &'b Lang,
    ) -> Option<Earliest<'b>>
        ensures { let scheme = self.now.scheme in let items = self.now.list.now in
            (langs : List (List ℕ)) → MatchEarliest scheme items langs earliest.entry
            → MatchEarliest scheme items (langs ++ lang.now ∷ []) result }
    {
        match self.first_tried(lang) {
            Some(tried) if is_earlier(tried, lang, earliest) => Some(Earliest { tried, lang }),
            _ => earliest,
        }
    }

    /// Where in the order of lookup the first range comes that matches the language, unless the
    /// items other than "*" refuse it.
    pub(crate) fn first_tried(&self, lang: &Lang) -> Option<usize>
        ensures { let scheme = self.now.scheme in let items = self.now.list.now in
            MatchOption result ((n : ℕ) → ¬ IsTriedAt scheme items lang.now n)
            (IsTriedFirst scheme items lang.now) }
    {
        let tried = self.list.first_tried(self.scheme, lang);
        if tried < self.list.order().len() && !named_refuse(self.list, lang.as_str()) {
            Some(tried)
        } else {
            None
        }
    }
}

/// Widened lookup over any languages that can be searched, as `lookup_widened` does it, by texts in
/// place of places. It takes no memory.
pub fn choose_widened<'a, L: Languages>(
    list: &'a PriorityList,
    scheme: Scheme,
    langs: &'a L,
    default: Option<&Lang>,
) -> Choice<'a>
    ensures { IsChosenWidened scheme list.now (L.texts langs.now)
        (option_map (λ l. l.now) default.entry) result }
{
    match look_up_widened(list, scheme, langs) {
        Some(text) => Choice::Matched(text),
        None => {
            if has_open_default(list, &Searched { langs }, default) {
                Choice::Default
            } else {
                Choice::Nothing
            }
        }
    }
}

/// The languages, as the set of their texts.
#[derive(Drop)]
pub(crate) struct Searched<'a, L> {
    pub(crate) langs: &'a L,
}

impl<'a, L: Languages> Holds for Searched<'a, L> {
    ghost held = { λ s text. is_among (L.texts s.langs.now) text };

    fn holds(&self, lang: &str) -> bool {
        self.langs.has(lang)
    }
}

/// The first widened candidate of the items, in their order by weight, that is open.
fn look_up_widened<'a, L: Languages>(
    list: &'a PriorityList,
    scheme: Scheme,
    langs: &'a L,
) -> Option<&'a str>
    ensures { IsLookedUpWidened scheme list.now (L.texts langs.now)
        (option_map (λ text. pieces text.now) result) }
{
    let keys = list.order();
    let earliest = langs.earliest(&WidenedRanges::new(list, scheme));
    for (at, key) in keys.iter().enumerate() {
        match first_at(list, key.place, &Searched { langs }) {
            Some(text) => return Some(text),
            None => {}
        }
        match earliest {
            Some(found) => {
                if found.tried == at {
                    return Some(found.lang.as_str());
                }
            }
            None => {}
        }
    }
    None
}

/// Whether the language, which is matched at this place of the order, comes before the earliest.
fn is_earlier(tried: usize, lang: &Lang, earliest: Option<Earliest<'_>>) -> bool
    ensures { result ≡ is_earlier tried lang.now earliest.entry }
{
    match earliest {
        Some(earliest) => {
            tried < earliest.tried || (tried == earliest.tried && lang.cmp(earliest.lang).is_lt())
        }
        None => true,
    }
}
