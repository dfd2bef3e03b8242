//! Widened lookup: a range also finds the languages that it matches, as `en` finds en-us. This is
//! the project's own, and no part of RFC 4647.
ghost use Rattle.std.specs.Prelude.{◌≡◌, IsTrue, Some, map, option_map};
ghost use Rattle.nego_core.specs.Filtering.{texts_of};
ghost use Rattle.nego_core.specs.LangSet.{is_among};
ghost use Rattle.nego_core.specs.LookupPlaces.{least_place};
ghost use Rattle.nego_core.specs.WidenedChoice.{MatchEarliest};
ghost use Rattle.nego_core.specs.Widening.{IsFoundBy, IsFoundWidened};

use crate::as_lang::AsLang;
use crate::choosing::Choice;
use crate::lang_set::is_among;
use crate::lookup_places::{Found, lookup};
use crate::widened_choice::{Earliest, Languages, WidenedRanges, choose_widened};
use lang_core::Lang;
use list_core::{PriorityList, Scheme};

/// Whether lookup also lets a range find the languages that it matches.
#[derive(Clone, Copy, Debug, PartialEq, Eq)]
pub enum Widening {
    /// It does not: lookup as RFC 4647 section 3.4 has it.
    Off,
    /// It does, and ranges match by this scheme.
    By(Scheme),
}

/// `lookup`, or `lookup_widened` under the scheme. It takes no memory.
pub fn lookup_by(
    list: &PriorityList,
    widening: Widening,
    langs: &[Lang],
    default: Option<&Lang>,
) -> Found
    ensures { IsFoundBy widening list.now langs.now (option_map (λ l. l.now) default.entry) result }
{
    match widening {
        Widening::Off => lookup(list, langs, default),
        Widening::By(scheme) => lookup_widened(list, scheme, langs, default),
    }
}

/// Widened lookup as `lookup_widened_lent` does it, over a slice of languages.
pub fn lookup_widened(
    list: &PriorityList,
    scheme: Scheme,
    langs: &[Lang],
    default: Option<&Lang>,
) -> Found
    ensures { IsFoundWidened scheme list.now langs.now (option_map (λ l. l.now) default.entry)
        result }
{
    find_widened::<Lang>(list, scheme, langs, default)
}

/// Widened lookup over borrowed languages. It takes no memory.
///
/// The ranges are tried by descending weight, then as written: each through its truncations, as in
/// `lookup`, and then through the languages that it matches under the scheme, in the order of their
/// bytes, before the next range is tried. The answer is the first of these that is in the slice and
/// is not refused by the items other than "*", at its least place. Where there is none, it is the
/// default, as in `lookup`: that one is not widened.
///
/// "*" finds nothing, and no range finds `@none`.
///
/// Each language is asked once which range matches it first, and whether it is refused. Only
/// extended ranges are compared with each language, as a filter compares them.
///
/// ```text
/// fr, en over fr-ca and en      Matched(0)
/// en over en-us and en-gb       Matched(1)
/// ```
pub fn lookup_widened_lent(
    list: &PriorityList,
    scheme: Scheme,
    langs: &[&Lang],
    default: Option<&Lang>,
) -> Found
    ensures { IsFoundWidened scheme list.now (texts_of langs.now)
        (option_map (λ l. l.now) default.entry) result }
{
    find_widened::<&Lang>(list, scheme, langs, default)
}

/// The languages of a slice, owned or borrowed, which are compared one by one.
#[derive(Drop)]
pub(crate) struct Listed<'a, L> {
    pub(crate) langs: &'a [L],
}

impl<'a, L: AsLang> Languages for Listed<'a, L> {
    ghost texts = { λ s. map L.text s.langs.now };

    fn has(&self, lang: &str) -> bool {
        place_among(self.langs, lang).is_some()
    }

    fn earliest(&self, ranges: &WidenedRanges<'_>) -> Option<Earliest<'_>> {
        earliest_of(self.langs, ranges)
    }
}

/// The languages of the slice, which are compared one by one.
impl Languages for &[Lang] {
    ghost texts = { λ langs. langs.now };

    fn has(&self, lang: &str) -> bool {
        is_among(self, lang)
    }

    fn earliest(&self, ranges: &WidenedRanges<'_>) -> Option<Earliest<'_>> {
        earliest_of(self, ranges)
    }
}

/// The least place of a text that is there.
pub(crate) fn listed_place<L: AsLang>(langs: &[L], text: &str) -> usize
    requires { IsTrue (is_among (map L.text langs.now) text.now) }
    ensures { least_place (map L.text langs.now) text.now ≡ Some result }
{
    match place_among(langs, text) {
        Some(place) => place,
        None => unreachable!(),
    }
}

/// Widened lookup over languages, owned or borrowed.
fn find_widened<L: AsLang>(
    list: &PriorityList,
    scheme: Scheme,
    langs: &[L],
    default: Option<&Lang>,
) -> Found
    ensures { IsFoundWidened scheme list.now (map L.text langs.now)
        (option_map (λ l. l.now) default.entry) result }
{
    match choose_widened(list, scheme, &Listed { langs }, default) {
        Choice::Matched(text) => Found::Matched(listed_place(langs, text)),
        Choice::Default => match default {
            Some(lang) => Found::Default(listed_place(langs, lang.as_str())),
            None => unreachable!(),
        },
        Choice::Nothing => Found::Nothing,
    }
}

/// Of the languages that the ranges match the earliest.
fn earliest_of<'a, L: AsLang>(langs: &'a [L], ranges: &WidenedRanges<'_>) -> Option<Earliest<'a>>
    ensures { MatchEarliest ranges.now.scheme ranges.now.list.now (map L.text langs.now) result }
{
    let mut earliest = None;
    for lang in langs {
        earliest = ranges.earlier(earliest, lang.as_lang());
    }
    earliest
}

/// The least place of a text, if it is there.
fn place_among<L: AsLang>(langs: &[L], text: &str) -> Option<usize>
    ensures { result ≡ least_place (map L.text langs.now) text.now }
{
    for (place, lang) in langs.iter().enumerate() {
        if lang.as_lang().as_str() == text {
            return Some(place);
        }
    }
    None
}
