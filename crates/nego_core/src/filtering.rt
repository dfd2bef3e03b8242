//! Filtering (RFC 4647 section 3.3): all languages that a list accepts, the best first.
ghost use Rattle.std.specs.Prelude.{◌≡◌, ◌==◌, length, MatchOption, MatchResult, IfOk};
ghost use Rattle.std.specs.Prelude.{IsPermutation, IsSorted, map};
ghost use Rattle.std.specs.List.{slice_get};
ghost use Rattle.std.specs.Cmp as laws_of;
ghost use Rattle.std.specs.Cmp.Lexicographic.{pointwise, lists_equiv};
ghost use Rattle.std.specs.Slice.Iter.{iter_rest};
ghost use Rattle.nego_core.specs.Filtering.{pick_eq, IsFiltered, IsKey, HasNoKey, HasPick, AreKeys};
ghost use Rattle.nego_core.specs.Filtering.{pick_of, filter_key_cmp, texts_of};
ghost use Rattle.nego_core.specs.inner.Filtering.{pick_equiv};
ghost use Rattle.list_core.specs.declared.fault.NegoFault.TheVariants.{NoMemory};

use crate::as_lang::AsLang;
use lang_core::Lang;
use list_core::{NegoFault, OrderedText, PriorityList, Scheme};
use std::alloc::{AllocError, Global};
use std::marker::Model;
use std::{fmt, slice};

/// A language of a filter's answer.
#[derive(Clone, Copy, Debug, PartialEq, Eq)]
pub struct Pick {
    /// The language's place in the slice.
    pub place: usize,
    /// The weight of the item that decides the language, in thousandths, from 1 to 1000.
    pub weight: u16,
}

/// A filter's answer, the best language first.
#[derive(Drop)]
pub struct Picks {
    picks: Vec<Pick>,
}

impl Model for Picks {
    ghost use Rattle.std.specs.Prelude.{List};
    ghost use Rattle.nego_core.specs.declared.filtering.Pick.{Pick};

    ghost Value = { List Pick };

    ghost view = { λ p. p.picks.items };
}

impl Picks {
    /// The answer with these picks.
    pub(crate) fn new(picks: Vec<Pick>) -> Picks
        ensures { result ≡ picks.items }
    {
        Picks { picks }
    }

    /// How many languages were picked.
    pub fn len(&self) -> usize
        ensures { result ≡ length self.now }
    {
        self.picks.len()
    }

    /// Whether no language was picked.
    pub fn is_empty(&self) -> bool
        ensures { result ≡ (length self.now == 0) }
    {
        self.picks.is_empty()
    }

    /// The pick at a place of the answer, or `None` past its end.
    pub fn nth(&self, place: usize) -> Option<Pick>
        ensures { result ≡ slice_get self.now place }
    {
        self.picks.get(place).copied()
    }

    /// The picks, the best one first.
    pub fn iter(&self) -> slice::Iter<'_, Pick>
        ensures { iter_rest result ≡ self.now }
    {
        self.picks.iter()
    }
}

/// Gives the picks, the best one first.
impl<'a> IntoIterator for &'a Picks {
    type Item = &'a Pick;

    type IntoIter = slice::Iter<'a, Pick>;

    ghost into_iter_gives = { λ picks it. iter_rest it ≡ picks.now };

    fn into_iter(self) -> Self::IntoIter {
        self.iter()
    }
}

/// Answers of a filter are equal where their picks are.
impl PartialEq for Picks {
    ghost eq = { pointwise pick_eq };

    ghost laws = { laws_of.partial_equiv_from_equiv (lists_equiv pick_equiv) };

    fn eq(&self, other: &Picks) -> bool {
        self.picks == other.picks
    }
}

impl Eq for Picks {
    ghost laws = { lists_equiv pick_equiv };
}

impl fmt::Debug for Picks {
    /// Lists the picks.
    fn fmt<W: fmt::Write>(&self, f: &mut fmt::Formatter<W>) -> fmt::Result {
        f.debug_list().entries(self).finish()
    }
}

/// Filtering (RFC 4647 section 3.3) as `filter_lent` does it, over a slice of languages.
pub fn filter(
    alloc: Global,
    list: &PriorityList,
    scheme: Scheme,
    langs: &[Lang],
) -> Result<Picks, NegoFault>
    ensures { MatchResult result (IsFiltered scheme list.now langs.now)
        (λ fault. (fault ≡ NoMemory) × HasPick scheme list.now langs.now) }
{
    filter_by::<Lang>(alloc, list, scheme, langs)
}

/// Filtering (RFC 4647 section 3.3) over borrowed languages: those that an item of positive weight
/// decides, each once, by descending weight, then by the item's place, the language's bytes and its
/// place. `@none` is never picked.
///
/// The only refusal is `NoMemory`, and it comes only where there is something to pick.
pub fn filter_lent(
    alloc: Global,
    list: &PriorityList,
    scheme: Scheme,
    langs: &[&Lang],
) -> Result<Picks, NegoFault>
    ensures { MatchResult result (IsFiltered scheme list.now (texts_of langs.now))
        (λ fault. (fault ≡ NoMemory) × HasPick scheme list.now (texts_of langs.now)) }
{
    filter_by::<&Lang>(alloc, list, scheme, langs)
}

/// Sort key of a filter's answer: its fields are compared in this order. It has no invariant, as a
/// ghost field would import what the contracts of this file cite, and those cite the key.
#[derive(PartialEq, Eq, PartialOrd, Ord, Drop)]
pub(crate) struct FilterKey<'a> {
    /// 1000 less the weight.
    pub(crate) missing_weight: u16,
    /// The place of the item.
    pub(crate) item: usize,
    pub(crate) lang: OrderedText<'a>,
    pub(crate) place: usize,
}

/// Filtering over languages, owned or borrowed.
fn filter_by<L: AsLang>(
    alloc: Global,
    list: &PriorityList,
    scheme: Scheme,
    langs: &[L],
) -> Result<Picks, NegoFault>
    ensures { MatchResult result (IsFiltered scheme list.now (map L.text langs.now))
        (λ fault. (fault ≡ NoMemory) × HasPick scheme list.now (map L.text langs.now)) }
{
    let mut keys = filter_keys_of(alloc, list, scheme, langs)?;
    if keys.is_empty() {
        return Ok(Picks::new(Vec::new(alloc)));
    }
    sort_filter_keys(&mut keys);
    let picks = picks_of(alloc, &keys)?;
    Ok(Picks::new(picks))
}

/// The keys of the languages that are picked, in the order of the languages.
fn filter_keys_of<'a, L: AsLang>(
    alloc: Global,
    list: &PriorityList,
    scheme: Scheme,
    langs: &'a [L],
) -> Result<Vec<FilterKey<'a>>, AllocError>
    ensures { MatchResult result
        (λ keys. AreKeys scheme list.now 0 (map L.text langs.now) keys.items)
        (λ _. HasPick scheme list.now (map L.text langs.now)) }
{
    let mut keys = Vec::new(alloc);
    for (place, lang) in langs.iter().enumerate() {
        match filter_key_of(list, scheme, lang.as_lang(), place) {
            Some(key) => keys.push(key)?,
            None => {}
        }
    }
    Ok(keys)
}

/// The key of a language, if an item of positive weight decides it.
fn filter_key_of<'a>(
    list: &PriorityList,
    scheme: Scheme,
    lang: &'a Lang,
    place: usize,
) -> Option<FilterKey<'a>>
    ensures { MatchOption result (HasNoKey scheme list.now lang.now place)
        (λ key. IsKey scheme list.now lang.now place key) }
{
    match list.decision_on(scheme, lang) {
        Some(found) if found.weight > 0 => Some(FilterKey {
            missing_weight: 1000 - found.weight,
            item: found.place,
            lang: OrderedText::new(lang.as_str()),
            place,
        }),
        _ => None,
    }
}

/// Puts the best language first.
fn sort_filter_keys(keys: &mut Vec<FilterKey>)
    ensures same { IsPermutation keys.old.items keys.new.items }
    ensures ascending { IsSorted filter_key_cmp keys.new.items }
{
    keys.sort_unstable()
}

/// The picks of the keys.
fn picks_of(alloc: Global, keys: &[FilterKey]) -> Result<Vec<Pick>, AllocError>
    ensures { IfOk result (λ picks. picks.items ≡ map pick_of keys.now) }
{
    keys.iter()
        .map(|key| Pick {
            place: key.place,
            weight: 1000u16.saturating_sub(key.missing_weight),
        })
        .collect(alloc)
}
