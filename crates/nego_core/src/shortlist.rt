//! Priority lists cut to some languages.
ghost use Rattle.std.specs.Prelude.{◌≡◌, IfOk, IsPermutation, IsSorted, IsTrue, length};
ghost use Rattle.std.specs.Prelude.{option_map};
ghost use Rattle.nego_core.specs.Filtering.{texts_of};
ghost use Rattle.nego_core.specs.LangSet.{is_among};
ghost use Rattle.nego_core.specs.Choosing.{MatchFirstOf};
ghost use Rattle.nego_core.specs.Shortlist.{AreAmong, IsChosenBy, IsOneOf, IsRanking, IsShortlist};
ghost use Rattle.nego_core.specs.Shortlist.{IsThere, matched_text};
ghost use Rattle.nego_core.specs.inner.Shortlist.{AreMatchedBy, AreMatchedLangs, matched_cmp};

use crate::choosing::{Choice, has_open_default, is_open};
use crate::unranked::Unranked;
use crate::widened_choice::{Languages, Searched, WidenedRanges};
use crate::widening::Widening;
use lang_core::Lang;
use list_core::{OrderedText, PriorityList};
use std::alloc::{AllocError, Global};
use std::marker::Model;

/// A priority list, cut to some languages: those that lookup can find, best first.
///
/// Lookup over any of these languages finds what the whole list finds, and asks for no more than
/// there are. So where many lookups search the same few languages, a long list costs its length
/// once.
#[derive(Drop)]
pub struct Shortlist<'a> {
    list: &'a PriorityList,
    widening: Widening,
    /// The languages that it is cut to.
    langs: &'a [&'a Lang],
    /// Those that lookup finds, best first.
    ranked: Vec<&'a Lang>,
}

impl<'a> Model for Shortlist<'a> {
    ghost use Rattle.nego_core.specs.Filtering.{texts_of};
    ghost use Rattle.nego_core.specs.Shortlist.{IsRanking, Shortlist};

    ghost Value = { Shortlist };

    ghost view = { λ s. record {
      items = s.list.now;
      widening = s.widening;
      langs = texts_of s.langs.now;
      ranked = texts_of s.ranked.items;
    } };

    ghost invariant = { λ s. IsRanking s.widening s.list.now (texts_of s.langs.now)
        (texts_of s.ranked.items) };
}

impl<'a> Shortlist<'a> {
    /// The list, cut to these languages, for lookups that are widened or not.
    ///
    /// It takes time for each candidate of the items and for each language. Only where ranges are
    /// extended and lookup is widened is each range compared with each language. Out of memory is
    /// the only refusal.
    pub fn new(
        alloc: Global,
        list: &'a PriorityList,
        widening: Widening,
        langs: &'a [&'a Lang],
    ) -> Result<Shortlist<'a>, AllocError>
        ensures { IfOk result (IsShortlist list.now widening (texts_of langs.now)) }
    {
        let ranked = rank(alloc, list, widening, langs)?;
        Ok(Shortlist {
            list,
            widening,
            langs,
            ranked,
        })
    }

    /// How many languages a lookup asks for before the default: no more than the list is cut to.
    pub fn tried(&self) -> usize
        ensures { result ≡ length self.now.ranked }
    {
        self.ranked.len()
    }

    /// Lookup with a default, as [`choose`](crate::choose) does it by the whole list, or
    /// [`choose_widened`](crate::choose_widened), over languages that are all among those that the
    /// list is cut to. In any case what is answered is among the languages, and it is the first of
    /// those that the list has ranked, of which there are [`Shortlist::tried`]. It takes no memory.
    pub fn choose<'b, L: Languages>(&'b self, langs: &'b L, default: Option<&Lang>) -> Choice<'b>
        ensures chosen { AreAmong (L.texts langs.now) self.now.langs
            → IsChosenBy self.now.widening self.now.items (L.texts langs.now)
            (option_map (λ l. l.now) default.entry) result }
        ensures there { IsThere (L.texts langs.now) (option_map (λ l. l.now) default.entry) result }
        ensures first { MatchFirstOf (IsOneOf (L.texts langs.now)) self.now.ranked
            (matched_text result) }
    {
        match first_among(&self.ranked, langs) {
            Some(lang) => Choice::Matched(lang.as_str()),
            None => {
                if has_open_default(self.list, &Searched { langs }, default) {
                    Choice::Default
                } else {
                    Choice::Nothing
                }
            }
        }
    }
}

/// The first of these languages that is among the others.
fn first_among<'a, L: Languages>(ranked: &[&'a Lang], langs: &L) -> Option<&'a Lang>
    ensures { MatchFirstOf (IsOneOf (L.texts langs.now)) (texts_of ranked.now)
        (option_map (λ lang. lang.now) result) }
{
    for lang in ranked {
        if langs.has(lang.as_str()) {
            return Some(*lang);
        }
    }
    None
}

/// A language, and where in the order of lookup the range comes that matches it first. Such are
/// compared by that place, then by the languages' bytes.
#[derive(PartialEq, Eq, PartialOrd, Ord, Drop)]
pub(crate) struct MatchedLang<'a> {
    pub(crate) tried: usize,
    pub(crate) lang: OrderedText<'a>,
}

/// Of these languages those that lookup finds, best first: item by item in the order of lookup its
/// candidates, and after them the languages that it matches, where it is widened.
fn rank<'a>(
    alloc: Global,
    list: &PriorityList,
    widening: Widening,
    langs: &[&'a Lang],
) -> Result<Vec<&'a Lang>, AllocError>
    ensures { IfOk result (λ ranked. IsRanking widening list.now (texts_of langs.now)
        (texts_of ranked.items)) }
{
    let matched = matched_langs(alloc, list, widening, langs)?;
    let mut left = Unranked::new(alloc, langs)?;
    let mut ranked = Vec::new(alloc);
    let mut next = 0;
    let items = list.items();
    let keys = list.order();
    for (at, key) in keys.iter().enumerate() {
        match items.get(key.place) {
            Some(item) => {
                for text in item.candidates() {
                    if is_open(list, &left, text) {
                        match left.take(text) {
                            Some(lang) => ranked.push(lang)?,
                            None => {}
                        }
                    }
                }
            }
            None => {}
        }
        while next < matched.len() && matched[next].tried == at {
            match left.take(matched[next].lang.text()) {
                Some(lang) => ranked.push(lang)?,
                None => {}
            }
            next += 1;
        }
    }
    Ok(ranked)
}

/// The languages that the ranges match, where lookup is widened, the earliest first.
fn matched_langs<'a>(
    alloc: Global,
    list: &PriorityList,
    widening: Widening,
    langs: &[&'a Lang],
) -> Result<Vec<MatchedLang<'a>>, AllocError>
    ensures { IfOk result (λ matched. AreMatchedBy widening list.now (texts_of langs.now)
        matched.items) }
{
    match widening {
        Widening::Off => Ok(Vec::new(alloc)),
        Widening::By(scheme) => {
            let mut matched = all_matched(alloc, &WidenedRanges::new(list, scheme), langs)?;
            sort_matched(&mut matched);
            Ok(matched)
        }
    }
}

/// The languages that the ranges match, in their own order.
fn all_matched<'a>(
    alloc: Global,
    ranges: &WidenedRanges<'_>,
    langs: &[&'a Lang],
) -> Result<Vec<MatchedLang<'a>>, AllocError>
    ensures { IfOk result (λ matched. AreMatchedLangs ranges.now.scheme ranges.now.list.now
        (texts_of langs.now) matched.items) }
{
    let mut matched = Vec::new(alloc);
    for lang in langs {
        match ranges.first_tried(lang) {
            Some(tried) => matched.push(MatchedLang {
                tried,
                lang: OrderedText::new(lang.as_str()),
            })?,
            None => {}
        }
    }
    Ok(matched)
}

/// Puts the languages in the order of what matches them, and of their bytes.
fn sort_matched(matched: &mut Vec<MatchedLang>)
    ensures same { IsPermutation matched.old.items matched.new.items }
    ensures ascending { IsSorted matched_cmp matched.new.items }
{
    matched.sort_unstable()
}
