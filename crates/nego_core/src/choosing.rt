//! Lookup (RFC 4647 section 3.4) over any set of languages, with a default: the ranges in order,
//! each through its truncations.
ghost use Rattle.std.specs.Prelude.{◌↔◌, IsTrue, option_map};
ghost use Rattle.list_core.specs.Deciding.{IsRefusedLang};
ghost use Rattle.nego_core.specs.Choosing.{IsOpenDefault, HasOpenDefault, IsChosen};
ghost use Rattle.list_core.specs.declared.scheme.Scheme.TheVariants as scheme;
ghost use Rattle.lang_core.specs.Text.{pieces};
ghost use Rattle.list_core.specs.Candidates.{candidates_of};
ghost use Rattle.list_core.specs.Deciding.{NamedRefuse};
ghost use Rattle.nego_core.specs.Choosing.{IsOpen, MatchFirstOf, IsLookedUp};
ghost use Rattle.nego_core.specs.inner.Choosing.{candidates_at};

use crate::lang_set::Holds;
use lang_core::Lang;
use list_core::{Item, PriorityList, Scheme};

/// What lookup answers over a set of languages.
#[derive(Clone, Copy, Debug, PartialEq, Eq)]
pub enum Choice<'a> {
    /// The language found, by its text: a prefix of an item's lookup text.
    Matched(&'a str),
    /// The default.
    Default,
    /// Nothing fits, and no default is open.
    Nothing,
}

/// Lookup (RFC 4647 section 3.4) over any set that can say which languages it has. It takes no
/// memory.
///
/// The ranges are tried by descending weight, then as written, each through all its truncations.
/// The answer is the first text that is in the set and is not refused by the items other than "*".
/// Where there is none, it is the default, if that is in the set and the whole list does not refuse
/// it.
///
/// So `*;q=0` bars the default, but no match: `en-GB, *;q=0` over a set with `en` finds `en`.
pub fn choose<'a, H: Holds>(list: &'a PriorityList, held: &H, default: Option<&Lang>) -> Choice<'a>
    ensures { IsChosen list.now (H.held held.now) (option_map (λ l. l.now) default.entry) result }
{
    match look_up(list, held) {
        Some(text) => Choice::Matched(text),
        None => {
            if has_open_default(list, held, default) {
                Choice::Default
            } else {
                Choice::Nothing
            }
        }
    }
}

/// The first candidate of the items, in their order by weight, that is open (RFC 4647 section 3.4).
pub(crate) fn look_up<'a, H: Holds>(list: &'a PriorityList, held: &H) -> Option<&'a str>
    ensures { IsLookedUp list.now (H.held held.now) (option_map (λ text. pieces text.now) result) }
{
    let keys = list.order();
    for key in keys {
        match first_at(list, key.place, held) {
            Some(text) => return Some(text),
            None => {}
        }
    }
    None
}

/// The first candidate of the item at the place that is open.
pub(crate) fn first_at<'a, H: Holds>(
    list: &'a PriorityList,
    place: usize,
    held: &H,
) -> Option<&'a str>
    ensures { MatchFirstOf (IsOpen list.now (H.held held.now)) (candidates_at list.now place)
        (option_map (λ text. pieces text.now) result) }
{
    let items = list.items();
    if place >= items.len() {
        return None;
    }
    first_of(list, &items[place], held)
}

/// The first candidate of the item that is open.
pub(crate) fn first_of<'a, H: Holds>(
    list: &PriorityList,
    item: &'a Item,
    held: &H,
) -> Option<&'a str>
    ensures { MatchFirstOf (IsOpen list.now (H.held held.now)) (candidates_of item.now)
        (option_map (λ text. pieces text.now) result) }
{
    for text in item.candidates() {
        if is_open(list, held, text) {
            return Some(text);
        }
    }
    None
}

/// Whether the items other than "*" refuse the text. A list without a weight 0 is not asked: it
/// refuses nothing, by the law `nothing_refused`.
pub(crate) fn named_refuse(list: &PriorityList, text: &str) -> bool
    ensures { IsTrue result ↔ NamedRefuse list.now (pieces text.now) }
{
    if !list.may_refuse() {
        return false;
    }
    let items = list.items();
    match list.indexed_items().best_named(text.as_bytes()) {
        Some(best) => items[best.place].weight() == 0,
        None => false,
    }
}

/// Whether there is a default, and it is open.
pub(crate) fn has_open_default<H: Holds>(
    list: &PriorityList,
    held: &H,
    default: Option<&Lang>,
) -> bool
    ensures { IsTrue result
        ↔ HasOpenDefault list.now (H.held held.now) (option_map (λ l. l.now) default.entry) }
{
    match default {
        Some(lang) => is_open_default(list, held, lang),
        None => false,
    }
}

/// Whether the text is in the set and not refused.
pub(crate) fn is_open<H: Holds>(list: &PriorityList, held: &H, text: &str) -> bool
    ensures { IsTrue result ↔ IsOpen list.now (H.held held.now) (pieces text.now) }
{
    held.holds(text) && !named_refuse(list, text)
}

/// Whether the default is in the set and the whole list does not refuse it.
fn is_open_default<H: Holds>(list: &PriorityList, held: &H, lang: &Lang) -> bool
    ensures { IsTrue result ↔ IsOpenDefault list.now (H.held held.now) lang.now }
{
    held.holds(lang.as_str()) && !refuses(list, lang)
}

/// Whether the item that decides the language has weight 0.
fn refuses(list: &PriorityList, lang: &Lang) -> bool
    ensures { IsTrue result ↔ IsRefusedLang scheme.Basic list.now lang.now }
{
    if !list.may_refuse() {
        return false;
    }
    match list.decision_on(Scheme::Basic, lang) {
        Some(decision) => decision.weight == 0,
        None => false,
    }
}
