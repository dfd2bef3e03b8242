//! Lookup (RFC 4647 section 3.4) over a slice of languages, by their places.
ghost use Rattle.std.specs.Prelude.{◌≡◌, IsTrue, Some, option_map};
ghost use Rattle.nego_core.specs.LookupPlaces.{IsFound, least_place};
ghost use Rattle.nego_core.specs.LangSet.{is_among};

use crate::choosing::{Choice, choose};
use crate::lang_set::LangSet;
use lang_core::Lang;
use list_core::PriorityList;

/// What lookup answers over a slice of languages, by their places.
#[derive(Clone, Copy, Debug, PartialEq, Eq)]
pub enum Found {
    /// The least place of the language found.
    Matched(usize),
    /// The least place of the default.
    Default(usize),
    /// Nothing fits, and no default is open.
    Nothing,
}

/// Lookup (RFC 4647 section 3.4) over a slice of languages: as `choose`, with places in
/// place of texts. It takes no memory.
pub fn lookup(list: &PriorityList, langs: &[Lang], default: Option<&Lang>) -> Found
    ensures { IsFound list.now langs.now (option_map (λ l. l.now) default.entry) result }
{
    match choose(list, &LangSet::new(langs), default) {
        Choice::Matched(text) => Found::Matched(held_place(langs, text)),
        Choice::Default => match default {
            Some(lang) => Found::Default(held_place(langs, lang.as_str())),
            None => unreachable!(),
        },
        Choice::Nothing => Found::Nothing,
    }
}

/// The least place of a text that is there.
fn held_place(langs: &[Lang], text: &str) -> usize
    requires { IsTrue (is_among langs.now text.now) }
    ensures { least_place langs.now text.now ≡ Some result }
{
    match place_of(langs, text) {
        Some(place) => place,
        None => unreachable!(),
    }
}

/// The least place of a text, if it is there.
fn place_of(langs: &[Lang], text: &str) -> Option<usize>
    ensures { result ≡ least_place langs.now text.now }
{
    langs.iter().position(|lang| lang.as_str() == text)
}
