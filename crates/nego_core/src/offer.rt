//! What readers are offered of the languages that there are. This is the project's own, and no part
//! of RFC 4647.
ghost use Rattle.std.specs.Prelude.{◌≡◌, ◌↔◌, IsTrue};
ghost use Rattle.nego_core.specs.Offer.{IsPrivateUse, is_offered, items_of};

use lang_core::Lang;
use list_core::{PriorityList, Scheme};

/// The languages that readers are offered. `@none` always is one of them.
///
/// A site has more than is published: notes of translators, a translation that is not done yet. A
/// question under an offer is that question without the languages that are not offered.
#[derive(Clone, Copy)]
pub enum Offer<'a> {
    /// All languages, as the field `*` offers them.
    All,
    /// All languages but those of private use, as the field `*, x;q=0` offers them.
    Public,
    /// The languages that basic filtering by the list gives (RFC 4647 section 3.3.1).
    Listed(&'a PriorityList),
}

impl Offer<'_> {
    /// Whether the language is offered. It takes no memory.
    pub fn offers(self, lang: &Lang) -> bool
        ensures { result ≡ is_offered (items_of self.entry) lang.now }
    {
        match self {
            Offer::All => true,
            Offer::Public => !is_private_use(lang.as_str().as_bytes()),
            Offer::Listed(list) => is_listed(list, lang),
        }
    }
}

/// Whether the list offers the language.
fn is_listed(list: &PriorityList, lang: &Lang) -> bool
    ensures { result ≡ is_offered list.now lang.now }
{
    match list.decision_on(Scheme::Basic, lang) {
        Some(decision) => decision.weight > 0,
        None => lang.tag().is_none(),
    }
}

/// Whether the first subtag is "x": then the tag is of private use (RFC 5646 section 2.1).
fn is_private_use(text: &[u8]) -> bool
    ensures { IsTrue result ↔ IsPrivateUse text.now }
{
    text == b"x".as_slice() || text.starts_with(b"x-")
}
