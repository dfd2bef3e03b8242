//! Language negotiation: priority lists (RFC 9110 section 12.5.4, RFC 4647 section 2.3), filtering
//! (RFC 4647 section 3.3) and lookup (RFC 4647 section 3.4).
//!
//! - [`PriorityList`] is what a reader prefers: ranges with weights, read from an Accept-Language
//!   field or from a list of extended ranges. [`Malformed`] says whether a malformed element
//!   refuses the field or is skipped.
//! - [`filter`] gives all languages of a slice that the list accepts, best first.
//! - [`lookup`] gives the one that fits best, or a default; [`choose`] does so over any set that
//!   can say whether it has a text ([`Holds`]).
//! - [`lookup_widened`] also lets a range find the languages that it matches, as `en` finds en-us.
//!   [`lookup_by`] does either, as its [`Widening`] says; [`choose_widened`] does so over any
//!   [`Languages`] that can be searched.
//! - [`Fallbacks`] is a table by which lookup tries other tags after a range, as `nb` after `no`.
//! - [`Shortlist`] ranks some languages by a list, so that many lookups over these cost the length
//!   of a long list once.
//! - [`NegoFault`] says why a field is refused, and where.
//!
//! Of several ranges that match a tag the one with the most subtags other than "*" decides, and
//! weight 0 refuses. Of the questions only a filter allocates, for its answer.
//!
//! ```text
//! let list = PriorityList::from_accept(alloc, b"da, en-GB;q=0.8, en;q=0.7")?;
//! let langs = [Lang::parse(alloc, b"de")?, Lang::parse(alloc, b"en")?];
//! lookup(&list, &langs, None)                        Found::Matched(1)
//! filter(alloc, &list, Scheme::Basic, &langs)?       en, weight 700
//! ```
//!
//! The laws of these definitions are in [`laws`].
#![tactic(auto)]

mod as_lang;
mod choosing;
mod filtering;
mod lang_set;
pub mod laws;
mod lookup_places;
mod offer;
mod shortlist;
mod unranked;
mod widened_choice;
mod widening;

pub use choosing::{Choice, choose};
pub use filtering::{Pick, Picks, filter, filter_lent};
pub use lang_set::Holds;
pub use list_core::{Fallbacks, Item, Malformed, NegoFault, PriorityList, Scheme};
pub use lookup_places::{Found, lookup};
pub use offer::Offer;
pub use shortlist::Shortlist;
pub use widened_choice::{Earliest, Languages, WidenedRanges, choose_widened};
pub use widening::{Widening, lookup_by, lookup_widened, lookup_widened_lent};
