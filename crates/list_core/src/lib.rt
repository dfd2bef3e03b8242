//! Priority lists of language ranges: how a field is read (RFC 9110 section 12.5.4, RFC 4647
//! section 2.3), which item decides a tag, and in which order lookup tries the items.
//!
//! - [`PriorityList`] is what a reader prefers: ranges with weights, read from an Accept-Language
//!   field or from a list of extended ranges. [`Malformed`] says whether a malformed element
//!   refuses the field or is skipped.
//! - Of several ranges that match a tag the one with the most subtags other than "*" decides
//!   ([`PriorityList::item_for`]), and weight 0 refuses. [`IndexedItems`] finds it without
//!   comparing every range.
//! - [`OrderKey`] says when lookup tries an item.
//! - [`NegoFault`] says why a field is refused, and where.
//!
//! `nego_core` answers questions by these lists, and exports what its callers need of them. The
//! laws of these definitions are in [`laws`].
#![tactic(auto)]

mod buckets;
mod candidates;
mod deciding;
mod fallbacks;
mod fault;
mod field;
mod fingerprint;
mod first_tried;
mod hashed_ranges;
mod index;
mod indexed_items;
mod item;
pub mod laws;
mod lookup_order;
mod ordered_text;
mod packed_tag;
mod priority_list;
mod scheme;
mod weight;

pub use candidates::Candidates;
pub use deciding::{Decision, MostSpecific};
pub use fallbacks::Fallbacks;
pub use fault::NegoFault;
pub use field::Malformed;
pub use fingerprint::slot_of;
pub use indexed_items::IndexedItems;
pub use item::Item;
pub use lookup_order::OrderKey;
pub use ordered_text::OrderedText;
pub use priority_list::PriorityList;
pub use scheme::Scheme;
