//! One catalogue: its cells, the questions of a reader and of a translator, and what differs from
//! another one.
//!
//! - [`Catalogue`] maps messages and languages to cells, and keeps of each key the edit with the
//!   greatest stamp. [`Catalogue::ask_lookup`] and [`Catalogue::ask_filter`] answer a reader, and
//!   [`Catalogue::messages`] gives each [`Message`] that has a live label. A list by which
//!   [`Catalogue::languages`] are ranked once answers all of them, each by a few languages
//!   ([`Message::lookup_within`]).
//! - [`Catalogue::changes`] gives what differs from another catalogue, as [`Change`]s.
//!
//! `cata_core` has the sites that edit and exchange catalogues, and exports what its callers need
//! of this crate. Refusals are a [`CataFault`]. The laws of catalogues are in [`laws`].
#![tactic(auto)]

mod asking;
mod cata_fault;
mod catalogue;
mod cell_refusal;
mod cells;
mod changes;
mod clash;
mod edit;
mod entries;
mod equality;
mod labels;
mod languages;
pub mod laws;
mod live;
mod messages;
mod places;
mod reply;

pub use cata_fault::CataFault;
pub use catalogue::Catalogue;
pub use cells::Cells;
pub use changes::{Change, Changes};
pub use edit::Edit;
pub use entries::{Entries, LentEntries};
pub use labels::Labels;
pub use languages::list_languages;
pub use messages::{Message, Messages};
pub use reply::{LentReply, Reply};
