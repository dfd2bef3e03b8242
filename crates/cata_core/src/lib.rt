//! The catalogue, its sites and deltas, and runs of them.
//!
//! - [`Catalogue`] maps messages and languages to cells, and keeps of each key the edit with the
//!   greatest stamp. [`Catalogue::ask_lookup`] and [`Catalogue::ask_filter`] answer a reader, and
//!   [`Catalogue::messages`] gives each [`Message`] that has a live label. A list by which
//!   [`Catalogue::languages`] are ranked once answers all of them, each by a few languages
//!   ([`Message::lookup_within`]).
//! - [`Site`] is a catalogue with a name: it puts and deletes labels under stamps of its own.
//! - Sites exchange cells whole by [`sync`], or by a [`Summary`] of what one has and the [`Delta`]
//!   of what it lacks, which may come late, again, or out of order.
//! - [`play`] runs any list of [`Step`]s over sites, and its contract is the main promise: sites
//!   that took the same edits hold equal catalogues and give equal answers.
//!
//! ```text
//! let mut paris = Site::new(alloc, SiteName::new("paris")?);
//! let mut tokyo = Site::new(alloc, SiteName::new("tokyo")?);
//! paris.put(alloc, 5, &id, &fr, &bonjour)?;
//! sync(alloc, &mut paris, &mut tokyo)?;
//! tokyo.catalogue().ask_lookup(&id, &list, None)     LentReply::Matched(fr, bonjour)
//! ```
//!
//! Refusals are a [`CataFault`], or of a run a [`PlayFault`] with its step. The laws of catalogues,
//! deltas and runs are in [`laws`].
#![tactic(auto)]

mod answer;
mod delta;
mod latest;
pub mod laws;
mod own_edits;
mod play_fault;
mod runs;
mod site;
mod step;
mod summary;
mod summary_entries;
mod syncing;

pub use answer::{Answer, Answers, Edits};
pub use catalogue::{
    CataFault, Catalogue, Cells, Change, Changes, Edit, Entries, Labels, LentEntries, LentReply,
    Message, Messages, Reply, list_languages,
};
pub use delta::Delta;
pub use play_fault::PlayFault;
pub use runs::play;
pub use site::Site;
pub use step::Step;
pub use summary::Summary;
pub use summary_entries::SummaryEntries;
pub use syncing::sync;
