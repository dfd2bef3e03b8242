//! Site names, stamps, message ids, labels and cells, and how they join.
//!
//! These are state-based CRDTs (CvRDTs, INRIA RR-7506, 2.2 and 2.3): replicas exchange their whole
//! values and join them, and since joins keep the laws of a join semilattice, replicas converge.
//!
//! - [`Join`] is the trait of values that join. Its laws belong to it, and each implementation
//!   proves them. [`join_all`] joins a list, and [`agree_all`] says whether it may.
//! - [`Cell`] is a last-writer-wins register (RR-7506, 3.2.1): a [`Stamp`] with a [`Label`], or
//!   with none for a deletion. Of two cells the join keeps the one with the greater stamp.
//! - [`Keyed`] is a map that joins key by key. A [`Query`] finds an entry without a [`Key`].
//! - [`Entry`] is a value of a message in a language, such as a cell, a label or a stamp.
//! - [`MessageId`] and [`SiteName`] are checked texts, and [`CellFault`] says why one is refused.
//!
//! ```text
//! let paris = SiteName::new("paris")?;
//! let first = Stamp::next(None, 5, paris)?                 5 paris 0
//! let second = Stamp::next(Some(first), 3, paris)?         5 paris 1
//! let mut mine = Cell::new(first, Some(hello));
//! let theirs = Cell::new(second, None);
//! mine.agrees(&theirs)                                     true: their stamps differ
//! mine.join(alloc, &theirs)?                               mine is the deletion, of stamp second
//!
//! let mut cells = Keyed::new(alloc);                       Keyed<Lang, Cell>: one message
//! cells.put(en, mine)                                      Ok(()), or the pair back (no memory)
//! cells.get_by("en")                                       the entry of en, found by its text
//! cells.join(alloc, &other)?                               key by key, as cells join
//! ```
//!
//! The laws of names, stamps and cells are in [`laws`].
#![tactic(auto)]

mod cell;
mod chunk_joins;
mod chunks;
mod entry;
mod fault;
mod interleave;
mod join;
mod key;
mod keyed;
mod label;
pub mod laws;
mod message_id;
mod pairs;
mod site_name;
mod stamp;
mod zero_padded;

pub use cell::Cell;
pub use entry::Entry;
pub use fault::CellFault;
pub use join::{Join, agree_all, join_all};
pub use key::{Key, Query};
pub use keyed::Keyed;
pub use keyed::iter::Iter;
pub use label::Label;
pub use message_id::MessageId;
pub use site_name::SiteName;
pub use stamp::Stamp;
