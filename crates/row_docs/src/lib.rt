//! What the documents of sites and of scripts have in common: their header and their rows, read and
//! written.
//!
//! - [`read_header`] reads a document of a [`Kind`] and gives its rows to a [`Rows`], one after
//!   another; a summary takes its rows so.
//! - [`Cut`] is what is kept of a row until then, so that a refused one takes little memory.
//! - [`CellRow`] is a row as it is written, and [`cell_entry`] what it means; [`entry_of_row`] is
//!   both.
//! - [`plain_texts`] reads what is in the form that is written byte by byte.
//! - [`write_entry`] and [`write_stamped`] write a row, [`write_texts`] the texts of a label, and
//!   [`finish`] ends a document.
//!
//! Callers find what they need in `docs_core`.
#![tactic(auto)]

mod arrays;
mod ascending;
mod cuts;
mod entries;
mod fields;
mod header;
mod kind;
pub mod laws;
pub mod plain_texts;
mod shapes;
mod tested_header;
mod version;
mod writing;

pub use arrays::Rows;
pub use ascending::entry_of_row;
pub use cuts::{Cut, recounted};
pub use entries::{write_entry, write_stamped};
pub use fields::{cell_entry, id_of, language_of, of_cell, stamp_entry};
pub use header::Subject;
pub use kind::Kind;
pub use shapes::{CellRow, Row, SiteText, cell_of};
pub use tested_header::{TestedHeader, read_header};
pub use version::Version;
pub use writing::{finish, write_texts};
