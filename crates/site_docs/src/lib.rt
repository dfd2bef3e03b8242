//! The documents of sites, deltas and summaries.
//!
//! [`read_site`], [`read_delta`] and [`read_summary`] read a document; [`write_site`],
//! [`write_delta`] and [`write_summary`] write one. [`site_at`], [`delta_at`] and [`summary_at`]
//! read one document of several, which a refusal names.
//! [`show_document`] shows the cells of a site's document to a [`CellSink`], which keeps what it
//! needs of them, and builds no catalogue;
//! [`show_catalogue`] shows those of a catalogue, and [`RowsInTime`] looks whether the times of
//! what another sink sees are in a limit. [`document_summary`] makes the summary of a
//! document as its rows are read, and a [`RowsDraft`] copies the rows of one document to another.
//! [`WrittenRows`] reads those of a document that is as it is written at its caller's pace. By
//! [`Checks`] an exchange tests the cells that come in.
//!
//! Callers find what they need in `docs_core`.
#![tactic(auto)]

mod checks;
mod document;
pub mod laws;
mod open_rows;
mod plain;
mod rows_draft;
mod rows_in_time;
mod showing;
mod sink;
mod stamps_draft;

pub use checks::{
    Checks, OwnEdits, check_own, check_times, delta_until, first_row_ahead, read_delta_until,
};
pub use document::reading::{delta_at, read_delta, read_site, read_summary, site_at, summary_at};
pub use document::writing::{write_delta, write_site, write_summary};
pub use plain::summaries::document_summary;
pub use plain::written_rows::{WrittenRow, WrittenRows};
pub use rows_draft::RowsDraft;
pub use rows_in_time::RowsInTime;
pub use showing::{show_catalogue, show_document};
pub use sink::{CellRef, CellSink, LabelRef, RowText};
