//! Summaries that show labels, and the cells that a summary lacks.
//!
//! - [`summary_of_document`] and [`summary_of_site`] make the document of a site's summary.
//!   [`Shows`] says whether it has the stamps of the cells alone, or a digest of each label too.
//! - [`shown_at`] reads a summary of either form into a [`ShownSummary`].
//! - [`LackedRows`] sees the cells of a site, and writes those that a summary lacks.
//!   [`delta_of_site`] makes the delta of a site in memory.
//!
//! Callers find what they need in `docs_core`.
#![tactic(auto)]

mod digest;
mod lacked_rows;
pub mod laws;
mod reading;
mod shown;
mod summaries;
mod writing;

pub use lacked_rows::LackedRows;
pub use reading::shown_at;
pub use shown::ShownSummary;
pub use summaries::{Shows, delta_of_site, summary_of_document, summary_of_site};
