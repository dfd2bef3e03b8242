//! Questions to the document of a site: from bytes to the text of the answer.
//!
//! - [`status_document`], [`ask_document`], [`bundle_document`], [`export_document`],
//!   [`missing_document`], [`outdated_document`] and [`labels_document`] answer of one site,
//!   [`changes_document`] of two.
//! - [`status_line`], [`filter_lines`], [`reply_line`], [`write_bundle`], [`write_live_labels`],
//!   [`write_missing`], [`write_outdated`], [`labels_lines`] and [`changes_lines`] write the same
//!   of sites in memory.
//! - [`read_message`] reads of a site what a question about one message needs.
//! - [`answer_lines`] and [`label_at`] serve `docs_core`, whose calls write the answers of a run
//!   and edit a site.
//!
//! Callers find what they need in `docs_core`. The laws of label counts are in [`laws`].
#![tactic(auto)]

mod asking;
mod bundle_by_message;
mod bundling;
mod by_message;
mod changes;
mod chosen;
mod draft;
mod exporting;
mod labels;
pub mod laws;
mod lines;
mod live_cells;
mod messages;
mod missing;
mod offered_cells;
mod one_message;
mod outdated;
mod status;

pub use asking::{Ask, ask_document};
pub use bundling::{bundle_document, bundle_document_by, write_bundle, write_bundle_by};
pub use changes::{changes_document, changes_lines};
pub use exporting::{export_document, label_at, write_live_labels};
pub use labels::{labels_document, labels_lines};
pub use lines::{answer_lines, filter_lines, reply_line};
pub use missing::{missing_document, write_missing};
pub use one_message::read_message;
pub use outdated::{outdated_document, write_outdated};
pub use status::{status_document, status_line};
