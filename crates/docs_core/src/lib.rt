//! The product's documents: from bytes to values and back, over streams.
//!
//! - [`read_site`], [`read_delta`], [`read_summary`], [`read_script`] and [`read_langmaps`] read a
//!   document; [`write_site`], [`write_delta`], [`write_summary`], [`write_script`] and
//!   [`write_langmaps`] write one.
//! - [`edit_document`], [`import_document`], [`update_document`], [`export_document`],
//!   [`bundle_document`], [`missing_document`], [`outdated_document`], [`changes_document`],
//!   [`sync_documents`], [`merge_documents`], [`summary_document`], [`delta_document`],
//!   [`take_document`], [`ask_document`], [`labels_document`] and [`status_document`] work on whole
//!   documents, from bytes to bytes. [`Checks`] say what an exchange tests of what comes in, and
//!   [`Shows`] whether a summary shows labels. [`two_documents`] and [`Lines`] cut an input into
//!   its documents.
//! - [`read_message`] reads of a site what a question about one message needs.
//! - [`filter_lines`], [`reply_line`], [`status_line`], [`changes_lines`], [`labels_lines`],
//!   [`write_live_labels`], [`write_missing`], [`write_outdated`] and [`write_bundle`] write the
//!   answers of a site in memory, without its document, [`summary_of_site`] its summary, and
//!   [`delta_of_site`] the delta for another; [`put_labels`] and [`update_labels`] edit it.
//! - [`replay`] runs the script of a [`Source`] and writes the lines of its answers to a [`Sink`];
//!   [`read_all`] and [`write_out`] are its two ends. [`Input`] and [`Output`] make a source and a
//!   sink of `std`'s `Read` and `Write`.
//!
//! A refusal is a [`DocFault`], whose number and text are the product's.
//!
//! A document is read from its text a row at a time, so that beside the text and what is made of it
//! only one row is in memory, and it is written a token at a time into one buffer. The public
//! modules are laws: [`laws`], [`lang_map_laws`] and [`migration`].
#![tactic(auto)]

mod call;
pub mod lang_map_laws;
pub mod laws;
mod lines;
pub mod migration;

pub use call::importing::{import_document, put_labels};
pub use call::merging::merge_documents;
pub use call::replaying::replay;
pub use call::sites::{
    delta_document, edit_document, summary_document, sync_documents, take_document,
};
pub use call::updating::{update_document, update_labels};
pub use json_docs::{
    Doc, DocCause, DocFault, FieldFault, Input, MAX_BYTES, Output, Sink, Source, Spot, read_all,
    write_out,
};
pub use lines::{Lines, two_documents};
pub use map_docs::{LangMaps, read_langmaps, write_langmaps};
pub use query_docs::{
    Ask, answer_lines, ask_document, bundle_document, bundle_document_by, changes_document,
    changes_lines, export_document, filter_lines, labels_document, labels_lines, missing_document,
    outdated_document, read_message, reply_line, status_document, status_line, write_bundle,
    write_bundle_by, write_live_labels, write_missing, write_outdated,
};
pub use script_docs::{Script, read_script, write_script};
pub use site_docs::{
    Checks, OwnEdits, first_row_ahead, read_delta, read_delta_until, read_site, read_summary,
    write_delta, write_site, write_summary,
};
pub use summary_docs::{Shows, delta_of_site, summary_of_site};
