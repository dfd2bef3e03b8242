//! Language maps (JSON-LD 1.1, section 9.8): the labels of a catalogue by message and language.
//!
//! - [`LangMaps`] are the labels in ascending order of key; [`read_langmaps`] reads them from a
//!   document, and [`write_langmaps`] writes one. [`take_langmaps`] gives them to a
//!   [`TakeLabels`] one after another, where the document has them in that order.
//! - [`langmaps_of_document`], [`open_labels`], [`open_message`], [`write_label`], [`write_text`]
//!   and [`close_labels`] serve `docs_core`, whose calls read one document of several, and write
//!   labels without a list of them.
//!
//! Callers find what they need in `docs_core`.
#![tactic(auto)]

mod ascending;
mod ascending_map;
mod labels;
pub mod laws;
mod maps;
mod members;
mod reading;
mod rows;
mod taking;
mod writing;

pub use maps::LangMaps;
pub use reading::{langmaps_of_document, read_langmaps, take_langmaps};
pub use taking::TakeLabels;
pub use writing::{
    close_labels, open_labels, open_message, write_label, write_langmaps, write_text,
};
