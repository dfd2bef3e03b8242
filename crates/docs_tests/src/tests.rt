//! What no contract says: texts, documents as bytes, and streams of every kind in action.

mod answers;
mod asking;
mod bundle;
mod changes;
mod doc;
mod documents;
mod exchange;
mod labels;
mod lang_maps;
mod lines;
mod merges;
mod own_edits;
mod questions;
mod reading;
mod refusals;
mod script_writing;
mod scripts;
mod shown_labels;
mod sites;
mod summaries;
mod time_limits;
mod update;
mod writing;
