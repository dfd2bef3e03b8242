//! Scripts, the runs of sites as documents: [`read_script`] reads a [`Script`], and
//! [`write_script`] writes one.
//!
//! Callers find what they need in `docs_core`.
#![tactic(auto)]

mod field_writing;
pub mod laws;
mod reading;
mod scripts;
mod step_fields;
mod step_writing;
mod steps;
mod writing;

pub use reading::read_script;
pub use scripts::Script;
pub use writing::write_script;
