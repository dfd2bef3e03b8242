//! The command `lexicat` over any streams: [`run`] takes the arguments after the program's name, a
//! [`Source`](docs_core::Source) to read and two [`Sink`](docs_core::Sink)s to write, and gives the
//! status. [`act`] is all of it that follows clap. Nothing else is read or written.
//!
//! [`refuse`] writes the line of a refusal, and [`refuse_words`] the line of a process whose
//! arguments can't be read.
//!
//! A command line becomes a task, and a task reads its documents from the source and ends in one of
//! two ways: its text is written to the first sink, or its refusal to the second.
//!
//! ```text
//! lookup --id greeting --lang       usage on the second sink, status 2
//! lookup --id greeting 'fr, en'     matched en ["Hello"], status 0
//! lookup --id greeting 'it'         nothing, status 1
//! lookup --id '' 'fr'               refused 10: message id, status 3
//! ```
#![tactic(auto)]

mod arguments;
mod commands;
mod documents;
mod edits;
mod explaining;
mod fault_line;
pub mod laws;
mod output;
mod program;
pub mod promise;
mod questions;
mod sites;
pub mod status;
mod task;

pub use fault_line::{refuse, refuse_words};
pub use program::run;
pub use task::act;
