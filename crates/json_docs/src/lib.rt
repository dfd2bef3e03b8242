//! JSON texts, and what all documents have: their bytes, their refusals, their streams.
//!
//! - [`Doc`] is the bytes of a document or of an answer.
//! - [`DocFault`] says why a document is refused: which document, and its [`DocCause`], which may
//!   point at a [`Spot`] and have the [`FieldFault`] of a row.
//! - [`read_all`] takes all bytes of a [`Source`], [`write_out`] gives bytes to a [`Sink`];
//!   [`Input`] and [`Output`] make these of `std`'s `Read` and `Write`.
//! - The other functions serve the crates of documents, which read a JSON text from its tokens:
//!   [`text_in`] and [`check_numbers`] see that bytes are a text whose numbers are in range,
//!   [`begins_object`] and [`next_name`] read an object, [`next_value`] reads a value, and
//!   [`text_of`], [`u64_of`], [`u32_of`] and [`items_of`] take it apart.
//!
//! Callers find what they need in `docs_core`.
#![tactic(auto)]

mod doc;
mod fault;
mod json_text;
pub mod laws;
mod stream;

pub use doc::Doc;
pub use fault::{DocCause, DocFault, FieldFault, Spot};
pub use json_text::object::{begins_object, next_name};
pub use json_text::parts::{items_of, text_of, u32_of, u64_of};
pub use json_text::scanning::{is_scalar, next_value};
pub use json_text::text::{MAX_DEPTH, check_numbers, check_value, text_in};
pub use stream::sinks::{Output, Sink, write_out};
pub use stream::sources::{Input, MAX_BYTES, Source, read_all};
