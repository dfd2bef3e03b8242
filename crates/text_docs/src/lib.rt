//! The document of a site, asked about one message where it lies.
//!
//! [`message_in`] finds the rows of a message in the text that is written for a site, and reads
//! these alone. The rows ascend by their ids, and where one begins can be told from the bytes, so
//! they are found by bisection: some thirty places of a text of any length are looked at.
//!
//! Callers find it in `front_core`.
#![tactic(auto)]

mod id_order;
pub mod laws;
mod message;
mod part;
mod row;
mod rows;

pub use message::message_in;
