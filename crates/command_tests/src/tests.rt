//! What no contract says: worked rows, texts, and streams that fail.

mod commands;
mod faults;
mod harness;
mod matches;
mod streams;
mod texts;
