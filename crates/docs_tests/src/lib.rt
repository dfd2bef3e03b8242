//! The tests of `docs_core` and of the libraries of documents below it, by public items alone.
#![tactic(auto)]

#[cfg(test)]
mod tests;
