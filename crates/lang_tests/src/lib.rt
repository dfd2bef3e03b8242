//! The tests of `lang_core`, by its public items alone.
#![tactic(auto)]

#[cfg(test)]
mod tests;
