//! The tests of `front_core`, by its public items alone.
#![tactic(auto)]

#[cfg(test)]
mod tests;
