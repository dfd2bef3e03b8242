//! The tests of `command_core`, by its public items alone.
#![tactic(auto)]

#[cfg(test)]
mod tests;
