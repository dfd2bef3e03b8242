//! A set of languages of one's own.
ghost use Rattle.std.specs.Prelude.{false};

use nego_core::Holds;

/// No language at all.
#[derive(Clone, Copy)]
pub struct Empty;

impl Holds for Empty {
    ghost held = { λ _ _. false };

    fn holds(&self, _lang: &str) -> bool {
        false
    }
}
