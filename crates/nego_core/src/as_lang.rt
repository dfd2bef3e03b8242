//! Languages, owned or borrowed.
ghost use Rattle.std.specs.Prelude.{◌≡◌, ℕ, List};

use lang_core::Lang;

/// A language, owned or borrowed.
pub(crate) trait AsLang {
    /// Its text.
    ghost text: { Self → List ℕ };

    /// The language, borrowed.
    fn as_lang(&self) -> &Lang
        ensures { result.now ≡ text self.now };
}

impl AsLang for Lang {
    ghost text = { λ l. l };

    fn as_lang(&self) -> &Lang {
        self
    }
}

impl AsLang for &Lang {
    ghost text = { λ l. l.now };

    fn as_lang(&self) -> &Lang {
        self
    }
}
