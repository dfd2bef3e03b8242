//! Kinds of subtags between a language and the extensions of a tag (RFC 5646 section 2.1).
ghost use Rattle.std.specs.Prelude.{◌≡◌, IsTrue};
ghost use Rattle.lang_core.specs.Grammar.{is_private_piece};

use crate::subtag::Subtag;

/// A kind of subtag that may stand between a language and the extensions.
#[derive(Clone, Copy)]
pub(crate) enum Kind {
    Extlang,
    Script,
    Region,
    Variant,
}

impl Kind {
    ghost use Rattle.lang_core.specs.inner.Kind.{is_of};

    /// Whether the subtag of a tag, which is in lower case, is of this kind.
    pub(crate) fn has(self, subtag: &str) -> bool
        requires { IsTrue (is_private_piece subtag.now) }
        ensures { result ≡ is_of self subtag.now }
    {
        match Subtag::read(subtag.as_bytes()) {
            Some(subtag) => self.fits(&subtag),
            None => unreachable!(),
        }
    }

    /// Whether the subtag is of this kind.
    fn fits(self, subtag: &Subtag) -> bool
        ensures { result ≡ is_of self subtag.now }
    {
        match self {
            Kind::Extlang => subtag.is_extlang(),
            Kind::Script => subtag.is_script(),
            Kind::Region => subtag.is_region(),
            Kind::Variant => subtag.is_variant(),
        }
    }
}
