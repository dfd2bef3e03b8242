//! How far a tag is read, from one subtag to the next (RFC 5646 section 2.1).
ghost use Rattle.std.specs.Prelude.{◌≡◌};
ghost use Rattle.lang_core.specs.inner.Stage.{next_stage, is_complete, start_stage, language_stage};
ghost use Rattle.lang_core.specs.inner.Stage.{region_stage, variant_stage, extension_stage};
ghost use Rattle.lang_core.specs.inner.Stage.{private_stage};
ghost use Rattle.lang_core.specs.declared.stage.Stage.TheVariants.{Singleton, Extension, Private};

use crate::subtag::Subtag;

/// What was read last, and so what may come next.
#[derive(Clone, Copy)]
pub(crate) enum Stage {
    Start,
    /// A language subtag; up to this many extlangs may still follow.
    Language { extlangs_left: u8 },
    Script,
    /// A region or a variant.
    Variants,
    Singleton,
    Extension,
    PrivateStart,
    Private,
}

impl Stage {
    /// The stage after one more subtag, or none where the subtag may not come next.
    pub(crate) fn next(self, subtag: &Subtag) -> Option<Stage>
        ensures { result ≡ next_stage self subtag.now }
    {
        match self {
            Stage::Start => after_nothing(subtag),
            Stage::Language { extlangs_left } => after_language(extlangs_left, subtag),
            Stage::Script => after_script(subtag),
            Stage::Variants => after_region(subtag),
            Stage::Singleton => after_singleton(subtag),
            Stage::Extension => after_extension(subtag),
            Stage::PrivateStart | Stage::Private => after_x(subtag),
        }
    }

    /// Whether a tag may end here.
    pub(crate) fn is_complete(self) -> bool
        ensures { result ≡ is_complete self }
    {
        match self {
            Stage::Start | Stage::Singleton | Stage::PrivateStart => false,
            Stage::Language { .. }
            | Stage::Script
            | Stage::Variants
            | Stage::Extension
            | Stage::Private => true,
        }
    }
}

/// The stage after the first subtag: a language, or the "x" of a private use tag.
fn after_nothing(subtag: &Subtag) -> Option<Stage>
    ensures { result ≡ start_stage subtag.now }
{
    if subtag.is_short_language() {
        Some(Stage::Language { extlangs_left: 3 })
    } else if subtag.is_long_language() {
        Some(Stage::Language { extlangs_left: 0 })
    } else {
        before_private(subtag)
    }
}

/// The stage after a subtag that follows the language or an extlang.
fn after_language(extlangs_left: u8, subtag: &Subtag) -> Option<Stage>
    ensures { result ≡ language_stage extlangs_left subtag.now }
{
    if extlangs_left > 0 && subtag.is_extlang() {
        Some(Stage::Language {
            extlangs_left: extlangs_left - 1,
        })
    } else if subtag.is_script() {
        Some(Stage::Script)
    } else {
        after_script(subtag)
    }
}

/// The stage after a subtag that may be a region.
fn after_script(subtag: &Subtag) -> Option<Stage>
    ensures { result ≡ region_stage subtag.now }
{
    if subtag.is_region() {
        Some(Stage::Variants)
    } else {
        after_region(subtag)
    }
}

/// The stage after a subtag that may be a variant.
fn after_region(subtag: &Subtag) -> Option<Stage>
    ensures { result ≡ variant_stage subtag.now }
{
    if subtag.is_variant() {
        Some(Stage::Variants)
    } else {
        before_extension(subtag)
    }
}

/// The stage after a subtag that may be a singleton, which begins an extension.
fn before_extension(subtag: &Subtag) -> Option<Stage>
    ensures { result ≡ extension_stage subtag.now }
{
    if subtag.is_singleton() {
        Some(Stage::Singleton)
    } else {
        before_private(subtag)
    }
}

/// The stage after a subtag that has to be an "x".
fn before_private(subtag: &Subtag) -> Option<Stage>
    ensures { result ≡ private_stage subtag.now }
{
    if subtag.is_x() {
        Some(Stage::PrivateStart)
    } else {
        None
    }
}

/// The stage after the first subtag of an extension.
fn after_singleton(subtag: &Subtag) -> Option<Stage>
    ensures { result ≡ next_stage Singleton subtag.now }
{
    if subtag.is_extension_piece() {
        Some(Stage::Extension)
    } else {
        None
    }
}

/// The stage after one more subtag of an extension, or the subtag after all of them.
fn after_extension(subtag: &Subtag) -> Option<Stage>
    ensures { result ≡ next_stage Extension subtag.now }
{
    if subtag.is_extension_piece() {
        Some(Stage::Extension)
    } else {
        before_extension(subtag)
    }
}

/// The stage after a subtag of the private use part.
fn after_x(subtag: &Subtag) -> Option<Stage>
    ensures { result ≡ next_stage Private subtag.now }
{
    if subtag.is_private_piece() {
        Some(Stage::Private)
    } else {
        None
    }
}
