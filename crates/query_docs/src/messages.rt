//! Which messages' labels are written.

use lang_core::Lang;

/// The messages whose live labels are written, each with all of them.
#[derive(Clone, Copy)]
pub(crate) enum Messages<'a> {
    /// Those without a live label in this language.
    Lacking(&'a Lang),
    /// Those whose label in the first language is older than that in the second.
    Outdated(&'a Lang, &'a Lang),
}
