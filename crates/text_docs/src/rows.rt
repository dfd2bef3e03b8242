//! Where the rows of a written document lie.
ghost use Rattle.std.specs.Prelude.{◌≡◌, ◌∷◌, IfSome};
ghost use Rattle.text_docs.specs.inner.Rows.{AreRowsAt};

use crate::row::after;
use memchr::memrchr;

/// What the document of a site begins with, as it is written.
pub(crate) const OPENING: &[u8] = b"{\"cells\":[";

/// The places between which some rows lie.
#[derive(Clone, Copy)]
pub(crate) struct Rows {
    /// Where the first begins.
    pub(crate) start: usize,
    /// Where the last ends.
    pub(crate) end: usize,
}

/// All rows of the text, where it begins and ends as a document of a site is written.
pub(crate) fn rows_in(text: &[u8]) -> Option<Rows>
    ensures { IfSome result (λ rows. AreRowsAt text.now rows.start rows.end) }
{
    if !text.starts_with(OPENING) {
        return None;
    }
    let end = memrchr(b']', text)?;
    let _rest = kind_after(&text[end..])?;
    if OPENING.len() <= end {
        Some(Rows {
            start: OPENING.len(),
            end,
        })
    } else {
        None
    }
}

/// What comes after `],"k`, with which the text begins: the bracket that ends all rows, and the
/// beginning of the member `kind`.
fn kind_after(text: &[u8]) -> Option<&[u8]>
    ensures { IfSome result (λ rest. text.now ≡ 93 ∷ 44 ∷ 34 ∷ 107 ∷ rest.now) }
{
    let rest = after(text, b']')?;
    let rest = after(rest, b',')?;
    let rest = after(rest, b'"')?;
    after(rest, b'k')
}
