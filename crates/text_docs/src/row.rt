//! Where a row of a document begins.
ghost use Rattle.std.specs.Prelude.{◌≡◌, ◌<◌, ◌≤◌, ◌++◌, ◌∷◌, List, ℕ, IfSome, drop, length};
ghost use Rattle.std.specs.Prelude.{[], MatchOption, take, true};
ghost use Rattle.text_docs.specs.Row.{ReadsAsRow, begins_language, is_unclosed};
ghost use Rattle.text_docs.specs.inner.Row.{is_simple};

use memchr::memchr;

/// A row of a document other than its first, whose id has no escapes but `\"` and `\\`.
#[derive(Clone, Copy)]
pub(crate) struct Row<'t> {
    /// The place of the bracket that ends the row before.
    pub(crate) bracket: usize,
    /// The id, as it is written between its quotes.
    pub(crate) id: &'t [u8],
}

/// The first row of those whose bracket is at `from` or after it, and before `end`.
pub(crate) fn next_row(text: &[u8], from: usize, end: usize) -> Option<Row<'_>>
    requires { end ≤ length text.now }
    ensures { IfSome result (λ row. (from ≤ row.bracket) × (row.bracket < end)
        × ReadsAsRow (drop row.bracket text.now) row.id.now × (is_simple row.id.now ≡ true)) }
{
    let mut place = from;
    while let Some(bracket) = bracket_in(text, place, end) {
        if let Some(id) = row_id(&text[bracket..]) {
            return Some(Row { bracket, id });
        }
        place = bracket + 1;
    }
    None
}

/// The place of the first closing bracket at `from` or after it, and before `end`.
fn bracket_in(text: &[u8], from: usize, end: usize) -> Option<usize>
    requires { end ≤ length text.now }
    ensures { IfSome result (λ place. (from ≤ place) × (place < end)) }
{
    if from >= end {
        return None;
    }
    let found = memchr(b']', &text[from..end])?;
    Some(from + found)
}

/// The id of the row that begins after the bracket with which the text begins, and a comma.
fn row_id(text: &[u8]) -> Option<&[u8]>
    ensures { IfSome result (λ id. ReadsAsRow text.now id.now × (is_simple id.now ≡ true)) }
{
    let rest = after(text, b']')?;
    let rest = after(rest, b',')?;
    let rest = after(rest, b'[')?;
    let rest = after(rest, b'"')?;
    let end = quote_in(rest)?;
    let first = language_after(&rest[end..])?;
    if begins_language(first) {
        Some(&rest[..end])
    } else {
        None
    }
}

/// The first byte of the language that comes after an id, with whose last quote the text begins.
fn language_after(text: &[u8]) -> Option<u8>
    ensures { IfSome result (λ first. (rest : List ℕ) × (text.now ≡ 34 ∷ 44 ∷ 34 ∷ first ∷ rest)) }
{
    let rest = after(text, b'"')?;
    let rest = after(rest, b',')?;
    let rest = after(rest, b'"')?;
    let (first, _rest) = split(rest)?;
    Some(first)
}

/// Whether a language can begin with the byte: a letter, a digit, or the sign of `@none`.
fn begins_language(first: u8) -> bool
    ensures { result ≡ begins_language first }
{
    first.is_ascii_alphanumeric() || first == b'@'
}

/// The place of the first quote that ends a string: one after no backslash. There is none where an
/// escape other than `\"` and `\\` comes before it: with one an id is not ordered as its bytes are
/// written.
fn quote_in(text: &[u8]) -> Option<usize>
    ensures { IfSome result (λ end. (end ≤ length text.now)
        × (is_unclosed (take end text.now) ≡ true) × (is_simple (take end text.now) ≡ true)) }
{
    let mut escaped = false;
    for place in 0..text.len() {
        let byte = text[place];
        if escaped {
            if byte != b'"' && byte != b'\\' {
                return None;
            }
            escaped = false;
        } else if byte == b'"' {
            return Some(place);
        } else {
            escaped = byte == b'\\';
        }
    }
    None
}

/// What comes after the byte with which the text begins.
pub(crate) fn after(text: &[u8], byte: u8) -> Option<&[u8]>
    ensures { IfSome result (λ rest. text.now ≡ byte ∷ rest.now) }
{
    let (first, rest) = split(text)?;
    if first == byte { Some(rest) } else { None }
}

/// The first byte of the text, and the rest.
pub(crate) fn split(text: &[u8]) -> Option<(u8, &[u8])>
    ensures { MatchOption result (text.now ≡ []) (λ r. text.now ≡ r.0 ∷ r.1.now) }
{
    if text.is_empty() {
        return None;
    }
    Some((text[0], &text[1..]))
}
