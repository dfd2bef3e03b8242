//! The order of two ids, of which one is given as it is written.
ghost use Rattle.std.specs.Prelude.{◌≡◌, ◌<◌, ◌∷◌, [], List, ℕ, IfSome, MatchOption, length, true};
ghost use Rattle.cell_core.specs.Entry.{text_cmp};
ghost use Rattle.text_docs.specs.inner.Row.{is_simple};
ghost use Rattle.text_docs.specs.RowStrings.{IsString};

use crate::row::split;
use memchr::memchr;
use std::cmp::Ordering;

/// How an id, as it is written between its quotes, is ordered to another one, where its escapes are
/// those of quotes and backslashes alone.
pub(crate) fn order_of(written: &[u8], id: &[u8]) -> Ordering
    ensures { (text : List ℕ) → IsString written.now text → is_simple written.now ≡ true
        → result ≡ text_cmp text id.now }
{
    match memchr(b'\\', written) {
        None => written.cmp(id),
        Some(_) => escaped_order(written, id),
    }
}

/// The same of an id with escapes.
#[cold]
#[inline(never)]
fn escaped_order(written: &[u8], id: &[u8]) -> Ordering
    ensures { (text : List ℕ) → IsString written.now text → is_simple written.now ≡ true
        → result ≡ text_cmp text id.now }
{
    let mut left = written;
    let mut right = id;
    while let Some((byte, rest)) = unescaped(left) {
        let Some((other, others)) = split(right) else {
            return Ordering::Greater;
        };
        if byte != other {
            return byte.cmp(&other);
        }
        left = rest;
        right = others;
    }
    if right.is_empty() {
        Ordering::Equal
    } else {
        Ordering::Less
    }
}

/// The first byte of a text of which this is written, with such escapes alone, and what is written
/// for the rest.
fn unescaped(written: &[u8]) -> Option<(u8, &[u8])>
    ensures shorter { IfSome result (λ r. length r.1.now < length written.now) }
    ensures is { (text : List ℕ) → IsString written.now text → is_simple written.now ≡ true
        → MatchOption result (text ≡ []) (λ r. (more : List ℕ) × (text ≡ r.0 ∷ more)
        × IsString r.1.now more × (is_simple r.1.now ≡ true)) }
{
    let Some((first, rest)) = split(written) else {
        return None;
    };
    if first != b'\\' {
        return Some((first, rest));
    }
    split(rest)
}
