//! What a text begins with: literals, numbers, and strings with or without the escapes that are
//! written.
//!
//! Where a function answers `None`, the text may begin otherwise than as it is written, or with an
//! escape: its caller then reads the text as JSON.
//!
//! What is called for each row is inlined, so that its literals are known where they are compared.
ghost use Rattle.std.specs.Prelude.{◌≡◌, ◌<◌, ◌-◌, ◌++◌, ◌∷◌, [], IfSome, IsTrue, MatchOption};
ghost use Rattle.std.specs.Prelude.{List, Some, ℕ, decimal, get_or, length, map, nat_lt};
ghost use Rattle.std.specs.Prelude.{string_bytes};
ghost use Rattle.std.specs.Char.{digit_char};
ghost use Rattle.std.specs.Simd.Lanes.{mask_l};
ghost use Rattle.json.specs.Print.{escape, escape_byte, escape_letter, quoted};
ghost use Rattle.json.specs.Run.{is_stop};
ghost use Rattle.row_docs.specs.inner.PlainTexts.{IsDecimalFront, IsDigitAt, IsEscaped};
ghost use Rattle.row_docs.specs.inner.PlainTexts.{IsFirstStop, IsPlainBefore};

use std::alloc::Global;
use std::simd::prelude::*;

/// The greatest number that another digit leaves within 64 bits.
const MAX_TENTH: u64 = (u64::MAX - 9) / 10;

/// How many bytes are tested at once.
const BLOCK: usize = 16;

/// What comes after the literal that the text begins with.
#[inline(always)]
pub fn after<'t>(text: &'t str, literal: &str) -> Option<&'t str>
    ensures { IfSome result (λ rest. text.now ≡ literal.now ++ rest.now) }
{
    text.strip_prefix(literal)
}

/// What comes after the byte that the text begins with, where that is ASCII. A short literal is
/// compared so, byte by byte, by fewer instructions.
#[inline(always)]
pub fn after_byte(text: &str, byte: u8) -> Option<&str>
    ensures { IfSome result (λ rest. text.now ≡ byte ∷ rest.now) }
{
    if is_first(text.as_bytes(), byte) {
        Some(&text[1..])
    } else {
        None
    }
}

/// What comes after the literal and this string, where it needs no escape.
pub fn after_text<'t>(text: &'t str, literal: &str, wanted: &str) -> Option<&'t str>
    ensures { IfSome result (λ rest. text.now ≡ literal.now ++ (quoted wanted.now ++ rest.now)) }
{
    let (found, rest) = text_after(text, literal)?;
    if found == wanted { Some(rest) } else { None }
}

/// What comes after the literal and the name of this member with its colon.
pub fn member_after<'t>(text: &'t str, literal: &str, name: &str) -> Option<&'t str>
    ensures { IfSome result (λ rest. text.now ≡ literal.now ++ (quoted name.now ++ 58 ∷ rest.now)) }
{
    let rest = after_text(text, literal, name)?;
    after(rest, ":")
}

/// The string after the literal, where it has no escape, and what comes after it.
pub fn text_after<'t>(text: &'t str, literal: &str) -> Option<(&'t str, &'t str)>
    ensures { IfSome result (λ r. text.now ≡ literal.now ++ (quoted r.0.now ++ r.1.now)) }
{
    let rest = after(text, literal)?;
    plain_text(rest)
}

/// What comes before a quote and this byte of ASCII, where it needs no escape in a string, and what
/// comes after them.
#[inline(always)]
pub fn text_before_quote(text: &str, then: u8) -> Option<(&str, &str)>
    ensures { IfSome result (λ r. text.now ≡ escape r.0.now ++ 34 ∷ then ∷ r.1.now) }
{
    let (before, quote) = plain_front(text)?;
    let next = after_byte(quote, b'"')?;
    let left = after_byte(next, then)?;
    Some((before, left))
}

/// The number before this byte of ASCII, in decimal without leading zeros, and what comes after it.
#[inline(always)]
pub fn number_before(text: &str, end: u8) -> Option<(u64, &str)>
    ensures { IfSome result (λ r. text.now ≡ decimal r.0 ++ end ∷ r.1.now) }
{
    let (number, rest) = number_front(text)?;
    let left = after_byte(rest, end)?;
    Some((number, left))
}

/// The string that the text begins with, where it may have escapes.
pub fn escaped_text(alloc: Global, text: &str) -> Option<(String, &str)>
    ensures { IfSome result (λ r. text.now ≡ quoted (string_bytes r.0) ++ r.1.now) }
{
    let mut rest = after(text, "\"")?;
    let mut content = String::new(alloc);
    while !rest.starts_with("\"") {
        let Some(left) = take_piece(&mut content, rest) else {
            return None;
        };
        rest = left;
    }
    let rest = after(rest, "\"")?;
    Some((content, rest))
}

/// What comes before the literal, where it needs no escape in a string and ends at the first byte
/// that does, and what comes after the literal.
#[inline(always)]
fn text_before<'t>(text: &'t str, literal: &str) -> Option<(&'t str, &'t str)>
    ensures { IfSome result (λ r. text.now ≡ escape r.0.now ++ (literal.now ++ r.1.now)) }
{
    let (front, rest) = plain_front(text)?;
    let rest = after(rest, literal)?;
    Some((front, rest))
}

/// The string that the text begins with.
fn plain_text(text: &str) -> Option<(&str, &str)>
    ensures { IfSome result (λ r. text.now ≡ quoted r.0.now ++ r.1.now) }
{
    let rest = after(text, "\"")?;
    text_before(rest, "\"")
}

/// What comes before the first byte that ends a string or is escaped in it, and the rest.
#[inline(always)]
fn plain_front(text: &str) -> Option<(&str, &str)>
    ensures cut { IfSome result (λ r. text.now ≡ r.0.now ++ r.1.now) }
    ensures plain { IfSome result (λ r. escape r.0.now ≡ r.0.now) }
{
    let end = stop_in(text.as_bytes())?;
    Some((&text[..end], &text[end..]))
}

/// The place of the first byte that ends a string or is escaped in it.
#[inline(always)]
fn stop_in(bytes: &[u8]) -> Option<usize>
    ensures { MatchOption result (IsPlainBefore bytes.now (length bytes.now))
        (IsFirstStop bytes.now) }
{
    let mut from = 0;
    while bytes.len() - from >= BLOCK {
        let found = stops_of(u8x16::from_slice(&bytes[from..]));
        if found != 0 {
            return Some(from + found.trailing_zeros() as usize);
        }
        from += BLOCK;
    }
    while from < bytes.len() {
        if is_stop(bytes[from]) {
            return Some(from);
        }
        from += 1;
    }
    None
}

/// A bit for each byte, which is set where the byte ends a string or is escaped in it.
#[inline(always)]
fn stops_of(bytes: u8x16) -> u64
    ensures { result ≡ mask_l (map is_stop bytes) }
{
    let quotes = bytes.simd_eq(u8x16::splat(b'"'));
    let backslashes = bytes.simd_eq(u8x16::splat(b'\\'));
    let controls = bytes.simd_lt(u8x16::splat(0x20));
    (quotes | backslashes | controls).to_bitmask()
}

/// Whether the byte ends a string or is escaped in it.
fn is_stop(b: u8) -> bool
    ensures { result ≡ is_stop b }
{
    b == b'"' || b == b'\\' || b < 0x20
}

/// The number that the text begins with, and what comes after it.
#[inline(always)]
fn number_front(text: &str) -> Option<(u64, &str)>
    ensures { IfSome result (λ r. text.now ≡ decimal r.0 ++ r.1.now) }
{
    let (number, len) = leading_number(text.as_bytes())?;
    Some((number, &text[len..]))
}

/// The number that the bytes begin with, and how many digits it has.
#[inline(always)]
fn leading_number(bytes: &[u8]) -> Option<(u64, usize)>
    ensures { IfSome result (λ r. IsDecimalFront bytes.now r.0 r.1) }
{
    if !is_digit_at(bytes, 0) {
        return None;
    }
    let mut number = u64::from(bytes[0] - b'0');
    let mut len = 1;
    if number == 0 {
        return Some((number, len));
    }
    while is_digit_at(bytes, len) {
        if number > MAX_TENTH {
            return None;
        }
        number = number * 10 + u64::from(bytes[len] - b'0');
        len += 1;
    }
    Some((number, len))
}

/// Whether there is a digit at the place.
#[inline(always)]
fn is_digit_at(bytes: &[u8], place: usize) -> bool
    ensures { IsTrue result → IsDigitAt bytes.now place (get_or bytes.now place 0 - 48) }
{
    place < bytes.len() && bytes[place].is_ascii_digit()
}

/// Whether the bytes begin with this one, which is ASCII.
#[inline(always)]
fn is_first(bytes: &[u8], byte: u8) -> bool
    ensures { IsTrue result
        → (get_or bytes.now 0 0 ≡ byte) × (byte < 128) × (0 < length bytes.now) }
{
    !bytes.is_empty() && bytes[0] == byte && byte.is_ascii()
}

/// Appends the byte whose escape the text begins with, or else what comes before the first stop.
fn take_piece<'t>(content: &mut String, text: &'t str) -> Option<&'t str>
    ensures { IfSome result (λ rest. (escape (string_bytes content.old) ++ text.now
        ≡ escape (string_bytes content.new) ++ rest.now) × (length rest.now < length text.now)) }
{
    match escaped_byte(text) {
        Some((byte, rest)) => match content.push(char::from(byte)) {
            Ok(()) => Some(rest),
            Err(_) => None,
        },
        None => take_plain(content, text),
    }
}

/// Appends what comes before the first stop, where that is something.
fn take_plain<'t>(content: &mut String, text: &'t str) -> Option<&'t str>
    ensures { IfSome result (λ rest. (escape (string_bytes content.old) ++ text.now
        ≡ escape (string_bytes content.new) ++ rest.now) × (length rest.now < length text.now)) }
{
    let (plain, rest) = plain_front(text)?;
    if plain.is_empty() {
        return None;
    }
    match content.push_str(plain) {
        Ok(()) => Some(rest),
        Err(_) => None,
    }
}

/// The byte whose escape the text begins with.
fn escaped_byte(text: &str) -> Option<(u8, &str)>
    ensures { IfSome result (λ r. IsEscaped r.0 text.now r.1.now) }
{
    let rest = after(text, "\\")?;
    match after(rest, "u00") {
        Some(digits) => control_byte(digits),
        None => lettered_byte(rest),
    }
}

/// The byte whose escape is a backslash and the letter that the text begins with.
fn lettered_byte(text: &str) -> Option<(u8, &str)>
    ensures { IfSome result (λ r. IsEscaped r.0 (92 ∷ text.now) r.1.now) }
{
    let (letter, rest) = first_byte(text)?;
    let byte = byte_of(letter)?;
    Some((byte, rest))
}

/// The byte whose escape is `\u00` and the two digits that the text begins with.
fn control_byte(text: &str) -> Option<(u8, &str)>
    ensures { IfSome result
        (λ r. IsEscaped r.0 (92 ∷ 117 ∷ 48 ∷ 48 ∷ text.now) r.1.now) }
{
    let (high, rest) = first_byte(text)?;
    let (low, rest) = first_byte(rest)?;
    let byte = control_of(high, low)?;
    Some((byte, rest))
}

/// The first byte of the text, where it is ASCII, and what comes after it.
fn first_byte(text: &str) -> Option<(u8, &str)>
    ensures { IfSome result (λ r. text.now ≡ r.0 ∷ r.1.now) }
{
    let first = ascii_in(text.as_bytes())?;
    Some((first, &text[1..]))
}

/// The first byte, where it is ASCII.
fn ascii_in(bytes: &[u8]) -> Option<u8>
    ensures { IfSome result
        (λ first. (get_or bytes.now 0 0 ≡ first) × (first < 128) × (0 < length bytes.now)) }
{
    if !bytes.is_empty() && bytes[0].is_ascii() {
        Some(bytes[0])
    } else {
        None
    }
}

/// The byte whose escape has this letter.
fn byte_of(letter: u8) -> Option<u8>
    ensures { IfSome result
        (λ byte. (escape_letter byte ≡ letter) × (0 < letter) × (byte < 128)) }
{
    match letter {
        b'"' => Some(b'"'),
        b'\\' => Some(b'\\'),
        b'b' => Some(8),
        b't' => Some(b'\t'),
        b'n' => Some(b'\n'),
        b'f' => Some(12),
        b'r' => Some(b'\r'),
        _ => None,
    }
}

/// The byte whose escape has these digits and no letter.
fn control_of(high: u8, low: u8) -> Option<u8>
    ensures { IfSome result (λ byte. (escape_byte byte
        ≡ 92 ∷ 117 ∷ 48 ∷ 48 ∷ high ∷ low ∷ []) × (byte < 128)) }
{
    let high = value_of(high)?;
    let low = value_of(low)?;
    let byte = high * 16 + low;
    if byte < 0x20 && !has_letter(byte) {
        Some(byte)
    } else {
        None
    }
}

/// The value of a hexadecimal digit, where it is in lower case.
fn value_of(digit: u8) -> Option<u8>
    ensures { IfSome result (λ value. (digit_char value ≡ digit) × (value < 16)) }
{
    match digit {
        b'0'..=b'9' => Some(digit - b'0'),
        b'a'..=b'f' => Some(digit - b'a' + 10),
        _ => None,
    }
}

/// Whether the escape of the byte has a letter.
fn has_letter(byte: u8) -> bool
    ensures { result ≡ nat_lt 0 (escape_letter byte) }
{
    matches!(byte, b'"' | b'\\' | 8 | b'\t' | b'\n' | 12 | b'\r')
}
