//! A field: elements between commas (RFC 9110 section 5.6.1), each a range with its weight (section
//! 12.5.4), and what becomes of malformed ones.
ghost use Rattle.std.specs.Prelude.{◌≡◌, ◌≤◌, length, MatchResult, ◌==◌, position, ◌++◌, ◌∷◌, []};
ghost use Rattle.list_core.specs.Field.{IsField, RefusesField};
ghost use Rattle.list_core.specs.inner.Field.{is_separator, skip_separators, IsFirstPiece};
ghost use Rattle.list_core.specs.declared.fault.NegoFault.TheVariants.{FieldMalformed, NoMemory};
ghost use Rattle.list_core.specs.declared.field.Malformed.TheVariants.{Refused, PassedOver};
ghost use Rattle.std.specs.Prelude.{MatchOption, IfSome, Some};
ghost use Rattle.std.specs.Str.{str_to_ascii_lowercase};
ghost use Rattle.lang_core.specs.Range.{IsRange};
ghost use Rattle.list_core.specs.Basics.{IsTheOne};
ghost use Rattle.list_core.specs.inner.Weight.{IsTail};
ghost use Rattle.list_core.specs.Field.{RangeGrammar, WeightGrammar};
ghost use Rattle.list_core.specs.inner.Field.{IsStart, HasStart, fitting_range, is_inner, IsBegun};
ghost use Rattle.list_core.specs.inner.Field.{IsRangeEnd};
ghost use Rattle.list_core.specs.Item.{Item};

use crate::fault::NegoFault;
use crate::item::Item;
use crate::scheme::Scheme;
use crate::weight::{read_no_weight, read_weight};
use lang_core::{LangFault, Range};
use std::alloc::Global;

/// The longest field that is read.
pub(crate) const MAX_FIELD_LEN: usize = 65535;

/// The most bytes that a range has.
const MAX_RANGE_LEN: usize = 255;

/// As many items as most fields have.
const USUAL_ITEMS: usize = 12;

const COMMA: u8 = b',';

/// This many commas are skipped at once.
const COMMAS: &[u8] = b",,,,,,,,,,,,,,,,";

/// What becomes of a field's malformed elements. A recipient may recover the usable ones (RFC 9110
/// section 2.4), or disregard the field (section 12.4.1).
#[derive(Clone, Copy, Debug, PartialEq, Eq)]
pub enum Malformed {
    /// The first of them refuses the field.
    Refused,
    /// They are skipped, and the other elements are read.
    PassedOver,
}

/// The items of a field, in one pass.
pub(crate) fn read_items(
    alloc: Global,
    scheme: Scheme,
    malformed: Malformed,
    field: &[u8],
) -> Result<Vec<Item>, NegoFault>
    ensures { MatchResult result
        (λ items. (length field.now ≤ 65535) × IsField scheme malformed field.now items.items)
        (RefusesField scheme malformed field.now) }
{
    if field.len() > MAX_FIELD_LEN {
        return Err(NegoFault::FieldTooLong);
    }
    let mut items = Vec::new(alloc);
    let mut rest = skip_separators(field);
    while !rest.is_empty() {
        let offset = field.len() - rest.len();
        let end = range_end(rest);
        if end > MAX_RANGE_LEN {
            // Its end need not be found where it refuses the field.
            pass_over(malformed, offset)?;
        }
        let (tail, after) = cut_piece(&rest[end..]);
        match read_item(alloc, scheme, &rest[..end], tail)? {
            Some(item) => push_item(&mut items, item)?,
            None => pass_over(malformed, offset)?,
        }
        rest = skip_separators(after);
    }
    Ok(items)
}

/// Adds an item. The first makes room for as many as most fields have.
fn push_item(items: &mut Vec<Item>, item: Item) -> Result<(), NegoFault>
    ensures { MatchResult result (λ _. items.new.items ≡ items.old.items ++ item ∷ [])
        (λ fault. fault ≡ NoMemory) }
{
    if items.is_empty() {
        items.reserve(USUAL_ITEMS)?;
    }
    items.push(item)?;
    Ok(())
}

/// Goes on after a malformed element, which begins at the offset, or refuses it.
fn pass_over(malformed: Malformed, offset: usize) -> Result<(), NegoFault>
    ensures { MatchResult result (λ _. malformed ≡ PassedOver)
        (λ fault. (malformed ≡ Refused) × (fault ≡ FieldMalformed offset)) }
{
    match malformed {
        Malformed::Refused => Err(NegoFault::FieldMalformed { offset }),
        Malformed::PassedOver => Ok(()),
    }
}

/// The text without its leading separators.
fn skip_separators(text: &[u8]) -> &[u8]
    ensures { result.now ≡ skip_separators text.now }
{
    let mut rest = text;
    while let [first, others @ ..] = rest {
        if !is_separator(*first) {
            return rest;
        }
        rest = skip_commas(others);
    }
    rest
}

/// The text up to its first comma, and what follows that comma.
fn cut_piece(text: &[u8]) -> (&[u8], &[u8])
    ensures { IsFirstPiece text.now result.0.now result.1.now }
{
    match comma_at(text) {
        Some(at) => (&text[..at], &text[at + 1..]),
        None => (text, &[]),
    }
}

/// A comma, or a blank beside one (RFC 9110 section 5.6.1).
fn is_separator(byte: u8) -> bool
    ensures { result ≡ is_separator byte }
{
    matches!(byte, COMMA | b' ' | b'\t')
}

/// The text without its leading commas, of which fewer than `COMMAS` may be left.
fn skip_commas(text: &[u8]) -> &[u8]
    ensures same { skip_separators result.now ≡ skip_separators text.now }
    ensures shorter { length result.now ≤ length text.now }
{
    let mut rest = text;
    while let Some(others) = rest.strip_prefix(COMMAS) {
        rest = others;
    }
    rest
}

/// The place of the first comma.
pub(crate) fn comma_at(text: &[u8]) -> Option<usize>
    ensures { result ≡ position (λ b. b == 44) text.now }
{
    text.iter().position(|b| *b == COMMA)
}

/// The item of an element that begins with these bytes, before the first that ends a range, and
/// goes on with the tail, at whose end blanks may be.
fn read_item(
    alloc: Global,
    scheme: Scheme,
    range: &[u8],
    tail: &[u8],
) -> Result<Option<Item>, NegoFault>
    requires { IsBegun range.now tail.now }
    ensures { let text = range.now ++ tail.now in MatchResult result
        (λ found. MatchOption found ((item : Item) → ¬ IsStart scheme text item)
        (IsStart scheme text))
        (λ fault. (fault ≡ NoMemory) × HasStart scheme text) }
{
    let Some(weight) = read_weight_of(scheme, tail) else {
        return Ok(None);
    };
    match read_range(alloc, scheme, range)? {
        Some(range) => Ok(Some(Item::new(range, weight))),
        None => Ok(None),
    }
}

/// How many bytes at the front end no range. Of more than a range may have, one more is counted.
fn range_end(text: &[u8]) -> usize
    ensures { IsRangeEnd text.now result }
{
    let most = text.len().min(MAX_RANGE_LEN + 1);
    for end in 0..most {
        if !is_inner(text[end]) {
            return end;
        }
    }
    most
}

/// The range that the text is under the scheme, if it is one.
fn read_range(alloc: Global, scheme: Scheme, text: &[u8]) -> Result<Option<Range>, NegoFault>
    ensures { let lower = str_to_ascii_lowercase text.now in MatchResult result
        (λ found. MatchOption found (¬ IsRange (RangeGrammar scheme) lower)
        (λ range. IsRange (RangeGrammar scheme) lower × (range ≡ lower)))
        (λ fault. (fault ≡ NoMemory) × IsRange (RangeGrammar scheme) lower) }
{
    match scheme {
        Scheme::Basic => fitting_range(Range::parse_basic(alloc, text)),
        Scheme::Extended => fitting_range(Range::parse_extended(alloc, text)),
    }
}

/// No range, where the text is none.
fn fitting_range(parsed: Result<Range, LangFault>) -> Result<Option<Range>, NegoFault>
    ensures { result ≡ fitting_range parsed }
{
    match parsed {
        Ok(range) => Ok(Some(range)),
        Err(LangFault::NoMemory) => Err(NegoFault::NoMemory),
        Err(_) => Ok(None),
    }
}

/// The weight after a range: extended ranges have none.
fn read_weight_of(scheme: Scheme, text: &[u8]) -> Option<u16>
    ensures only { IsTheOne result (IsTail (WeightGrammar scheme) text.now) }
    ensures small { IfSome result (λ n. n ≤ 1000) }
{
    match scheme {
        Scheme::Basic => read_weight(text),
        Scheme::Extended => read_no_weight(text),
    }
}

/// What is no blank, no semicolon and no comma, and so ends no range.
fn is_inner(byte: u8) -> bool
    ensures { result ≡ is_inner byte }
{
    !matches!(byte, b' ' | b'\t' | b';' | COMMA)
}
