//! The weight of an element (RFC 9110 section 12.4.2), and the blanks beside it (section 5.6.3).
ghost use Rattle.std.specs.Prelude.{◌≤◌, IfSome, ◌≡◌, IsTrue, slice_index, ◌-◌};
ghost use Rattle.list_core.specs.Basics.{IsTheOne};
ghost use Rattle.list_core.specs.Weight.{IsWeight, IsNoWeight, IsQvalue, is_zero_digit};
ghost use Rattle.list_core.specs.Weight.{thousandths};
ghost use Rattle.list_core.specs.inner.Weight.{FollowsSemicolon, IsNamedQvalue, IsLastQvalue};
ghost use Rattle.list_core.specs.inner.Weight.{IsTail};
ghost use Rattle.std.specs.List.{list_all};
ghost use Rattle.lang_core.specs.Grammar.{is_digit};
ghost use Rattle.std.specs.Prelude.{position};
ghost use Rattle.list_core.specs.Weight.{is_blank};
ghost use Rattle.list_core.specs.inner.Weight.{skip_blanks, is_stop, IsCut};

/// The weight of an element that has none.
const FULL_WEIGHT: u16 = 1000;

/// The weight after a range; where there is none, the full weight.
pub(crate) fn read_weight(text: &[u8]) -> Option<u16>
    ensures only { IsTheOne result (IsTail IsWeight text.now) }
    ensures small { IfSome result (λ n. n ≤ 1000) }
{
    match trim_start(text) {
        [] => Some(FULL_WEIGHT),
        [b';', rest @ ..] => read_after_semicolon(rest),
        _ => None,
    }
}

/// Reads the end of an element that may have no weight.
pub(crate) fn read_no_weight(text: &[u8]) -> Option<u16>
    ensures only { IsTheOne result (IsTail IsNoWeight text.now) }
    ensures small { IfSome result (λ n. n ≤ 1000) }
{
    if all_blanks(text) {
        Some(FULL_WEIGHT)
    } else {
        None
    }
}

/// A space or a tab (RFC 9110 section 5.6.3).
fn is_blank(byte: u8) -> bool
    ensures { result ≡ is_blank byte }
{
    byte == b' ' || byte == b'\t'
}

/// A blank or a semicolon.
fn is_stop(byte: u8) -> bool
    ensures { result ≡ is_stop byte }
{
    is_blank(byte) || byte == b';'
}

/// The weight after a semicolon.
fn read_after_semicolon(text: &[u8]) -> Option<u16>
    ensures only { IsTheOne result (FollowsSemicolon text.now) }
    ensures small { IfSome result (λ n. n ≤ 1000) }
{
    read_named(trim_start(text))
}

/// The weight after "q=".
fn read_named(text: &[u8]) -> Option<u16>
    ensures only { IsTheOne result (IsNamedQvalue text.now) }
    ensures small { IfSome result (λ n. n ≤ 1000) }
{
    match text {
        [b'q' | b'Q', b'=', qvalue @ ..] => read_last_qvalue(qvalue),
        _ => None,
    }
}

/// The value of a qvalue that blanks follow.
fn read_last_qvalue(text: &[u8]) -> Option<u16>
    ensures only { IsTheOne result (IsLastQvalue text.now) }
    ensures small { IfSome result (λ n. n ≤ 1000) }
{
    let (qvalue, after) = cut_token(text);
    if !all_blanks(after) {
        return None;
    }
    read_qvalue(qvalue)
}

/// The weight of a qvalue, in thousandths.
fn read_qvalue(text: &[u8]) -> Option<u16>
    ensures only { IsTheOne result (IsQvalue text.now) }
    ensures small { IfSome result (λ n. n ≤ 1000) }
{
    match text {
        [b'0'] => Some(0),
        [b'1'] => Some(1000),
        [b'0', b'.', digits @ ..] if digits.len() <= 3 && all_digits(digits) => Some(value_of(
            digits,
        )),
        [b'1', b'.', digits @ ..] if digits.len() <= 3 && all_zeros(digits) => Some(1000),
        _ => None,
    }
}

/// The thousandths of up to three digits after the point.
fn value_of(digits: &[u8]) -> u16
    requires { IsTrue (list_all is_digit digits.now) }
    ensures value { result ≡ thousandths digits.now }
    ensures small { result ≤ 999 }
{
    100 * digit_at(digits, 0) + 10 * digit_at(digits, 1) + digit_at(digits, 2)
}

/// The value of the digit at the place, or 0 past the end.
fn digit_at(digits: &[u8], place: usize) -> u16
    requires { IsTrue (list_all is_digit digits.now) }
    ensures value { result ≡ slice_index digits.now place - 48 }
    ensures small { result ≤ 9 }
{
    match digits.get(place) {
        Some(b) => u16::from(*b - b'0'),
        None => 0,
    }
}

/// Whether the text is digits alone.
fn all_digits(digits: &[u8]) -> bool
    ensures { result ≡ list_all is_digit digits.now }
{
    digits.iter().all(|b| b.is_ascii_digit())
}

/// Whether the text is zeros alone.
fn all_zeros(digits: &[u8]) -> bool
    ensures { result ≡ list_all is_zero_digit digits.now }
{
    digits.iter().all(|b| *b == b'0')
}

/// Whether the text is blanks alone.
fn all_blanks(text: &[u8]) -> bool
    ensures { result ≡ list_all is_blank text.now }
{
    text.iter().all(|b| is_blank(*b))
}

/// The text without its leading blanks.
fn trim_start(text: &[u8]) -> &[u8]
    ensures { result.now ≡ skip_blanks text.now }
{
    let mut rest = text;
    while let [first, others @ ..] = rest {
        if !is_blank(*first) {
            return rest;
        }
        rest = others;
    }
    rest
}

/// The text up to the first blank or semicolon, and the rest.
fn cut_token(text: &[u8]) -> (&[u8], &[u8])
    ensures { IsCut text.now result.0.now result.1.now }
{
    match stop_at(text) {
        Some(at) => (&text[..at], &text[at..]),
        None => (text, &[]),
    }
}

/// The place of the first blank or semicolon.
fn stop_at(text: &[u8]) -> Option<usize>
    ensures { result ≡ position is_stop text.now }
{
    text.iter().position(|b| is_stop(*b))
}
