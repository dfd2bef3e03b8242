//! Numbers as `serde_json` reads them from the text of a JSON number.
ghost use Rattle.std.specs.Prelude.{◌≡◌, ◌==◌, true, false, option_and_then, is_some, slice_index};
ghost use Rattle.std.specs.Prelude.{IsTrue, ◌<◌, length};
ghost use Rattle.fast_float.specs.Text.{Parts};
ghost use Rattle.serde_json.specs.Find.{as_u64};
ghost use Rattle.serde_json.specs.Read.{float_of, number_from, number_of};

use fast_float::Numeral;

/// The unsigned whole number of 64 bits that the text is, where it is one.
pub(crate) fn whole_number(text: &str) -> Option<u64>
    ensures { result ≡ option_and_then as_u64 (number_of text.now) }
{
    let bytes = text.as_bytes();
    if has_minus(bytes) {
        return None;
    }
    positive_whole(&Numeral::scan(bytes))
}

/// Whether the number is read: a whole number of 64 bits, or one in the range of a float.
pub(crate) fn is_in_range(text: &str) -> bool
    ensures { result ≡ is_some (number_of text.now) }
{
    let bytes = text.as_bytes();
    if has_minus(bytes) {
        is_negative_read(&Numeral::scan(&bytes[1..]))
    } else {
        is_positive_read(&Numeral::scan(bytes))
    }
}

/// The unsigned whole number of 64 bits that a numeral without a minus is, where it is one.
fn positive_whole(numeral: &Numeral<'_>) -> Option<u64>
    ensures { result ≡ option_and_then as_u64 (number_from false numeral.now) }
{
    numeral.to_u64()
}

/// Whether a numeral without a minus is read.
fn is_positive_read(numeral: &Numeral<'_>) -> bool
    ensures { result ≡ is_some (number_from false numeral.now) }
{
    numeral.to_u64().is_some() || numeral.to_float::<f64>(false).is_finite()
}

/// Whether a numeral after a minus is read.
fn is_negative_read(numeral: &Numeral<'_>) -> bool
    ensures { result ≡ is_some (number_from true numeral.now) }
{
    if let Some(number) = numeral.to_i64(true) {
        if number < 0 {
            return true;
        }
    }
    numeral.to_float::<f64>(true).is_finite()
}

/// Whether the text begins with a minus.
fn has_minus(bytes: &[u8]) -> bool
    ensures value { result ≡ (slice_index bytes.now 0 == 45) }
    ensures len { IsTrue result → 0 < length bytes.now }
{
    !bytes.is_empty() && bytes[0] == b'-'
}
