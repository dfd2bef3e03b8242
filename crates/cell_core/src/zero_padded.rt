//! Texts that are padded with zero bytes to a fixed length, as site names and short message ids are
//! stored.
//!
//! No such text has a zero byte, so the arrays are in the order of the texts.

ghost use Rattle.std.specs.Prelude.{◌≡◌, ◌==◌, ◌≤◌, position, length};
ghost use Rattle.std.specs.Str.{IsUtf8};
ghost use Rattle.cell_core.specs.ZeroPadded.{zero_padded, before_zeros};

/// The text, padded with zero bytes.
pub(crate) fn zero_padded<const N: usize>(text: &[u8]) -> [u8; N]
    requires { length text.now ≤ N }
    ensures { result ≡ zero_padded N text.now }
{
    let mut bytes = [0; N];
    bytes[..text.len()].copy_from_slice(text);
    bytes
}

/// The text before the zero bytes.
pub(crate) fn before_zeros(bytes: &[u8]) -> &str
    requires { IsUtf8 (before_zeros bytes.now) }
    ensures { result.now ≡ before_zeros bytes.now }
{
    let len = first_zero(bytes).unwrap_or(bytes.len());
    // The text is UTF-8 by what is required, so it is not tested once more.
    unsafe { str::from_utf8_unchecked(&bytes[..len]) }
}

/// The place of the first zero byte.
fn first_zero(bytes: &[u8]) -> Option<usize>
    ensures { result ≡ position (λ b. b == 0) bytes.now }
{
    bytes.iter().position(|&b| b == 0)
}
