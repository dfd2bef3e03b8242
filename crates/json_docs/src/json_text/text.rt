//! A text of bytes, and whether it is one JSON value whose numbers are in range.
ghost use Rattle.std.specs.Prelude.{◌≡◌, ◌<◌, None, Some, true, MatchResult, IsUtf8};
ghost use Rattle.std.specs.Str.Lossy.{utf8_valid_len};
ghost use Rattle.json.specs.Lex.{tokens};
ghost use Rattle.serde_json.specs.Data.{Data};
ghost use Rattle.serde_json.specs.Read.{read};
ghost use Rattle.json_docs.specs.FaultChecks.{OrMemory};
ghost use Rattle.json_docs.specs.Numbers.{are_in_range};
ghost use Rattle.json_docs.specs.declared.fault.DocCause.TheVariants.{NoMemory, NotJson, NotUtf8};

use crate::fault::DocCause;
use crate::json_text::scanning::has_numbers_in_range;
use json::{Reader, Scratch};

/// How deep a text nests at most, as `serde_json` reads it.
pub const MAX_DEPTH: usize = 127;

/// The text, where the bytes are UTF-8 (RFC 3629), or else refusal 18.
pub fn text_in(bytes: &[u8]) -> Result<&str, DocCause>
    ensures { MatchResult result (λ text. (text.now ≡ bytes.now) × IsUtf8 bytes.now)
        (λ e. (¬ (IsUtf8 bytes.now)) × (e ≡ NotUtf8 (utf8_valid_len bytes.now))) }
{
    match simdutf8::compat::from_utf8(bytes) {
        Ok(text) => Ok(text),
        Err(error) => Err(DocCause::NotUtf8 {
            offset: error.valid_up_to(),
        }),
    }
}

/// Refuses a text with a number out of range (19).
pub fn check_numbers(text: &str, scratch: &mut Scratch) -> Result<(), DocCause>
    ensures { MatchResult result (λ _. are_in_range (tokens text.now) ≡ true)
        (OrMemory NoMemory (λ e. (e ≡ NotJson) × (read text.now ≡ None))) }
{
    let Ok(mut reader) = Reader::new(text, scratch) else {
        return Err(DocCause::NoMemory);
    };
    if has_numbers_in_range(&mut reader) {
        Ok(())
    } else {
        Err(DocCause::NotJson)
    }
}

/// Refuses a text that is not one value (19).
pub fn check_value(text: &str, scratch: &mut Scratch) -> Result<(), DocCause>
    requires { are_in_range (tokens text.now) ≡ true }
    ensures { MatchResult result (λ _. (d : Data) × (read text.now ≡ Some d))
        (OrMemory NoMemory (λ e. (e ≡ NotJson) × (read text.now ≡ None))) }
{
    let Ok(mut reader) = Reader::new(text, scratch) else {
        return Err(DocCause::NoMemory);
    };
    match reader.skip_value(MAX_DEPTH) {
        Ok(()) => {}
        Err(_) => return Err(DocCause::NotJson),
    }
    match reader.next() {
        None => Ok(()),
        Some(_) => Err(DocCause::NotJson),
    }
}
