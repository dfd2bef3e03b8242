//! JSON read from a text a value at a time.
ghost use Rattle.std.specs.Prelude.{◌≡◌, ◌<◌, None, length, true, IfOk, IfErr, OnOk, Some};
ghost use Rattle.json.specs.Json.{value};
ghost use Rattle.json.specs.Reads.{token_of};
ghost use Rattle.json.specs.Value.{value_view};
ghost use Rattle.json_docs.specs.FaultChecks.{OrMemory};
ghost use Rattle.json_docs.specs.Numbers.{are_in_range, is_token_in_range};
ghost use Rattle.json_docs.specs.ScanningReads.{IsRead, Reads, seen};
ghost use Rattle.json_docs.specs.ObjectMembersRead.{is_scalar};
ghost use Rattle.json_docs.specs.declared.fault.DocCause.TheVariants.{NoMemory, NotJson};

use crate::fault::DocCause;
use crate::json_text::numbers::is_in_range;
use json::{Reader, Token, Value};
use std::alloc::Global;

/// Whether all numbers from here to the end are in range.
pub(crate) fn has_numbers_in_range(reader: &mut Reader<'_>) -> bool
    ensures { result ≡ are_in_range reader.old }
{
    while let Some(token) = reader.next() {
        if !is_token_in_range(token) {
            return false;
        }
    }
    true
}

/// The next value, or refusal 19 exactly where there is none that nests at most this deep.
pub fn next_value<'t>(
    alloc: Global,
    reader: &mut Reader<'t>,
    depth: usize,
) -> Result<Value<'t>, DocCause>
    requires { are_in_range reader.old ≡ true }
    ensures ok { IfOk result (λ v. Reads depth reader.old (seen v) reader.new) }
    ensures read { IfOk result (λ v. IsRead (value_view v)) }
    ensures left { OnOk result (are_in_range reader.new ≡ true) }
    ensures shorter { OnOk result (length reader.new < length reader.old) }
    ensures err { IfErr result
        (OrMemory NoMemory (λ e. (e ≡ NotJson) × (value depth reader.old ≡ None))) }
{
    match Value::read(alloc, reader, depth) {
        Ok(value) => Ok(value),
        Err(json::Error::OutOfMemory) => Err(DocCause::NoMemory),
        Err(_) => Err(DocCause::NotJson),
    }
}

/// Whether the token is a value of its own.
pub fn is_scalar(token: Token<'_>) -> bool
    ensures { result ≡ is_scalar (token_of token.entry) }
{
    matches!(
        token,
        Token::String(_) | Token::Number(_) | Token::Bool(_) | Token::Null
    )
}

/// Whether a token, where it is a number, is in range.
fn is_token_in_range(token: Token<'_>) -> bool
    ensures { result ≡ is_token_in_range (token_of token.entry) }
{
    match token {
        Token::Number(text) => is_in_range(text),
        _ => true,
    }
}
