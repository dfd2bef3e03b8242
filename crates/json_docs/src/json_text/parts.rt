//! Parts of a JSON value: its text, its number, its items.
ghost use Rattle.std.specs.Prelude.{◌≡◌, IfSome, map, option_map};
ghost use Rattle.json.specs.Value.{value_view};
ghost use Rattle.serde_json.specs.Find.{as_str};
ghost use Rattle.json_docs.specs.ScanningReads.{AreRead, IsRead, seen};
ghost use Rattle.json_docs.specs.Parts.{items_in, u32_in, u64_in};

use crate::json_text::numbers::whole_number;
use json::Value;

/// The text, where the value is one.
pub fn text_of<'t>(value: &Value<'t>) -> Option<&'t str>
    ensures { option_map (λ s. s.now) result ≡ as_str (seen value.now) }
{
    value.as_str()
}

/// The unsigned whole number of 64 bits, where the value is one.
pub fn u64_of(value: &Value<'_>) -> Option<u64>
    ensures { result ≡ u64_in (seen value.now) }
{
    whole_number(value.as_number()?)
}

/// The unsigned whole number of 32 bits, where the value is one.
pub fn u32_of(value: &Value<'_>) -> Option<u32>
    ensures { result ≡ u32_in (seen value.now) }
{
    u32::try_from(u64_of(value)?).ok()
}

/// The items, where the value is an array.
pub fn items_of<'v, 't>(value: &'v Value<'t>) -> Option<&'v [Value<'t>]>
    requires { IsRead (value_view value.now) }
    ensures items { option_map (λ s. map seen s.now) result ≡ items_in (seen value.now) }
    ensures read { IfSome result (λ s. AreRead s.now) }
{
    match value {
        Value::Array(items) => Some(items.as_slice()),
        _ => None,
    }
}
