//! The fields of priority lists, written (RFC 9110 section 12.5.4).
ghost use Rattle.std.specs.Prelude.{◌≡◌, ◌≢◌, ◌≤◌, ◌<◌, ◌+◌, ◌∷◌, ◌++◌, [], flat_map, string_bytes};
ghost use Rattle.std.specs.Prelude.{false, IfOk, OnOk, MatchBool, MatchOption};
ghost use Rattle.list_core.specs.declared.fault.NegoFault.TheVariants.{NoMemory};
ghost use Rattle.script_docs.specs.FieldWriting.{IsListed, field_text, fraction_text, item_text};
ghost use Rattle.script_docs.specs.FieldWriting.{ones_text, tens_text, weight_text};
ghost use Rattle.script_docs.specs.StepFields.{Lists};

use nego_core::{Item, Malformed, NegoFault, PriorityList, Scheme};
use std::alloc::{AllocError, Global};

/// The weight of an item that is written without one.
const FULL_WEIGHT: u16 = 1000;

/// The items with a comma between each two, if that reads as the list under the scheme; none where
/// no field does.
///
/// A list does not say under which scheme it was read: so its field is read back.
pub(crate) fn field_of(
    alloc: Global,
    scheme: Scheme,
    list: &PriorityList,
) -> Result<Option<String>, AllocError>
    ensures { IfOk result (λ found. MatchOption found (¬ IsListed scheme list.now)
        (λ field. (string_bytes field ≡ field_text list.now)
        × Lists scheme (string_bytes field) list.now)) }
{
    let field = joined_items(alloc, list.items())?;
    let same = reads_as(alloc, scheme, field.as_str(), list)?;
    if same { Ok(Some(field)) } else { Ok(None) }
}

/// Whether the field reads as the list.
fn reads_as(
    alloc: Global,
    scheme: Scheme,
    field: &str,
    list: &PriorityList,
) -> Result<bool, AllocError>
    ensures { IfOk result (λ same. MatchBool same (Lists scheme field.now list.now)
        (¬ Lists scheme field.now list.now)) }
{
    match PriorityList::parse(alloc, scheme, Malformed::Refused, field.as_bytes()) {
        Ok(read) => Ok(read.items() == list.items()),
        Err(fault) => no_list(fault),
    }
}

/// A field that is refused reads as no list.
fn no_list(fault: NegoFault) -> Result<bool, AllocError>
    ensures { IfOk result (λ same. (same ≡ false) × (fault ≢ NoMemory)) }
{
    match fault {
        NegoFault::FieldTooLong
        | NegoFault::FieldMalformed { .. }
        | NegoFault::FallbackMalformed { .. } => Ok(false),
        NegoFault::NoMemory => Err(AllocError),
    }
}

/// The items with commas between them.
fn joined_items(alloc: Global, items: &[Item]) -> Result<String, AllocError>
    ensures { IfOk result (λ text. string_bytes text ≡ field_text items.now) }
{
    let mut text = String::new(alloc);
    let [first, others @ ..] = items else {
        return Ok(text);
    };
    push_item(&mut text, first)?;
    push_others(&mut text, others)?;
    Ok(text)
}

/// Adds the items, each after a comma.
fn push_others(text: &mut String, items: &[Item]) -> Result<(), AllocError>
    ensures { OnOk result (string_bytes text.new
        ≡ string_bytes text.old ++ flat_map (λ i. (44 ∷ []) ++ item_text i) items.now) }
{
    for item in items {
        text.push_str(",")?;
        push_item(text, item)?;
    }
    Ok(())
}

/// Adds the range, and its weight if that is not full.
fn push_item(text: &mut String, item: &Item) -> Result<(), AllocError>
    ensures { OnOk result (string_bytes text.new ≡ string_bytes text.old ++ item_text item.now) }
{
    text.push_str(item.range().as_str())?;
    push_weight(text, item.weight())
}

/// Adds the weight, unless it is full.
fn push_weight(text: &mut String, weight: u16) -> Result<(), AllocError>
    requires { weight ≤ 1000 }
    ensures { OnOk result (string_bytes text.new ≡ string_bytes text.old ++ weight_text weight) }
{
    if weight == FULL_WEIGHT {
        return Ok(());
    }
    text.push_str(";q=0")?;
    push_fraction(text, weight)
}

/// Writes the fraction of a weight below 1000, in thousandths.
fn push_fraction(text: &mut String, weight: u16) -> Result<(), AllocError>
    requires { weight < 1000 }
    ensures { OnOk result (string_bytes text.new ≡ string_bytes text.old ++ fraction_text weight) }
{
    if weight == 0 {
        return Ok(());
    }
    text.push_str(".")?;
    push_digit(text, weight / 100)?;
    push_tens(text, weight % 100)
}

/// Adds the digits after the first.
fn push_tens(text: &mut String, rest: u16) -> Result<(), AllocError>
    requires { rest < 100 }
    ensures { OnOk result (string_bytes text.new ≡ string_bytes text.old ++ tens_text rest) }
{
    if rest == 0 {
        return Ok(());
    }
    push_digit(text, rest / 10)?;
    push_ones(text, rest % 10)
}

/// Adds the digit after the second.
fn push_ones(text: &mut String, rest: u16) -> Result<(), AllocError>
    requires { rest < 10 }
    ensures { OnOk result (string_bytes text.new ≡ string_bytes text.old ++ ones_text rest) }
{
    if rest == 0 {
        return Ok(());
    }
    push_digit(text, rest)
}

/// Adds a digit.
fn push_digit(text: &mut String, digit: u16) -> Result<(), AllocError>
    requires { digit < 10 }
    ensures { OnOk result (string_bytes text.new ≡ string_bytes text.old ++ (48 + digit) ∷ []) }
{
    text.push(char::from(b'0' + digit as u8))
}
