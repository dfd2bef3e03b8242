//! The parts of a question or an exchange that C asks for.
ghost use Rattle.std.specs.Prelude.{◌≡◌, option_map};
ghost use Rattle.front_core.specs.Preferences.{field_text};
ghost use Rattle.front_c.specs.Question.{checks_of, default_of, field_of, limit_of};
ghost use Rattle.front_c.specs.Question.{lookup_field_of, own_edits_of, shows_of, widened_field_of};

use docs_core::{Checks, OwnEdits, Shows};
use front_core::Field;
use nego_core::{Malformed, Scheme, Widening};

/// How a field is read under these flags, or none if one of them is unknown: 1 is the extended
/// scheme, 2 skips malformed elements.
pub(crate) fn field_of(flags: u32, text: &[u8]) -> Option<Field<'_>>
    ensures { option_map field_text result ≡ field_of flags text.now }
{
    let (scheme, malformed) = match flags {
        0 => (Scheme::Basic, Malformed::Refused),
        1 => (Scheme::Extended, Malformed::Refused),
        2 => (Scheme::Basic, Malformed::PassedOver),
        3 => (Scheme::Extended, Malformed::PassedOver),
        _ => return None,
    };
    Some(Field {
        scheme,
        malformed,
        widening: Widening::Off,
        fallbacks: &[],
        text,
    })
}

/// How the field of a lookup is read under these flags, or none if one of them is unknown: as
/// [`field_of`] says, and 4 widens the lookup, which goes by a table of fallbacks.
pub(crate) fn lookup_field_of<'a>(
    flags: u32,
    fallbacks: &'a [u8],
    text: &'a [u8],
) -> Option<Field<'a>>
    ensures { option_map field_text result ≡ lookup_field_of flags fallbacks.now text.now }
{
    let field = widened_field_of(flags, text)?;
    Some(Field {
        scheme: field.scheme,
        malformed: field.malformed,
        widening: field.widening,
        fallbacks,
        text,
    })
}

/// The default of a question: an empty text is none.
pub(crate) fn default_of(text: &[u8]) -> Option<&[u8]>
    ensures { option_map (λ s. s.now) result ≡ default_of text.now }
{
    if text.is_empty() { None } else { Some(text) }
}

/// What an exchange tests under these flags, or none if one of them is unknown: 8 tests the
/// site's own edits, and a limit other than 0 the times.
pub(crate) fn checks_of(flags: u32, not_after: u64) -> Option<Checks>
    ensures { result ≡ checks_of flags not_after }
{
    let own_edits = own_edits_of(flags)?;
    Some(Checks {
        not_after: limit_of(not_after),
        own_edits,
    })
}

/// What a summary shows under these flags, or none if one of them is unknown: 16 shows labels.
pub(crate) fn shows_of(flags: u32) -> Option<Shows>
    ensures { result ≡ shows_of flags }
{
    match flags {
        0 => Some(Shows::Stamps),
        16 => Some(Shows::Labels),
        _ => None,
    }
}

/// The same field without a table.
fn widened_field_of(flags: u32, text: &[u8]) -> Option<Field<'_>>
    ensures { option_map field_text result ≡ widened_field_of flags text.now }
{
    let (scheme, malformed) = match flags {
        4 => (Scheme::Basic, Malformed::Refused),
        5 => (Scheme::Extended, Malformed::Refused),
        6 => (Scheme::Basic, Malformed::PassedOver),
        7 => (Scheme::Extended, Malformed::PassedOver),
        _ => return field_of(flags, text),
    };
    Some(Field {
        scheme,
        malformed,
        widening: Widening::By(scheme),
        fallbacks: &[],
        text,
    })
}

/// Whether an exchange tests the site's own edits, or none if a flag is unknown.
fn own_edits_of(flags: u32) -> Option<OwnEdits>
    ensures { result ≡ own_edits_of flags }
{
    match flags {
        0 => Some(OwnEdits::Unchecked),
        8 => Some(OwnEdits::Checked),
        _ => None,
    }
}

/// The limit on the times of an exchange: 0 is none.
fn limit_of(not_after: u64) -> Option<u64>
    ensures { result ≡ limit_of not_after }
{
    if not_after == 0 {
        None
    } else {
        Some(not_after)
    }
}
