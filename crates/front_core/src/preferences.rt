//! What a reader prefers: the ranges of a field, and a default where there is one.
ghost use Rattle.std.specs.Prelude.{MatchResult, option_map};
ghost use Rattle.front_core.specs.Preferences.{ReadsAs, RefusesRanges, field_text, IsDefault};
ghost use Rattle.front_core.specs.Preferences.{RefusesDefault};

use crate::fault::FrontFault;
use lang_core::{Lang, LangFault};
use nego_core::{Fallbacks, Malformed, NegoFault, PriorityList, Scheme, Widening};
use std::alloc::Global;

/// The text of a field, how it is read, and what its ranges find.
#[derive(Clone, Copy)]
pub struct Field<'a> {
    /// An Accept-Language field (RFC 9110, section 12.5.4), or extended ranges without weights
    /// (RFC 4647, section 2.2).
    pub scheme: Scheme,
    /// What becomes of malformed elements.
    pub malformed: Malformed,
    /// Whether a lookup lets a range find the languages that it matches. A filter has no use for
    /// it.
    pub widening: Widening,
    /// The text of a table of fallbacks, by which a lookup goes. Without bytes it is that of RFC
    /// 4647. A filter has no use for it.
    pub fallbacks: &'a [u8],
    /// Its bytes.
    pub text: &'a [u8],
}

impl Field<'_> {
    /// The priority list of the field, for lookups by its table of fallbacks.
    ///
    /// Refused is the table first, as [`Fallbacks::parse`] refuses it (8, 31), then the field, as
    /// [`PriorityList::parse`] does (8, 9). Out of memory (26) may come before.
    pub fn read(self, alloc: Global) -> Result<PriorityList, NegoFault>
        ensures { MatchResult result (ReadsAs (field_text self.entry))
            (RefusesRanges (field_text self.entry)) }
    {
        let fallbacks = Fallbacks::parse(alloc, self.fallbacks)?;
        PriorityList::parse_with(alloc, self.scheme, self.malformed, &fallbacks, self.text)
    }
}

/// What a reader prefers: ranges, and a default for where none of them fits.
#[derive(Drop)]
pub struct Preferences {
    /// The ranges, with their weights.
    pub list: PriorityList,
    /// Whether a range finds the languages that it matches too.
    pub widening: Widening,
    /// The language to fall back to, where there is one.
    pub default: Option<Lang>,
}

impl Preferences {
    ghost use Rattle.front_core.specs.Preferences.{field_text, ArePreferences, RefusesPreferences};

    /// Reads preferences from a field and a default.
    ///
    /// Refused are the default first (1 to 4), then the table of fallbacks (8, 31), then the field
    /// (8, and 9 where a malformed element refuses it). Out of memory (26) may come before a later
    /// refusal.
    pub fn read(
        alloc: Global,
        field: Field<'_>,
        default: Option<&[u8]>,
    ) -> Result<Preferences, FrontFault>
        ensures { MatchResult result (ArePreferences (field_text field.entry)
            (option_map (λ s. s.now) default.entry))
            (RefusesPreferences (field_text field.entry) (option_map (λ s. s.now) default.entry)) }
    {
        let default = read_default(alloc, default)?;
        let list = field.read(alloc)?;
        Ok(Preferences {
            list,
            widening: field.widening,
            default,
        })
    }
}

/// The language of the default, where there is one.
pub(crate) fn read_default(alloc: Global, default: Option<&[u8]>) -> Result<Option<Lang>, LangFault>
    ensures { MatchResult result (IsDefault (option_map (λ s. s.now) default.entry))
        (RefusesDefault (option_map (λ s. s.now) default.entry)) }
{
    match default {
        None => Ok(None),
        Some(text) => Ok(Some(Lang::parse(alloc, text)?)),
    }
}
