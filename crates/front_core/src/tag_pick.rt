//! Picking one of several tags, one on a line.
ghost use Rattle.std.specs.Prelude.{option_map, MatchResult};
ghost use Rattle.front_core.specs.Offering.{offers_of};
ghost use Rattle.front_core.specs.Preferences.{field_text};
ghost use Rattle.docs_core.specs.Lines.{lines_of};
ghost use Rattle.front_core.specs.inner.TagFilter.{texts_of};
ghost use Rattle.front_core.specs.TagPick.{IsPickedOffered, RefusesPickOffered};
ghost use Rattle.front_core.specs.inner.TagPick.{HasPlace, IsTagAt};

use crate::fault::FrontFault;
use crate::offering::Offering;
use crate::preferences::{Field, Preferences};
use crate::reader::Reader;
use crate::tags::read_lines;
use nego_core::{Found, lookup_by};
use std::alloc::Global;

/// What is picked: a tag, as it was passed in.
#[derive(Clone, Copy, Debug, PartialEq, Eq)]
pub enum Picked<'a> {
    /// The first of the tags that spell the language that lookup finds.
    Matched(&'a [u8]),
    /// The first of those that spell the default, where lookup finds none of the tags.
    Default(&'a [u8]),
    /// No tag, and no default that may be answered.
    Nothing,
}

/// The tag that lookup (RFC 4647, section 3.4) finds for a field among the tags that are offered,
/// one on a line, or widened lookup if the field says so; else the default, if it is among them and
/// the field does not exclude it.
///
/// A line feed ends each line, and may be missing after the last: no bytes are no tags. Tags are
/// equal without case, and of equal ones the first is answered. `@none` is a tag that is never
/// found, but it may be the default.
///
/// Refused are the default first (1 to 4), then the offer (8, 9), the table of fallbacks (8, 31)
/// and the field (8, and 9 where a malformed element refuses it), then each tag in order (1 to 4; a
/// line without bytes is 1). Out of memory (26) may come before a later refusal.
pub fn pick<'a>(
    alloc: Global,
    offering: Offering<'_>,
    field: Field<'_>,
    default: Option<&[u8]>,
    tags: &'a [u8],
) -> Result<Picked<'a>, FrontFault>
    ensures { MatchResult result (IsPickedOffered (offers_of offering.entry)
        (field_text field.entry) (option_map (λ s. s.now) default.entry) (lines_of tags.now))
        (RefusesPickOffered (offers_of offering.entry) (field_text field.entry)
        (option_map (λ s. s.now) default.entry) (lines_of tags.now)) }
{
    let asked = Reader::read(alloc, offering, field, default)?;
    let offered = read_lines(alloc, asked.offer.offer(), tags)?;
    let Preferences {
        list,
        widening,
        default,
    } = &asked.preferences;
    let found = lookup_by(list, *widening, &offered.langs, default.as_ref());
    Ok(tag_at(&offered.names, found))
}

/// The tag at the place that is found.
fn tag_at<'a>(tags: &[&'a [u8]], found: Found) -> Picked<'a>
    requires { HasPlace (texts_of tags.now) found }
    ensures { IsTagAt (texts_of tags.now) found result }
{
    match found {
        Found::Matched(place) => Picked::Matched(tags[place]),
        Found::Default(place) => Picked::Default(tags[place]),
        Found::Nothing => Picked::Nothing,
    }
}
