//! Filtering several tags, one on a line.
ghost use Rattle.std.specs.Prelude.{◌≡◌, ◌<◌, ◌++◌, ◌∷◌, [], decimal, get_or, length, IfOk};
ghost use Rattle.std.specs.Prelude.{MatchResult};
ghost use Rattle.query_docs.specs.Lines.{line};
ghost use Rattle.front_core.specs.Preferences.{field_text};
ghost use Rattle.docs_core.specs.Lines.{lines_of};
ghost use Rattle.front_core.specs.Offering.{offers_of};
ghost use Rattle.front_core.specs.TagFilter.{IsOfferedFilter, RefusesOfferedFilter, ShowsTaken};
ghost use Rattle.front_core.specs.inner.TagFilter.{HaveNames, texts_of};

use crate::answer::{Answer, Outcome};
use crate::fault::FrontFault;
use crate::offering::Offering;
use crate::preferences::Field;
use crate::tags::read_lines;
use docs_core::Doc;
use itoa::Buffer;
use nego_core::{Picks, filter};
use std::alloc::{AllocError, Global};

/// All tags that are offered and that a field takes (RFC 4647 section 3.3), one on a line, best
/// first: `filter N`, then N lines `TAG WEIGHT`, with the tag as it was passed in and the weight in
/// thousandths.
///
/// By descending weight, then by the item's place in the field, the tag in lower case and its
/// place. A tag that is there twice is answered twice, and `@none` never. A line feed ends each
/// line of `tags`, and may be missing after the last.
///
/// Refused are the offer first (8, 9), then the field (8, and 9 where a malformed element refuses
/// it), then each tag in order (1 to 4; a line without bytes is 1). Out of memory (26) may come
/// before a later refusal.
pub fn filter_tags(
    alloc: Global,
    offering: Offering<'_>,
    field: Field<'_>,
    tags: &[u8],
) -> Result<Answer, FrontFault>
    ensures { MatchResult result (IsOfferedFilter (offers_of offering.entry)
        (field_text field.entry) (lines_of tags.now))
        (RefusesOfferedFilter (offers_of offering.entry) (field_text field.entry)
        (lines_of tags.now)) }
{
    let offer = offering.read(alloc)?;
    let list = field.read(alloc)?;
    let offered = read_lines(alloc, offer.offer(), tags)?;
    let picks = filter(alloc, &list, field.scheme, &offered.langs)?;
    Ok(taken(alloc, &picks, &offered.names)?)
}

/// The lines of what is picked, each by the name at its place.
pub(crate) fn taken(alloc: Global, picks: &Picks, names: &[&[u8]]) -> Result<Answer, AllocError>
    requires { HaveNames names.now picks.now }
    ensures { IfOk result (ShowsTaken (texts_of names.now) picks.now) }
{
    let mut text = with_line(Vec::new(alloc), b"filter", picks.len())?;
    for at in 0..picks.len() {
        if let Some(pick) = picks.nth(at) {
            let name = name_at(names, pick.place);
            text = with_line(text, name, usize::from(pick.weight))?;
        }
    }
    let outcome = Outcome::of(!picks.is_empty());
    Ok(Answer::new(Doc::from(text), outcome))
}

/// The name at a place.
fn name_at<'a>(names: &[&'a [u8]], place: usize) -> &'a [u8]
    requires { place < length names.now }
    ensures { result.now ≡ get_or (texts_of names.now) place [] }
{
    names[place]
}

/// The text, and after it a line of a word and a number.
fn with_line(mut text: Vec<u8>, word: &[u8], number: usize) -> Result<Vec<u8>, AllocError>
    ensures { IfOk result (λ longer. longer.items ≡ text.items ++ line
        (word.now ++ 32 ∷ decimal number)) }
{
    text.extend_from_slice(word)?;
    text.push(b' ')?;
    text.extend_from_slice(Buffer::new().format(number).as_bytes())?;
    text.push(b'\n')?;
    Ok(text)
}
