//! Picking and filtering languages among the arguments of a command (RFC 4647, sections 3.3, 3.4).
ghost use Rattle.std.specs.Prelude.{◌≡◌, [], map, option_map, string_bytes, IfOk, MatchResult};
ghost use Rattle.std.specs.Prelude.{None};
ghost use Rattle.front_core.specs.Preferences.{FieldText, field_text};
ghost use Rattle.front_core.specs.TagPick.{AnswersPick, Finds, IsPicked, IsPickLine, RefusesPick};
ghost use Rattle.front_core.specs.TagPick.{pick_line, pick_outcome};
ghost use Rattle.front_core.specs.TagFilter.{IsLangFilter, RefusesTagFilter};
ghost use Rattle.front_core.specs.inner.TagFilter.{texts_of};

use crate::answer::{Answer, Outcome};
use crate::fault::FrontFault;
use crate::preferences::{Field, Preferences};
use crate::tag_filter::taken;
use crate::tags::read_words;
use docs_core::Doc;
use lang_core::Lang;
use nego_core::{Found, Malformed, Scheme, Widening, filter, lookup_by};
use std::alloc::{AllocError, Global};
use std::convert::AsStr;

/// The pick line of RANGES, read as an Accept-Language field (RFC 9110 section 12.5.4), over the
/// tags: `pick_scheme` at the basic scheme.
pub fn pick(alloc: Global, ranges: &str, tags: &[String]) -> Result<Doc, FrontFault>
    ensures { let field : FieldText =
        record {
          scheme = Scheme.Basic;
          malformed = Malformed.Refused;
          widening = Widening.Off;
          fallbacks = [];
          text = ranges.now;
        } in
        MatchResult result (IsPickLine field None (map string_bytes tags.now))
        (RefusesPick field None (map string_bytes tags.now)) }
{
    pick_scheme(alloc, Scheme::Basic, ranges, tags)
}

/// The pick line of RANGES, read under a scheme: `pick_with` where a malformed element refuses
/// them, and without a default.
pub fn pick_scheme(
    alloc: Global,
    scheme: Scheme,
    ranges: &str,
    tags: &[String],
) -> Result<Doc, FrontFault>
    ensures { let field : FieldText =
        record {
          scheme = scheme;
          malformed = Malformed.Refused;
          widening = Widening.Off;
          fallbacks = [];
          text = ranges.now;
        } in
        MatchResult result (IsPickLine field None (map string_bytes tags.now))
        (RefusesPick field None (map string_bytes tags.now)) }
{
    pick_with(alloc, scheme, Malformed::Refused, None, ranges, tags)
}

/// The pick line of RANGES over the tags, and LF: `matched TAG`, where TAG is what lookup finds
/// among the tags; else `default LANG`, where the default is among the tags and RANGES do not
/// refuse it; else `nothing`. TAG and LANG are in lower case. `@none` is a tag that is never found,
/// but it may be the default.
///
/// Refused are the default first (1 to 4), then RANGES (8, and 9 where a malformed element refuses
/// them), then each tag in order (1 to 4). Out of memory (26) may come before a later refusal.
pub fn pick_with(
    alloc: Global,
    scheme: Scheme,
    malformed: Malformed,
    default: Option<&str>,
    ranges: &str,
    tags: &[String],
) -> Result<Doc, FrontFault>
    ensures { let field : FieldText =
        record {
          scheme = scheme;
          malformed = malformed;
          widening = Widening.Off;
          fallbacks = [];
          text = ranges.now;
        } in
        MatchResult result (IsPickLine field (option_map (λ s. s.now) default.entry)
        (map string_bytes tags.now))
        (RefusesPick field (option_map (λ s. s.now) default.entry) (map string_bytes tags.now)) }
{
    let field = Field {
        scheme,
        malformed,
        widening: Widening::Off,
        fallbacks: &[],
        text: ranges.as_bytes(),
    };
    let answer = pick_answer(alloc, field, bytes_of(default), tags)?;
    Ok(answer.text)
}

/// The pick line of a field over the tags, by lookup or widened lookup as the field says, and
/// whether it names a tag or the default. Refused as [`pick_with`] is.
pub fn pick_answer<S: AsStr>(
    alloc: Global,
    field: Field<'_>,
    default: Option<&[u8]>,
    tags: &[S],
) -> Result<Answer, FrontFault>
    ensures { MatchResult result (AnswersPick (field_text field.entry)
        (option_map (λ s. s.now) default.entry) (map S.text tags.now))
        (RefusesPick (field_text field.entry) (option_map (λ s. s.now) default.entry)
        (map S.text tags.now)) }
{
    let found = find(alloc, field, default, tags)?;
    let text = line_of(alloc, &found)?;
    Ok(Answer::new(text, outcome_of(&found)))
}

/// All tags that a field takes (RFC 4647 section 3.3), best first: `filter N`, then N lines `TAG
/// WEIGHT`, with the tag in lower case and the weight in thousandths, and whether there is one.
/// They are ordered as [`filter_tags`](crate::filter_tags) orders them.
///
/// Refused are the field first (8, and 9 where a malformed element refuses it), then each tag in
/// order (1 to 4). Out of memory (26) may come before a later refusal.
pub fn filter_answer<S: AsStr>(
    alloc: Global,
    field: Field<'_>,
    tags: &[S],
) -> Result<Answer, FrontFault>
    ensures { MatchResult result (IsLangFilter (field_text field.entry) (map S.text tags.now))
        (RefusesTagFilter (field_text field.entry) (map S.text tags.now)) }
{
    let list = field.read(alloc)?;
    let spelled = read_words(alloc, tags)?;
    let picks = filter(alloc, &list, field.scheme, &spelled)?;
    let names = names_of(alloc, &spelled)?;
    Ok(taken(alloc, &picks, &names)?)
}

/// What a pick finds.
#[derive(Drop)]
pub(crate) enum Finding {
    /// The tag that lookup finds.
    Matched(Lang),
    /// The default, where lookup finds none of the tags.
    Default(Lang),
    /// No tag, and no default that may be answered.
    Nothing,
}

/// The texts of languages.
fn names_of(alloc: Global, langs: &[Lang]) -> Result<Vec<&[u8]>, AllocError>
    ensures { IfOk result (λ names. texts_of names.items ≡ langs.now) }
{
    let mut names = Vec::with_capacity(alloc, langs.len())?;
    for lang in langs {
        names.push(lang.as_str().as_bytes())?;
    }
    Ok(names)
}

/// What a field finds among the tags.
fn find<S: AsStr>(
    alloc: Global,
    field: Field<'_>,
    default: Option<&[u8]>,
    tags: &[S],
) -> Result<Finding, FrontFault>
    ensures { MatchResult result (IsPicked (field_text field.entry)
        (option_map (λ s. s.now) default.entry) (map S.text tags.now))
        (RefusesPick (field_text field.entry) (option_map (λ s. s.now) default.entry)
        (map S.text tags.now)) }
{
    let asked = Preferences::read(alloc, field, default)?;
    let langs = read_words(alloc, tags)?;
    Ok(finding_of(&asked, langs))
}

/// What lookup finds among the languages.
fn finding_of(asked: &Preferences, mut langs: Vec<Lang>) -> Finding
    ensures { Finds asked.now.widening asked.now.list langs.items asked.now.default result }
{
    match lookup_by(
        &asked.list,
        asked.widening,
        langs.as_slice(),
        asked.default.as_ref(),
    ) {
        Found::Matched(place) => Finding::Matched(langs.swap_remove(place)),
        Found::Default(place) => Finding::Default(langs.swap_remove(place)),
        Found::Nothing => Finding::Nothing,
    }
}

/// The pick line.
fn line_of(alloc: Global, found: &Finding) -> Result<Doc, AllocError>
    ensures { IfOk result (λ line. line ≡ pick_line found.now) }
{
    let line = match found {
        Finding::Matched(lang) => format!(in alloc; "matched {}\n", lang.as_str())?,
        Finding::Default(lang) => format!(in alloc; "default {}\n", lang.as_str())?,
        Finding::Nothing => String::from_str(alloc, "nothing\n")?,
    };
    Ok(Doc::from(line))
}

/// Whether a tag is found, or the default.
fn outcome_of(found: &Finding) -> Outcome
    ensures { result ≡ pick_outcome found.now }
{
    match found {
        Finding::Matched(_) | Finding::Default(_) => Outcome::Found,
        Finding::Nothing => Outcome::Nothing,
    }
}

/// The bytes of an argument, where there is one.
fn bytes_of(word: Option<&str>) -> Option<&[u8]>
    ensures { option_map (λ s. s.now) result ≡ option_map (λ s. s.now) word.entry }
{
    match word {
        None => None,
        Some(word) => Some(word.as_bytes()),
    }
}
