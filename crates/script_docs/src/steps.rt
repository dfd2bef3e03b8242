//! The shapes of the steps of a script.
ghost use Rattle.std.specs.Prelude.{◌≡◌, ℕ, IfSome, map, option_map};
ghost use Rattle.json.specs.Value.{value_view};
ghost use Rattle.json_docs.specs.ScanningReads.{AreRead, IsRead, seen};
ghost use Rattle.script_docs.specs.Steps.{StepText, default_in, edit_of, filter_of, lookup_of};
ghost use Rattle.script_docs.specs.Steps.{one_of, scheme_of, step_after, step_in, two_of, word_of};
ghost use Rattle.script_docs.specs.inner.StepsSeen.{HasTexts, text_of};

use json::Value;
use json_docs::{items_of, text_of, u32_of};
use nego_core::Scheme;
use row_docs::{CellRow, Version, cell_of};

/// The word that a step begins with. Definitions that other crates cite name it, so it is `pub`.
#[derive(Clone, Copy, Debug)]
pub enum Word {
    Edit,
    Merge,
    Filter,
    Lookup,
    Cells,
    Tell,
    Post,
    Deliver,
}

/// A step, with its texts as they are written.
#[derive(Clone, Copy)]
pub(crate) enum StepRow<'v, 't> {
    Edit {
        site: u32,
        cell: CellRow<'v, 't>,
    },
    Merge {
        into: u32,
        source: u32,
    },
    Filter {
        site: u32,
        id: &'t str,
        scheme: Scheme,
        field: &'t str,
    },
    Lookup {
        site: u32,
        id: &'t str,
        field: &'t str,
        default: Option<&'t str>,
    },
    Cells {
        site: u32,
    },
    Tell {
        site: u32,
    },
    Post {
        site: u32,
        told: u32,
    },
    Deliver {
        post: u32,
    },
}

/// The step, where the value has its shape.
pub(crate) fn step_of<'v, 't>(version: Version, value: &'v Value<'t>) -> Option<StepRow<'v, 't>>
    requires { IsRead (value_view value.now) }
    ensures step { option_map text_of result ≡ step_in version (seen value.now) }
    ensures texts { IfSome result HasTexts }
{
    let [word, parts @ ..] = items_of(value)? else {
        return None;
    };
    let word = word_of(text_of(word)?)?;
    step_after(version, word, parts)
}

/// What the word says of the parts after it.
fn step_after<'v, 't>(
    version: Version,
    word: Word,
    parts: &'v [Value<'t>],
) -> Option<StepRow<'v, 't>>
    requires { AreRead parts.now }
    ensures step { option_map text_of result ≡ step_after version word (map seen parts.now) }
    ensures texts { IfSome result HasTexts }
{
    match word {
        Word::Edit => edit_of(version, parts),
        Word::Filter => filter_of(parts),
        Word::Lookup => lookup_of(parts),
        Word::Merge => {
            let (into, source) = two_of(parts)?;
            Some(StepRow::Merge { into, source })
        }
        Word::Post => {
            let (site, told) = two_of(parts)?;
            Some(StepRow::Post { site, told })
        }
        Word::Cells => {
            let site = one_of(parts)?;
            Some(StepRow::Cells { site })
        }
        Word::Tell => {
            let site = one_of(parts)?;
            Some(StepRow::Tell { site })
        }
        Word::Deliver => {
            let post = one_of(parts)?;
            Some(StepRow::Deliver { post })
        }
    }
}

/// The edit of these parts, where they have its shape.
fn edit_of<'v, 't>(version: Version, parts: &'v [Value<'t>]) -> Option<StepRow<'v, 't>>
    requires { AreRead parts.now }
    ensures step { option_map text_of result ≡ edit_of version (map seen parts.now) }
    ensures texts { IfSome result HasTexts }
{
    let [site, cell] = parts else {
        return None;
    };
    let site = u32_of(site)?;
    let cell = cell_of(version, cell)?;
    Some(StepRow::Edit { site, cell })
}

/// The filter of these parts, where they have its shape.
fn filter_of<'v, 't>(parts: &'v [Value<'t>]) -> Option<StepRow<'v, 't>>
    ensures step { option_map text_of result ≡ filter_of (map seen parts.now) }
    ensures texts { IfSome result HasTexts }
{
    let [site, id, scheme, field] = parts else {
        return None;
    };
    Some(StepRow::Filter {
        site: u32_of(site)?,
        id: text_of(id)?,
        scheme: scheme_of(text_of(scheme)?)?,
        field: text_of(field)?,
    })
}

/// The lookup of these parts, where they have its shape.
fn lookup_of<'v, 't>(parts: &'v [Value<'t>]) -> Option<StepRow<'v, 't>>
    requires { AreRead parts.now }
    ensures step { option_map text_of result ≡ lookup_of (map seen parts.now) }
    ensures texts { IfSome result HasTexts }
{
    let [site, id, field, default] = parts else {
        return None;
    };
    Some(StepRow::Lookup {
        site: u32_of(site)?,
        id: text_of(id)?,
        field: text_of(field)?,
        default: default_of(default)?,
    })
}

/// The text of a default; none for null.
fn default_of<'t>(value: &Value<'t>) -> Option<Option<&'t str>>
    requires { IsRead (value_view value.now) }
    ensures { option_map (λ o. option_map (λ s. s.now) o) result ≡ default_in (seen value.now) }
{
    if value.is_null() {
        return Some(None);
    }
    let text = text_of(value)?;
    Some(Some(text))
}

/// The number, where it is the only part.
fn one_of(parts: &[Value<'_>]) -> Option<u32>
    ensures { (step : ℕ → StepText) → option_map step result ≡ one_of step (map seen parts.now) }
{
    let [number] = parts else {
        return None;
    };
    u32_of(number)
}

/// The two numbers, where they are the only parts.
fn two_of(parts: &[Value<'_>]) -> Option<(u32, u32)>
    ensures { (step : ℕ → ℕ → StepText)
        → option_map (λ p. step p.0 p.1) result ≡ two_of step (map seen parts.now) }
{
    let [first, second] = parts else {
        return None;
    };
    Some((u32_of(first)?, u32_of(second)?))
}

/// The word that the text is, where it is one.
fn word_of(text: &str) -> Option<Word>
    ensures { result ≡ word_of text.now }
{
    if text == "edit" {
        Some(Word::Edit)
    } else if text == "merge" {
        Some(Word::Merge)
    } else if text == "filter" {
        Some(Word::Filter)
    } else if text == "lookup" {
        Some(Word::Lookup)
    } else if text == "cells" {
        Some(Word::Cells)
    } else if text == "tell" {
        Some(Word::Tell)
    } else if text == "post" {
        Some(Word::Post)
    } else if text == "deliver" {
        Some(Word::Deliver)
    } else {
        None
    }
}

/// The scheme that the text names, where it names one.
fn scheme_of(text: &str) -> Option<Scheme>
    ensures { result ≡ scheme_of text.now }
{
    if text == "basic" {
        Some(Scheme::Basic)
    } else if text == "extended" {
        Some(Scheme::Extended)
    } else {
        None
    }
}
