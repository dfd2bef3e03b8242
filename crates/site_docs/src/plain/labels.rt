//! The labels of rows.
ghost use Rattle.std.specs.Prelude.{◌≡◌, ◌++◌, ◌∷◌, [], IfSome, IsTrue, string_bytes};
ghost use Rattle.json.specs.Print.{quoted};
ghost use Rattle.serde_json.specs.Written.{compact_text};
ghost use Rattle.cell_core.specs.Label.{IsLabel};
ghost use Rattle.row_docs.specs.Fields.{IsLabelText};
ghost use Rattle.row_docs.specs.EntriesValues.{label_value, texts_value};
ghost use Rattle.site_docs.specs.Sink.{IsLabelRef, texts_of};

use crate::sink::LabelRef;
use cell_core::Label;
use row_docs::plain_texts::{after, after_byte, escaped_text, text_after, text_before_quote};
use std::alloc::Global;

/// The most bytes of a text of a label.
const MAX_BYTES: usize = 65_535;

/// The most texts of a label.
const MAX_TEXTS: usize = 64;

/// The label that the text begins with, none for null, and what comes after it.
#[inline(always)]
pub(crate) fn next_label<'t>(alloc: Global, text: &'t str) -> Option<(LabelRef<'t>, &'t str)>
    ensures text { IfSome result
        (λ r. text.now ≡ compact_text (label_value (texts_of r.0)) ++ r.1.now) }
    ensures kept { IfSome result (λ r. IsLabelText (texts_of r.0)) }
    ensures label { IfSome result (λ r. IsLabelRef r.0) }
{
    match only_text(text) {
        Some((only, rest)) if is_short(only) => Some((LabelRef::Text(only), rest)),
        _ => other_label(alloc, text),
    }
}

/// The same of a label that is not one text without escapes: there is none, or it is made.
#[cold]
#[inline(never)]
fn other_label<'t>(alloc: Global, text: &'t str) -> Option<(LabelRef<'t>, &'t str)>
    ensures text { IfSome result
        (λ r. text.now ≡ compact_text (label_value (texts_of r.0)) ++ r.1.now) }
    ensures kept { IfSome result (λ r. IsLabelText (texts_of r.0)) }
    ensures label { IfSome result (λ r. IsLabelRef r.0) }
{
    if let Some(rest) = after(text, "null") {
        return Some((LabelRef::Deleted, rest));
    }
    let (label, rest) = written_label(alloc, text)?;
    Some((LabelRef::Made(label), rest))
}

/// Whether the text is no longer than one of a label may be.
fn is_short(text: &str) -> bool
    ensures { IsTrue result → IsLabel (text.now ∷ []) }
{
    text.len() <= MAX_BYTES
}

/// The text of an array of one text without escapes, and what comes after the array.
#[inline(always)]
fn only_text(text: &str) -> Option<(&str, &str)>
    ensures { IfSome result
        (λ r. text.now ≡ compact_text (texts_value (r.0.now ∷ [])) ++ r.1.now) }
{
    let open = after_byte(text, b'[')?;
    let rest = after_byte(open, b'"')?;
    text_before_quote(rest, b']')
}

/// The label whose array the text begins with, where its texts may have escapes.
fn written_label(alloc: Global, text: &str) -> Option<(Label, &str)>
    ensures text { IfSome result (λ r. text.now ≡ compact_text (texts_value r.0) ++ r.1.now) }
    ensures label { IfSome result (λ r. IsLabel r.0) }
{
    let (first, rest) = string_after(alloc, text, "[")?;
    match after(rest, "]") {
        Some(rest) => {
            let label = one_text(first)?;
            Some((label, rest))
        }
        None => several_texts(alloc, first, rest),
    }
}

/// The label of one text.
fn one_text(text: String) -> Option<Label>
    ensures { IfSome result (λ label. (label ≡ string_bytes text ∷ []) × IsLabel label) }
{
    match Label::from_text(text) {
        Ok(label) => Some(label),
        Err(_) => None,
    }
}

/// The label of the first text and those that the text begins with, up to and including the
/// bracket. Too many texts are left to the other reader, which counts them.
fn several_texts(alloc: Global, first: String, text: &str) -> Option<(Label, &str)>
    ensures text { IfSome result (λ r. 91 ∷ (quoted (string_bytes first) ++ text.now)
        ≡ compact_text (texts_value r.0) ++ r.1.now) }
    ensures label { IfSome result (λ r. IsLabel r.0) }
{
    let mut rest = text;
    let mut texts = Vec::new(alloc);
    match texts.push(first) {
        Ok(()) => {}
        Err(_) => return None,
    }
    while let Some((next, left)) = string_after(alloc, rest, ",") {
        if texts.len() == MAX_TEXTS {
            return None;
        }
        match texts.push(next) {
            Ok(()) => {}
            Err(_) => return None,
        }
        rest = left;
    }
    let rest = after(rest, "]")?;
    match Label::from_texts(texts) {
        Ok(label) => Some((label, rest)),
        Err(_) => None,
    }
}

/// A copy of the string after the literal, and what comes after it.
fn string_after<'t>(alloc: Global, text: &'t str, literal: &str) -> Option<(String, &'t str)>
    ensures { IfSome result
        (λ r. text.now ≡ literal.now ++ (quoted (string_bytes r.0) ++ r.1.now)) }
{
    match text_after(text, literal) {
        Some((plain, rest)) => {
            let copy = copy_of(alloc, plain)?;
            Some((copy, rest))
        }
        None => {
            let rest = after(text, literal)?;
            escaped_text(alloc, rest)
        }
    }
}

/// A copy of the text, where there is memory for it.
fn copy_of(alloc: Global, text: &str) -> Option<String>
    ensures { IfSome result (λ copy. string_bytes copy ≡ text.now) }
{
    match String::from_str(alloc, text) {
        Ok(copy) => Some(copy),
        Err(_) => None,
    }
}
