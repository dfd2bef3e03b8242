//! Keys of language maps before and after an editor worked on them.
ghost use Rattle.std.specs.Prelude.{◌≡◌, ◌+◌, ◌∷◌, ◌<◌, [], IfSome, MatchOption, None, Some, cond};
ghost use Rattle.std.specs.Prelude.{length, option_map};
ghost use Rattle.std.specs.Bool.{Decides};
ghost use Rattle.cell_core.specs.Keyed.{IsMap};
ghost use Rattle.cell_core.specs.Entry.{key_cmp};
ghost use Rattle.site_docs.specs.Sink.{texts_of};
ghost use Rattle.docs_core.specs.inner.Revised.{IsFirstRevised, key_of, new_of, old_of};
ghost use Rattle.docs_core.specs.Updating.{IsChangeAt};

use cell_core::{Entry, Label};
use site_docs::LabelRef;
use std::cmp::Ordering;

/// A key of language maps, with its label before an editor worked on them, and as it is now.
#[derive(Drop)]
pub(crate) struct Revised<'a> {
    pub(crate) key: &'a Entry<Label>,
    pub(crate) old: Option<&'a Label>,
    pub(crate) new: Option<&'a Label>,
}

/// The least key of both lists, and what is left of them.
pub(crate) fn first_revised<'a>(
    old: &'a [Entry<Label>],
    new: &'a [Entry<Label>],
) -> Option<(Revised<'a>, &'a [Entry<Label>], &'a [Entry<Label>])>
    requires old { IsMap key_cmp old.now }
    requires new { IsMap key_cmp new.now }
    ensures first { MatchOption result ((old.now ≡ []) × (new.now ≡ []))
        (λ r. IsFirstRevised r.0 old.now new.now r.1.now r.2.now) }
    ensures less { IfSome result
        (λ r. length r.1.now + length r.2.now < length old.now + length new.now) }
{
    match (old.split_first(), new.split_first()) {
        (None, None) => None,
        (Some((left, olds)), None) => Some((removed(left), olds, new)),
        (None, Some((right, news))) => Some((added(right), old, news)),
        (Some((left, olds)), Some((right, news))) => Some(
            match left.compare(right.id(), right.lang()) {
                Ordering::Less => (removed(left), olds, new),
                Ordering::Greater => (added(right), old, news),
                Ordering::Equal => (kept(left, right), olds, news),
            },
        ),
    }
}

/// Whether the label of a key was changed, and to another than the site has.
pub(crate) fn is_change(held: &LabelRef<'_>, revised: &Revised<'_>) -> bool
    ensures { IsChangeAt (old_of revised.now) (new_of revised.now) (texts_of held.now)
        (cond result (Some (new_of revised.now)) None) }
{
    !are_equal(revised.old, revised.new) && !is_label(held, revised.new)
}

/// A label that was there alone.
fn removed(was: &Entry<Label>) -> Revised<'_>
    ensures key { key_of result ≡ was.now.0 }
    ensures old { old_of result ≡ Some was.now.1 }
    ensures new { new_of result ≡ None }
{
    Revised {
        key: was,
        old: Some(was.value()),
        new: None,
    }
}

/// A label that is there alone.
fn added(is: &Entry<Label>) -> Revised<'_>
    ensures key { key_of result ≡ is.now.0 }
    ensures old { old_of result ≡ None }
    ensures new { new_of result ≡ Some is.now.1 }
{
    Revised {
        key: is,
        old: None,
        new: Some(is.value()),
    }
}

/// A label that was there and is there.
fn kept<'a>(was: &'a Entry<Label>, is: &'a Entry<Label>) -> Revised<'a>
    ensures key { key_of result ≡ was.now.0 }
    ensures old { old_of result ≡ Some was.now.1 }
    ensures new { new_of result ≡ Some is.now.1 }
{
    Revised {
        key: was,
        old: Some(was.value()),
        new: Some(is.value()),
    }
}

/// Whether a label is this one, without making one.
fn is_label(held: &LabelRef<'_>, label: Option<&Label>) -> bool
    ensures { Decides result (texts_of held.now ≡ option_map (λ l. l.now) label.entry) }
{
    match held {
        LabelRef::Deleted => are_equal(None, label),
        LabelRef::Text(text) => is_text(text, label),
        LabelRef::Held(held) => are_equal(Some(held), label),
        LabelRef::Made(held) => are_equal(Some(held), label),
    }
}

/// Whether a label has this text alone.
fn is_text(text: &str, label: Option<&Label>) -> bool
    ensures { Decides result
        (Some (text.now ∷ []) ≡ option_map (λ l. l.now) label.entry) }
{
    let Some(label) = label else {
        return false;
    };
    match label.texts() {
        [only] => only.as_str() == text,
        _ => false,
    }
}

/// Whether both have the same texts, or neither is there.
fn are_equal(label: Option<&Label>, other: Option<&Label>) -> bool
    ensures { Decides result (option_map (λ l. l.now) label.entry ≡ option_map
        (λ l. l.now) other.entry) }
{
    label == other
}
