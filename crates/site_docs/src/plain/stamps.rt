//! Documents of summaries, and their rows.
ghost use Rattle.std.specs.Prelude.{◌≡◌, ◌++◌, ◌∷◌, [], IfSome, Some};
ghost use Rattle.serde_json.specs.Written.{compact_text};
ghost use Rattle.catalogue.specs.Entries.{IsAboveAll};
ghost use Rattle.row_docs.specs.Entries.{stamped_value};
ghost use Rattle.row_docs.specs.Fields.{IsAfter};
ghost use Rattle.row_docs.specs.EntriesValid.{AreKeptStamps, IsKeptStamp};
ghost use Rattle.site_docs.specs.PlainRows.{IsSpelled, key_in};
ghost use Rattle.site_docs.specs.inner.PlainRows.{IsLastOf, stamped_in};
ghost use Rattle.site_docs.specs.inner.PlainStamps.{stamps_text};
ghost use Rattle.site_docs.specs.Reading.{ReadsAsSummary};

use crate::plain::documents::is_version;
use crate::plain::rows::{Spelled, next_front};
use cata_core::Summary;
use cell_core::{Key, SiteName};
use json_docs::text_in;
use row_docs::plain_texts::{after, after_byte, after_text, member_after, text_after};
use std::alloc::Global;

/// The summary of a document, where the bytes are the text that is written for it, with its last
/// line feed or without.
///
/// `None` says nothing of the document: it may be valid in another form, it may be refused, or
/// memory ran out.
pub(crate) fn summary_of_plain(alloc: Global, bytes: &[u8]) -> Option<Summary>
    ensures { IfSome result (λ summary. ReadsAsSummary bytes.now summary) }
{
    let Ok(text) = text_in(bytes) else {
        return None;
    };
    let rest = member_after(text, "{", "kind")?;
    let rest = after_text(rest, "", "summary")?;
    let rest = member_after(rest, ",", "owner")?;
    let (owner, rest) = text_after(rest, "")?;
    let rest = member_after(rest, ",", "stamps")?;
    let (summary, rest) = next_stamps(alloc, rest)?;
    let rest = member_after(rest, ",", "version")?;
    if !is_version(rest) {
        return None;
    }
    match SiteName::new(owner) {
        Ok(owner) => Some(summary.with_owner(owner)),
        Err(_) => None,
    }
}

/// The keys and stamps of the array of rows that the text begins with, and what comes after it.
fn next_stamps(alloc: Global, text: &str) -> Option<(Summary, &str)>
    ensures text { IfSome result (λ r. text.now ≡ stamps_text r.0.stamps ++ r.1.now) }
    ensures kept { IfSome result (λ r. AreKeptStamps r.0.stamps) }
{
    match after(text, "[]") {
        Some(rest) => Some((Summary::new(alloc, SiteName::of_number(0)), rest)),
        None => some_stamps(alloc, text),
    }
}

/// The same of an array of one row or more.
fn some_stamps(alloc: Global, text: &str) -> Option<(Summary, &str)>
    ensures text { IfSome result (λ r. text.now ≡ stamps_text r.0.stamps ++ r.1.now) }
    ensures kept { IfSome result (λ r. AreKeptStamps r.0.stamps) }
{
    let rest = after(text, "[")?;
    let mut summary = Summary::new(alloc, SiteName::of_number(0));
    let (mut last, mut rest) = first_stamp(alloc, rest, &mut summary)?;
    while let Some(row) = after_byte(rest, b',') {
        let Some(left) = next_stamp(alloc, row, &mut last, &mut summary) else {
            return None;
        };
        rest = left;
    }
    let rest = after(rest, "]")?;
    Some((summary, rest))
}

/// Adds the key and the stamp of the first row.
fn first_stamp<'t>(
    alloc: Global,
    text: &'t str,
    summary: &mut Summary,
) -> Option<(Spelled<'t>, &'t str)>
    requires { summary.old.stamps ≡ [] }
    ensures { IfSome result (λ r. IsSpelled r.0
        × (text.now ≡ compact_text (stamped_value (stamped_in r.0.front)) ++ r.1.now)
        × (summary.new.stamps ≡ stamped_in r.0.front ∷ []) × IsKeptStamp (stamped_in r.0.front)) }
{
    let (front, rest) = next_front(alloc, text, b']')?;
    let Ok(spelled) = Spelled::new(alloc, front) else {
        return None;
    };
    push(alloc, summary, &spelled)?;
    Some((spelled, rest))
}

/// Adds the key and the stamp of the row after the last one, where its key is greater.
fn next_stamp<'t>(
    alloc: Global,
    text: &'t str,
    last: &mut Spelled<'t>,
    summary: &mut Summary,
) -> Option<&'t str>
    requires spelled { IsSpelled last.old }
    requires last { IsLastOf (Some (key_in last.old.front)) summary.old.stamps }
    ensures { IfSome result (λ rest. IsSpelled last.new
        × IsAfter (Some (key_in last.old.front)) (key_in last.new.front)
        × (text.now ≡ compact_text (stamped_value (stamped_in last.new.front)) ++ rest.now)
        × (summary.new.stamps ≡ summary.old.stamps ++ stamped_in last.new.front ∷ [])
        × IsKeptStamp (stamped_in last.new.front)) }
{
    let (front, rest) = next_front(alloc, text, b']')?;
    let Ok(()) = last.follow(alloc, front) else {
        return None;
    };
    push(alloc, summary, last)?;
    Some(rest)
}

/// Appends the key and the stamp of the row.
fn push(alloc: Global, summary: &mut Summary, row: &Spelled<'_>) -> Option<()>
    requires spelled { IsSpelled row.now }
    requires above { IsAboveAll (key_in row.now.front) summary.old.stamps }
    ensures pushed { IfSome result
        (λ _. summary.new.stamps ≡ summary.old.stamps ++ stamped_in row.now.front ∷ []) }
    ensures kept { IfSome result (λ _. IsKeptStamp (stamped_in row.now.front)) }
{
    let Ok(id) = row.id.copy(alloc) else {
        return None;
    };
    let Ok(lang) = row.languages.last().copy(alloc) else {
        return None;
    };
    match summary.push(id, lang, row.stamp()) {
        Ok(()) => Some(()),
        Err(_) => None,
    }
}
