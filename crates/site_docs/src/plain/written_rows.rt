//! The rows of a site's document as it is written, read one after another.
ghost use Rattle.std.specs.Prelude.{◌≡◌, ◌<◌, ◌++◌, ◌∷◌, [], List, ℕ, IfSome, MatchOption};
ghost use Rattle.std.specs.Prelude.{Some, codes, length};
ghost use Rattle.serde_json.specs.Written.{compact_text};
ghost use Rattle.catalogue.specs.Entries.{Entries};
ghost use Rattle.row_docs.specs.Entries.{entry_value};
ghost use Rattle.row_docs.specs.Fields.{IsAfter};
ghost use Rattle.site_docs.specs.Plain.{IsEnd, last_members};
ghost use Rattle.site_docs.specs.PlainRows.{IsSpelled, key_in};
ghost use Rattle.site_docs.specs.Reading.{ReadsAsSite};
ghost use Rattle.site_docs.specs.WrittenRows.{HasRead, IsRead, IsRowText, current_of, entry_at};
ghost use Rattle.site_docs.specs.WrittenRows.{entry_of, left_in};

use crate::plain::documents::last_name;
use crate::plain::rows::{Spelled, next_front, row_end};
use crate::sink::LabelRef;
use cell_core::{MessageId, SiteName, Stamp};
use json_docs::text_in;
use lang_core::Lang;
use row_docs::Kind;
use row_docs::plain_texts::{after_byte, member_after};
use std::alloc::Global;

/// The rows of a site's document, read one after another, where the document is as it is written,
/// with its last line feed or without.
///
/// Each `None` says nothing of the document: it may be valid in another form, it may be refused, or
/// memory ran out.
#[derive(Drop)]
pub struct WrittenRows<'t> {
    /// The row that was read last; none after the last one.
    row: Option<ReadRow<'t>>,
    /// What comes after it.
    rest: &'t str,
}

/// A row that was read.
#[derive(Drop)]
struct ReadRow<'t> {
    spelled: Spelled<'t>,
    /// The stamp, which is asked for more than once.
    stamp: Stamp,
    label: LabelRef<'t>,
    text: &'t str,
}

/// A row of a document, and what it spells.
#[derive(Drop)]
pub struct WrittenRow<'a, 't> {
    /// The message.
    pub id: &'a MessageId,
    /// The language.
    pub lang: &'a Lang,
    /// The stamp.
    pub stamp: Stamp,
    /// The label.
    pub label: &'a LabelRef<'t>,
    /// The row, as it is written.
    pub text: &'t str,
}

impl<'t> WrittenRows<'t> {
    /// Those of the document, of which the first is read.
    pub fn new(alloc: Global, bytes: &'t [u8]) -> Option<WrittenRows<'t>>
        ensures { IfSome result (λ rows. HasRead bytes.now rows (current_of rows)) }
    {
        // (A document that another program wrote mostly ends in another form, too.)
        name_after_rows(bytes)?;
        let Ok(text) = text_in(bytes) else {
            return None;
        };
        let body = member_after(text, "{", "cells")?;
        let open = after_byte(body, b'[')?;
        if after_byte(open, b']').is_some() {
            return Some(WrittenRows {
                row: None,
                rest: open,
            });
        }
        let (row, rest) = ReadRow::new(alloc, open)?;
        Some(WrittenRows {
            row: Some(row),
            rest,
        })
    }

    /// The row that was read last; none where all were read.
    pub fn current(&self) -> Option<WrittenRow<'_, 't>>
        requires { (bytes : List ℕ) × (cells : Entries) × HasRead bytes self.now cells }
        ensures { MatchOption result (current_of self.now ≡ [])
            (λ row. (current_of self.now ≡ entry_of row ∷ []) × IsRowText row) }
    {
        match &self.row {
            Some(row) => Some(row.shown()),
            None => None,
        }
    }

    /// Reads the next row, if there is one.
    pub fn advance(&mut self, alloc: Global) -> Option<()>
        requires { (bytes : List ℕ) × (cells : Entries) × HasRead bytes self.old cells }
        ensures read { IfSome result (λ _. (bytes : List ℕ) (cells : Entries)
            → HasRead bytes self.old cells
            → HasRead bytes self.new (cells ++ current_of self.new)) }
        ensures fewer { IfSome result
            (λ _. 0 < length (current_of self.old) → left_in self.new < left_in self.old) }
    {
        let Some(text) = after_byte(self.rest, b',') else {
            self.row = None;
            return Some(());
        };
        match &mut self.row {
            Some(row) => {
                self.rest = row.follow(alloc, text)?;
                Some(())
            }
            None => None,
        }
    }

    /// The name of the site, where all rows were read.
    pub fn close(&self) -> Option<SiteName>
        ensures { IfSome result (λ name. (bytes : List ℕ) (cells : Entries)
            → HasRead bytes self.now cells
            → ReadsAsSite bytes (record { name = name; cells = cells })) }
    {
        let rest = after_byte(self.rest, b']')?;
        last_name(rest, Kind::Site)
    }
}

impl<'t> ReadRow<'t> {
    /// The row that the text begins with, which is the first, and what comes after it.
    fn new(alloc: Global, text: &'t str) -> Option<(ReadRow<'t>, &'t str)>
        ensures { IfSome result (λ r. IsRead r.0
            × (text.now ≡ compact_text (entry_value (entry_at r.0)) ++ r.1.now)) }
    {
        let (front, rest) = next_front(alloc, text, b',')?;
        let Ok(spelled) = Spelled::new(alloc, front) else {
            return None;
        };
        let (label, row, rest) = row_end(alloc, text, rest, &spelled)?;
        let stamp = spelled.stamp();
        let read = ReadRow {
            spelled,
            stamp,
            label,
            text: row,
        };
        Some((read, rest))
    }

    /// Becomes the row that the text begins with, where its key is greater, and answers what comes
    /// after it.
    fn follow(&mut self, alloc: Global, text: &'t str) -> Option<&'t str>
        requires { IsSpelled self.old.spelled }
        ensures { IfSome result (λ rest. IsRead self.new
            × IsAfter (Some (key_in self.old.spelled.front)) (entry_at self.new).0
            × (text.now ≡ compact_text (entry_value (entry_at self.new)) ++ rest.now)) }
    {
        let (front, rest) = next_front(alloc, text, b',')?;
        let Ok(()) = self.spelled.follow(alloc, front) else {
            return None;
        };
        let (label, row, rest) = row_end(alloc, text, rest, &self.spelled)?;
        self.stamp = self.spelled.stamp();
        self.label = label;
        self.text = row;
        Some(rest)
    }

    /// The row, for who compares and copies it.
    fn shown(&self) -> WrittenRow<'_, 't>
        requires { IsRead self.now }
        ensures entry { entry_of result ≡ entry_at self.now }
        ensures text { IsRowText result }
    {
        WrittenRow {
            id: &self.spelled.id,
            lang: self.spelled.languages.last(),
            stamp: self.stamp,
            label: &self.label,
            text: self.text,
        }
    }
}

/// The name in the members after the last bracket of a site's document, which ends its rows.
pub(crate) fn name_after_rows(bytes: &[u8]) -> Option<SiteName>
    ensures { IfSome result (λ name. (front end : List ℕ) × IsEnd end
        × (bytes.now ≡ front ++ last_members (codes "site") (codes "site") name end)) }
{
    let bracket = bytes.iter().rposition(|byte| *byte == b']')?;
    let Ok(members) = text_in(&bytes[bracket + 1..]) else {
        return None;
    };
    last_name(members, Kind::Site)
}
