//! The rows of sites and deltas.
ghost use Rattle.std.specs.Prelude.{◌≡◌, ◌↔◌, ◌++◌, ◌∷◌, [], List, ℕ, IfSome, IsTrue, Option};
ghost use Rattle.std.specs.Prelude.{IfErr, IfOk, MatchResult, OnOk, Some, length, string_bytes};
ghost use Rattle.std.specs.Prelude.{take};
ghost use Rattle.std.specs.Ordering.{ordering_then};
ghost use Rattle.std.specs.declared.cmp.Ordering.TheVariants.{Less};
ghost use Rattle.json.specs.Print.{quoted};
ghost use Rattle.serde_json.specs.Written.{compact_text};
ghost use Rattle.cell_core.specs.MessageId.{IsMessageId};
ghost use Rattle.cell_core.specs.SiteName.{IsSiteName};
ghost use Rattle.cell_core.specs.Entry.{text_cmp};
ghost use Rattle.catalogue.specs.Entries.{Entries, Entry, IsAboveAll};
ghost use Rattle.row_docs.specs.Entries.{entry_value};
ghost use Rattle.row_docs.specs.Fields.{IsAfter, IsLabelText, stamp_of};
ghost use Rattle.row_docs.specs.EntriesValid.{AreKeptCells, IsKeptCell};
ghost use Rattle.row_docs.specs.EntriesValues.{stamp_value};
ghost use Rattle.site_docs.specs.inner.Plain.{rows_text};
ghost use Rattle.site_docs.specs.PlainRows.{IsSpelled, entry_in, key_in, row_in, text_in};
ghost use Rattle.site_docs.specs.inner.PlainRows.{IsLastOf, row_until, row_before};
ghost use Rattle.site_docs.specs.Sink.{IsLabelRef, IsRowOf, entry_of, texts_of};
ghost use Rattle.site_docs.specs.inner.Unread.{RefusesSpelling};

use crate::plain::labels::next_label;
use crate::plain::languages::KnownLanguages;
use crate::plain::unread::Unread;
use crate::sink::{CellRef, CellSink, LabelRef, RowText};
use cell_core::{CellFault, Key, MessageId, SiteName, Stamp};
use row_docs::plain_texts::{after, after_byte, escaped_text, number_before, text_before_quote};
use std::alloc::Global;
use std::cmp::Ordering;

/// What a row has before its label, as it is written.
#[derive(Drop)]
pub(crate) struct Front<'t> {
    /// The id of the message.
    id: IdText<'t>,
    /// The language.
    language: &'t str,
    /// The time of the stamp.
    time: u64,
    /// The site of the stamp.
    site: &'t str,
    /// The count of the stamp.
    count: u32,
}

/// The text of an id.
#[derive(Drop)]
pub(crate) enum IdText<'t> {
    /// As it is in the document.
    Plain(&'t str),
    /// Of an id with escapes, without them.
    Unescaped(String),
}

/// A row without its label, and what its texts spell.
#[derive(Drop)]
pub(crate) struct Spelled<'t> {
    /// The row, as it is written.
    front: Front<'t>,
    /// The message.
    pub(crate) id: MessageId,
    /// The language, and those of the rows before.
    pub(crate) languages: KnownLanguages,
    /// The site of the stamp.
    site: SiteName,
}

/// Shows the cells of the array of rows that the text begins with to the sink, and answers what
/// comes after it. The keys ascend.
pub(crate) fn next_cells<'t, S: CellSink<'t>>(
    alloc: Global,
    text: &'t str,
    sink: &mut S,
) -> Option<&'t str>
    requires { (first : S) × S.Holds first sink.old [] }
    ensures { IfSome result (λ rest. (cells : Entries) × (text.now ≡ rows_text cells ++ rest.now)
        × AreKeptCells cells
        × ((first : S) → S.Holds first sink.old [] → S.Holds first sink.new cells)) }
{
    match after(text, "[]") {
        Some(rest) => Some(rest),
        None => some_cells(alloc, text, sink),
    }
}

/// Shows the cells of the array of one row or more to the sink, and answers what comes after it.
fn some_cells<'t, S: CellSink<'t>>(alloc: Global, text: &'t str, sink: &mut S) -> Option<&'t str>
    requires { (first : S) × S.Holds first sink.old [] }
    ensures { IfSome result (λ rest. (cells : Entries) × (text.now ≡ rows_text cells ++ rest.now)
        × AreKeptCells cells
        × ((first : S) → S.Holds first sink.old [] → S.Holds first sink.new cells)) }
{
    let rest = after(text, "[")?;
    let (mut last, mut rest) = first_cell(alloc, rest, sink)?;
    while let Some(row) = after_byte(rest, b',') {
        let Some(left) = next_cell(alloc, row, &mut last, sink) else {
            return None;
        };
        rest = left;
    }
    let rest = after(rest, "]")?;
    Some(rest)
}

/// Shows the cell of the first row to the sink.
fn first_cell<'t, S: CellSink<'t>>(
    alloc: Global,
    text: &'t str,
    sink: &mut S,
) -> Option<(Spelled<'t>, &'t str)>
    requires { (first : S) × S.Holds first sink.old [] }
    ensures { IfSome result (λ r. (e : Entry) × (e.0 ≡ key_in r.0.front) × IsKeptCell e
        × IsSpelled r.0 × (text.now ≡ compact_text (entry_value e) ++ r.1.now)
        × ((first : S) → S.Holds first sink.old [] → S.Holds first sink.new (e ∷ []))) }
{
    let (front, rest) = next_front(alloc, text, b',')?;
    let Ok(spelled) = Spelled::new(alloc, front) else {
        return None;
    };
    let rest = show_cell(alloc, text, rest, &spelled, sink)?;
    Some((spelled, rest))
}

/// Shows the cell of the row after the last one to the sink, where its key is greater.
fn next_cell<'t, S: CellSink<'t>>(
    alloc: Global,
    text: &'t str,
    last: &mut Spelled<'t>,
    sink: &mut S,
) -> Option<&'t str>
    requires spelled { IsSpelled last.old }
    requires holds { (first : S) × (before : Entries) × S.Holds first sink.old before
        × IsLastOf (Some (key_in last.old.front)) before }
    ensures { IfSome result (λ rest. (e : Entry) × (e.0 ≡ key_in last.new.front) × IsKeptCell e
        × IsSpelled last.new × IsAfter (Some (key_in last.old.front)) e.0
        × (text.now ≡ compact_text (entry_value e) ++ rest.now)
        × ((first : S) → (before : Entries) → S.Holds first sink.old before
        → IsAboveAll e.0 before → S.Holds first sink.new (before ++ e ∷ []))) }
{
    let (front, rest) = next_front(alloc, text, b',')?;
    let Ok(()) = last.follow(alloc, front) else {
        return None;
    };
    let rest = show_cell(alloc, text, rest, last, sink)?;
    Some(rest)
}

/// Shows the cell of the row that the text begins with to the sink, and answers what comes after
/// it. The row is read as far as its label, with which the rest begins.
#[inline(always)]
fn show_cell<'t, S: CellSink<'t>>(
    alloc: Global,
    text: &'t str,
    rest: &'t str,
    row: &Spelled<'t>,
    sink: &mut S,
) -> Option<&'t str>
    requires spelled { IsSpelled row.now }
    requires text { text.now ≡ row_before (row_in row.now.front) rest.now }
    requires holds { (first : S) × (before : Entries) × S.Holds first sink.old before
        × IsAboveAll (key_in row.now.front) before }
    ensures { IfSome result (λ after. (label : Option (List (List ℕ)))
        × IsKeptCell (entry_in row.now.front label)
        × (text.now ≡ compact_text (entry_value (entry_in row.now.front label)) ++ after.now)
        × ((first : S) → (before : Entries) → S.Holds first sink.old before
        → IsAboveAll (key_in row.now.front) before
        → S.Holds first sink.new (before ++ entry_in row.now.front label ∷ []))) }
{
    let front = length_before_comma(text, rest);
    let (label, written, left) = row_end(alloc, text, rest, row)?;
    let written = RowText {
        text: written,
        front,
    };
    let cell = row.cell(label, written);
    match sink.see(alloc, cell) {
        Ok(()) => Some(left),
        Err(_) => None,
    }
}

/// The label of this row, with which the text begins, the row as it is written, and what comes
/// after it. The row is read as far as its label, with which the rest begins.
#[inline(always)]
pub(crate) fn row_end<'t>(
    alloc: Global,
    text: &'t str,
    rest: &'t str,
    row: &Spelled<'t>,
) -> Option<(LabelRef<'t>, &'t str, &'t str)>
    requires { text.now ≡ row_before (row_in row.now.front) rest.now }
    ensures label { IfSome result (λ r. IsLabelRef r.0 × IsLabelText (texts_of r.0)) }
    ensures text { IfSome result
        (λ r. (r.1.now ≡ compact_text (entry_value (entry_in row.now.front (texts_of r.0))))
        × (text.now
        ≡ compact_text (entry_value (entry_in row.now.front (texts_of r.0))) ++ r.2.now)) }
{
    let (label, bracket) = next_label(alloc, rest)?;
    let left = after_byte(bracket, b']')?;
    let written = text_until(text, left);
    Some((label, written, left))
}

/// How many bytes the text has before the comma and the rest with which it ends.
#[inline(always)]
fn length_before_comma(text: &str, rest: &str) -> usize
    requires { (front : List ℕ) × (text.now ≡ front ++ 44 ∷ rest.now) }
    ensures { (front : List ℕ) → text.now ≡ front ++ 44 ∷ rest.now → result ≡ length front }
{
    text.len() - rest.len() - 1
}

/// What the text has before the rest with which it ends.
#[inline(always)]
fn text_until<'t>(text: &'t str, rest: &str) -> &'t str
    requires { (front : List ℕ) × (text.now ≡ front ++ rest.now) }
    ensures { (front : List ℕ) → text.now ≡ front ++ rest.now → result.now ≡ front }
{
    &text[..text.len() - rest.len()]
}

/// What a row begins with, up to its count and this byte after that.
#[inline(always)]
pub(crate) fn next_front<'t>(alloc: Global, text: &'t str, end: u8) -> Option<(Front<'t>, &'t str)>
    ensures { IfSome result (λ r. text.now ≡ row_until end (row_in r.0) r.1.now) }
{
    let (id, rest) = next_id(alloc, text)?;
    let (language, rest) = text_before_quote(rest, b',')?;
    let (time, rest) = number_before(rest, b',')?;
    let rest = after_byte(rest, b'"')?;
    let (site, rest) = text_before_quote(rest, b',')?;
    let (count, rest) = number_before(rest, end)?;
    let Ok(count) = u32::try_from(count) else {
        return None;
    };
    let front = Front {
        id,
        language,
        time,
        site,
        count,
    };
    Some((front, rest))
}

/// The id that a row begins with, and what comes after the first quote of its language.
#[inline(always)]
fn next_id<'t>(alloc: Global, text: &'t str) -> Option<(IdText<'t>, &'t str)>
    ensures { IfSome result
        (λ r. text.now ≡ 91 ∷ (quoted (text_in r.0) ++ 44 ∷ 34 ∷ r.1.now)) }
{
    match plain_id(text) {
        Some((id, rest)) => Some((IdText::Plain(id), rest)),
        None => escaped_id(alloc, text),
    }
}

/// The same of an id without escapes.
#[inline(always)]
fn plain_id(text: &str) -> Option<(&str, &str)>
    ensures { IfSome result
        (λ r. text.now ≡ 91 ∷ (quoted r.0.now ++ 44 ∷ 34 ∷ r.1.now)) }
{
    let open = after_byte(text, b'[')?;
    let rest = after_byte(open, b'"')?;
    let (id, comma) = text_before_quote(rest, b',')?;
    let left = after_byte(comma, b'"')?;
    Some((id, left))
}

/// The same of an id that may have escapes.
#[cold]
#[inline(never)]
fn escaped_id<'t>(alloc: Global, text: &'t str) -> Option<(IdText<'t>, &'t str)>
    ensures { IfSome result
        (λ r. text.now ≡ 91 ∷ (quoted (text_in r.0) ++ 44 ∷ 34 ∷ r.1.now)) }
{
    let rest = after(text, "[")?;
    let (id, rest) = escaped_text(alloc, rest)?;
    let rest = after(rest, ",\"")?;
    Some((IdText::Unescaped(id), rest))
}

impl IdText<'_> {
    /// The text itself.
    #[inline(always)]
    fn as_str(&self) -> &str
        ensures { result.now ≡ text_in self.now }
    {
        match self {
            IdText::Plain(text) => text,
            IdText::Unescaped(text) => text.as_str(),
        }
    }
}

impl<'t> Spelled<'t> {
    /// What the texts of the row spell, where its language is in lower case.
    pub(crate) fn new(alloc: Global, front: Front<'t>) -> Result<Spelled<'t>, Unread>
        ensures spelled { IfOk result (λ spelled. IsSpelled spelled) }
        ensures front { IfOk result (λ spelled. row_in spelled.front ≡ row_in front.entry) }
    {
        let id = spelled_id(alloc, front.id.as_str())?;
        let languages = KnownLanguages::new(alloc, front.language)?;
        let site = spelled_site(front.site)?;
        Ok(Spelled {
            front,
            id,
            languages,
            site,
        })
    }

    /// Becomes what this row spells, where its key is greater. What the last row spells by the
    /// same text stays as it is.
    #[inline(always)]
    pub(crate) fn follow(&mut self, alloc: Global, front: Front<'t>) -> Result<(), Unread>
        requires { IsSpelled self.old }
        ensures spelled { OnOk result (IsSpelled self.new) }
        ensures front { OnOk result (row_in self.new.front ≡ row_in front.entry) }
        ensures key { OnOk result
            (IsAfter (Some (key_in self.old.front)) (key_in self.new.front)) }
    {
        let ids = order_of(self.front.id.as_str(), front.id.as_str());
        if !ascends(ids, self.front.language, front.language) {
            return Err(Unread::NotWritten);
        }
        set_id(alloc, &mut self.id, ids, front.id.as_str())?;
        self.languages.follow(alloc, ids.is_eq(), front.language)?;
        set_site(&mut self.site, self.front.site, front.site)?;
        self.front = front;
        Ok(())
    }

    /// The cell of the row with this label, and the row itself.
    #[inline(always)]
    fn cell(&self, label: LabelRef<'t>, row: RowText<'t>) -> CellRef<'_, 't>
        requires { IsSpelled self.now }
        ensures entry { entry_of result ≡ entry_in self.now.front (texts_of label.entry) }
        ensures label { IsLabelRef label.entry → IsLabelRef result.label }
        ensures row { IsLabelText (texts_of label.entry)
            → row.entry.text.now
            ≡ compact_text (entry_value (entry_in self.now.front (texts_of label.entry)))
            → take row.entry.front row.entry.text.now ++ 93 ∷ []
            ≡ compact_text (stamp_value (row_in self.now.front))
            → IsRowOf result }
        ensures kept { IsLabelText (texts_of label.entry)
            → IsKeptCell (entry_in self.now.front (texts_of label.entry)) }
    {
        CellRef {
            id: &self.id,
            lang: self.languages.last(),
            stamp: self.stamp(),
            label,
            row: Some(row),
        }
    }

    /// The stamp of the row.
    #[inline(always)]
    pub(crate) fn stamp(&self) -> Stamp
        requires { IsSpelled self.now }
        ensures { result ≡ stamp_of (row_in self.now.front) }
    {
        Stamp {
            time: self.front.time,
            site: self.site,
            count: self.front.count,
        }
    }
}

/// How two texts are ordered. Most ids are that of the row before, and so the same is tested first.
#[inline(always)]
fn order_of(last: &str, text: &str) -> Ordering
    ensures { result ≡ text_cmp last.now text.now }
{
    if last == text {
        return Ordering::Equal;
    }
    last.cmp(text)
}

/// Whether a key is greater than the last one, where the ids are ordered so.
fn ascends(ids: Ordering, last: &str, language: &str) -> bool
    ensures { IsTrue result ↔ (ordering_then ids (text_cmp last.now language.now) ≡ Less) }
{
    match ids {
        Ordering::Less => true,
        Ordering::Equal => last.cmp(language).is_lt(),
        Ordering::Greater => false,
    }
}

/// Makes the id that of the text, to which it is ordered so: an equal one stays.
fn set_id(alloc: Global, id: &mut MessageId, order: Ordering, text: &str) -> Result<(), Unread>
    requires order { order ≡ text_cmp id.old text.now }
    requires id { IsMessageId id.old }
    ensures ok { OnOk result ((id.new ≡ text.now) × IsMessageId text.now) }
    ensures err { IfErr result (RefusesSpelling (IsMessageId text.now)) }
{
    if order.is_ne() {
        *id = spelled_id(alloc, text)?;
    }
    Ok(())
}

/// Makes the name that of the text, which it is where the last text is the same.
#[inline(always)]
fn set_site(site: &mut SiteName, last: &str, text: &str) -> Result<(), Unread>
    requires { (site.old ≡ last.now) × IsSiteName last.now }
    ensures ok { OnOk result ((site.new ≡ text.now) × IsSiteName text.now) }
    ensures err { IfErr result (RefusesSpelling (IsSiteName text.now)) }
{
    if last != text {
        *site = spelled_site(text)?;
    }
    Ok(())
}

/// The id with this text.
fn spelled_id(alloc: Global, text: &str) -> Result<MessageId, Unread>
    ensures { MatchResult result (λ id. (id ≡ text.now) × IsMessageId text.now)
        (RefusesSpelling (IsMessageId text.now)) }
{
    match MessageId::new(alloc, text) {
        Ok(id) => Ok(id),
        Err(CellFault::IdRefused) => Err(Unread::NotWritten),
        Err(_) => Err(Unread::NoMemory),
    }
}

/// The name with this text.
fn spelled_site(text: &str) -> Result<SiteName, Unread>
    ensures { MatchResult result (λ site. (site ≡ text.now) × IsSiteName text.now)
        (RefusesSpelling (IsSiteName text.now)) }
{
    match SiteName::new(text) {
        Ok(site) => Ok(site),
        Err(_) => Err(Unread::NotWritten),
    }
}
