//! The lines of answers.
ghost use Rattle.std.specs.Prelude.{◌≡◌, ◌++◌, ◌∷◌, [], length, slice_get, codes, decimal, IfOk};
ghost use Rattle.catalogue.specs.Asking.{Weighed};
ghost use Rattle.catalogue.specs.ChangesLeft.{change_seen};
ghost use Rattle.catalogue.specs.Reply.{reply_of};
ghost use Rattle.catalogue.specs.EntriesBorrowed.{lent_weighed};
ghost use Rattle.query_docs.specs.Changes.{change_line};
ghost use Rattle.query_docs.specs.Lines.{cell_line, cells_lines, filter_lines, found_line};
ghost use Rattle.query_docs.specs.Lines.{label_text, lines, lines_of, reply_line, weighed_line};

use crate::changes::write_change;
use cata_core::{Answer, Answers, Change, Edit, Edits, Entries, LentEntries, LentReply, Reply};
use cell_core::Label;
use itoa::Buffer;
use json::Writer;
use json_docs::Doc;
use lang_core::Lang;
use row_docs::{write_entry, write_texts};
use std::alloc::{AllocError, Global};
use std::marker::Model;

/// The lines of the answers, in order.
///
/// A filter gives `filter N` and N lines `LANGUAGE WEIGHT LABEL`, with the weight in thousandths. A
/// lookup gives `matched LANGUAGE LABEL`, `default LANGUAGE LABEL` or `nothing`. The cells of a
/// site give `cells N` and N lines, each the compact text of the cell's row in a document of
/// version 2. A label is the compact JSON array of its texts.
pub fn answer_lines(alloc: Global, answers: &Answers) -> Result<Doc, AllocError>
    ensures { IfOk result (λ doc. doc ≡ lines answers.now) }
{
    let mut written = Lines::new(alloc);
    for place in 0..answers.len() {
        if let Some(answer) = answers.nth(place) {
            written = written.answer(answer)?;
        }
    }
    Ok(written.into_doc())
}

/// The lines of a filter's answer, borrowed from the catalogue: `filter N`, then its entries in
/// their order, as [`answer_lines`] writes them.
pub fn filter_lines(alloc: Global, entries: &LentEntries<'_>) -> Result<Doc, AllocError>
    ensures { IfOk result (λ doc. doc ≡ filter_lines entries.now) }
{
    let written = Lines::new(alloc).filter(entries)?;
    Ok(written.into_doc())
}

/// The line of a lookup's answer, borrowed from the catalogue, as [`answer_lines`] writes it.
pub fn reply_line(alloc: Global, reply: &LentReply<'_>) -> Result<Doc, AllocError>
    ensures { IfOk result (λ doc. doc ≡ reply_line (reply_of reply.now)) }
{
    let written = Lines::new(alloc).reply(reply)?;
    Ok(written.into_doc())
}

/// Lines that are being written, all into one buffer.
#[derive(Drop)]
pub(crate) struct Lines {
    bytes: Vec<u8>,
}

impl Model for Lines {
    ghost use Rattle.std.specs.Prelude.{List, ℕ};

    ghost Value = { List ℕ };

    ghost view = { λ lines. lines.bytes.items };
}

impl Lines {
    /// No lines.
    pub(crate) fn new(alloc: Global) -> Lines
        ensures { result ≡ [] }
    {
        Lines {
            bytes: Vec::new(alloc),
        }
    }

    /// The bytes of all lines.
    pub(crate) fn into_doc(self) -> Doc
        ensures { result ≡ self }
    {
        Doc::from(self.bytes)
    }

    /// Adds a text.
    pub(crate) fn text(mut self, text: &str) -> Result<Lines, AllocError>
        ensures { IfOk result (λ new. new ≡ self ++ text.now) }
    {
        self.bytes.extend_from_slice(text.as_bytes())?;
        Ok(self)
    }

    /// Adds a number in decimal digits.
    fn number(self, number: usize) -> Result<Lines, AllocError>
        ensures { IfOk result (λ new. new ≡ self ++ decimal number) }
    {
        let mut digits = Buffer::new();
        self.text(digits.format(number))
    }

    /// Adds the compact array of the label's texts.
    fn label(self, label: &Label) -> Result<Lines, AllocError>
        ensures { IfOk result (λ new. new ≡ self ++ label_text label.now) }
    {
        let mut json = Writer::new(self.bytes);
        write_texts(&mut json, label.texts())?;
        Ok(Lines {
            bytes: json.into_inner(),
        })
    }

    /// Adds the line of a cell.
    fn cell(self, edit: &Edit) -> Result<Lines, AllocError>
        ensures { IfOk result (λ new. new ≡ self ++ cell_line edit.now) }
    {
        let mut json = Writer::new(self.bytes);
        write_entry(&mut json, edit.id(), edit.lang(), edit.cell())?;
        let written = Lines {
            bytes: json.into_inner(),
        };
        written.text("\n")
    }

    /// Adds the line of a change.
    pub(crate) fn change(self, change: &Change<'_>) -> Result<Lines, AllocError>
        ensures { IfOk result (λ new. new ≡ self ++ change_line (change_seen change.now)) }
    {
        let mut json = Writer::new(self.bytes);
        write_change(&mut json, change)?;
        let written = Lines {
            bytes: json.into_inner(),
        };
        written.text("\n")
    }

    /// Adds `WORD LANGUAGE LABEL`.
    fn found(self, word: &str, lang: &Lang, label: &Label) -> Result<Lines, AllocError>
        ensures { IfOk result (λ new. new ≡ self ++ found_line word.now lang.now label.now) }
    {
        self.text(word)?
            .text(" ")?
            .text(lang.as_str())?
            .text(" ")?
            .label(label)?
            .text("\n")
    }

    /// Adds the line of a lookup's answer.
    fn reply(self, reply: &LentReply<'_>) -> Result<Lines, AllocError>
        ensures { IfOk result (λ new. new ≡ self ++ reply_line (reply_of reply.now)) }
    {
        match reply {
            LentReply::Matched(lang, label) => self.found("matched", lang, label),
            LentReply::Default(lang, label) => self.found("default", lang, label),
            LentReply::Nothing => self.text("nothing\n"),
        }
    }

    /// Adds `LANGUAGE WEIGHT LABEL`.
    fn weighed(self, lang: &Lang, weight: u16, label: &Label) -> Result<Lines, AllocError>
        ensures { IfOk result (λ new. new ≡ self ++ weighed_line (lang.now, label.now, weight)) }
    {
        self.text(lang.as_str())?
            .text(" ")?
            .number(usize::from(weight))?
            .text(" ")?
            .label(label)?
            .text("\n")
    }

    /// Adds `WORD N`.
    pub(crate) fn count(self, word: &str, count: usize) -> Result<Lines, AllocError>
        ensures { IfOk result (λ new. new ≡ self ++ ((word.now ++ 32 ∷ decimal count) ++ 10 ∷ [])) }
    {
        self.text(word)?.text(" ")?.number(count)?.text("\n")
    }

    /// Adds the lines of a filter's answer.
    fn filter<W: Weights>(self, entries: &W) -> Result<Lines, AllocError>
        ensures { IfOk result (λ new. new ≡ self ++ filter_lines (W.weighed entries.now)) }
    {
        let mut written = self.count("filter", entries.count())?;
        for place in 0..entries.count() {
            if let Some((lang, label, weight)) = entries.entry(place) {
                written = written.weighed(lang, weight, label)?;
            }
        }
        Ok(written)
    }

    /// Adds the lines of a site's cells.
    fn cells(self, cells: &Edits) -> Result<Lines, AllocError>
        ensures { IfOk result (λ new. new ≡ self ++ cells_lines cells.now) }
    {
        let mut written = self.count("cells", cells.len())?;
        for place in 0..cells.len() {
            if let Some(edit) = cells.nth(place) {
                written = written.cell(edit)?;
            }
        }
        Ok(written)
    }

    /// Adds the lines of an answer.
    fn answer(self, answer: &Answer) -> Result<Lines, AllocError>
        ensures { IfOk result (λ new. new ≡ self ++ lines_of answer.now) }
    {
        match answer {
            Answer::Filter(entries) => self.filter(entries),
            Answer::Lookup(reply) => self.reply(&lent(reply)),
            Answer::Cells(cells) => self.cells(cells),
        }
    }
}

/// The answer of a filter, owned or borrowed.
trait Weights {
    ghost weighed: { Self → Weighed };

    /// How many entries there are.
    fn count(&self) -> usize
        ensures { result ≡ length (weighed self.now) };

    /// The entry at a place, from 0; none from `count` on.
    fn entry(&self, place: usize) -> Option<(&Lang, &Label, u16)>
        ensures { lent_weighed result ≡ slice_get (weighed self.now) place };
}

impl Weights for Entries {
    ghost weighed = { λ entries. entries };

    fn count(&self) -> usize {
        self.len()
    }

    fn entry(&self, place: usize) -> Option<(&Lang, &Label, u16)> {
        self.nth(place)
    }
}

impl Weights for LentEntries<'_> {
    ghost weighed = { λ entries. entries };

    fn count(&self) -> usize {
        self.len()
    }

    fn entry(&self, place: usize) -> Option<(&Lang, &Label, u16)> {
        self.nth(place)
    }
}

/// Borrows the answer of a lookup.
fn lent(reply: &Reply) -> LentReply<'_>
    ensures { reply_of result ≡ reply.now }
{
    match reply {
        Reply::Matched(lang, label) => LentReply::Matched(lang, label),
        Reply::Default(lang, label) => LentReply::Default(lang, label),
        Reply::Nothing => LentReply::Nothing,
    }
}
