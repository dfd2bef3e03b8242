//! The answers of a run.

ghost use Rattle.std.specs.Prelude.{◌≡◌, length, slice_get, IfOk, IsTrue, ◌↔◌, []};
ghost use Rattle.std.specs.Option.{option_copied};
ghost use Rattle.std.specs.Slice.Iter.{iter_rest};

use catalogue::{Catalogue, Edit, Entries, Reply};
use cell_core::{Join, Key};
use std::alloc::{AllocError, Global};
use std::marker::Model;
use std::slice;

/// A list of edits.
#[derive(Debug, Drop)]
pub struct Edits {
    edits: Vec<Edit>,
}

impl Model for Edits {
    ghost use Rattle.catalogue.specs.Entries.{Entries};

    ghost Value = { Entries };

    ghost view = { λ e. e.edits.items };
}

impl Edits {
    /// All cells of a catalogue.
    pub(crate) fn of(alloc: Global, catalogue: &Catalogue) -> Result<Edits, AllocError>
        ensures { IfOk result (λ edits. edits ≡ catalogue.now) }
    {
        let mut edits = Vec::new(alloc);
        for (id, lang, cell) in catalogue.iter() {
            let edit = Edit::new(id.copy(alloc)?, lang.copy(alloc)?, cell.copy(alloc)?);
            edits.push(edit)?;
        }
        Ok(Edits { edits })
    }

    /// An equal list.
    pub fn copy(&self, alloc: Global) -> Result<Edits, AllocError>
        ensures { IfOk result (λ copied. copied ≡ self.now) }
    {
        let mut edits = Vec::with_capacity(alloc, self.edits.len())?;
        for edit in &self.edits {
            edits.push(edit.copy(alloc)?)?;
        }
        Ok(Edits { edits })
    }

    /// How many there are.
    pub fn len(&self) -> usize
        ensures { result ≡ length self.now }
    {
        self.edits.len()
    }

    /// Whether there is none.
    pub fn is_empty(&self) -> bool
        ensures empty { IsTrue result ↔ (self.now ≡ []) }
    {
        self.edits.is_empty()
    }

    /// The edit at a place, from 0; none from `len` on.
    pub fn nth(&self, place: usize) -> Option<&Edit>
        ensures { option_copied result ≡ slice_get self.now place }
    {
        self.edits.get(place)
    }

    /// All of them, in order.
    pub fn iter(&self) -> slice::Iter<'_, Edit>
        ensures { iter_rest result ≡ self.now }
    {
        self.edits.iter()
    }
}

/// Lists of edits are equal where their edits are.
impl PartialEq for Edits {
    ghost use Rattle.std.specs.Cmp as laws_of;
    ghost use Rattle.catalogue.specs.Equality.{entries_eq};
    ghost use Rattle.catalogue.specs.inner.Equality.{entries_equiv};

    ghost eq = { entries_eq };

    ghost laws = { laws_of.partial_equiv_from_equiv entries_equiv };

    fn eq(&self, other: &Edits) -> bool {
        self.edits == other.edits
    }
}

impl Eq for Edits {
    ghost use Rattle.catalogue.specs.inner.Equality.{entries_equiv};

    ghost laws = { entries_equiv };
}

/// The answer to a question.
#[derive(Debug, PartialEq, Eq, Drop)]
pub enum Answer {
    /// Languages with their labels and weights.
    Filter(Entries),
    /// A language with its label, or the default with its label, or nothing.
    Lookup(Reply),
    /// All cells of a site, in strictly ascending order of key.
    Cells(Edits),
}

impl Answer {
    /// An equal answer.
    pub fn copy(&self, alloc: Global) -> Result<Answer, AllocError>
        ensures { IfOk result (λ copied. copied ≡ self.now) }
    {
        match self {
            Answer::Filter(entries) => Ok(Answer::Filter(entries.copy(alloc)?)),
            Answer::Lookup(reply) => Ok(Answer::Lookup(reply.copy(alloc)?)),
            Answer::Cells(edits) => Ok(Answer::Cells(edits.copy(alloc)?)),
        }
    }
}

/// The answers of a run, one for each question, in order.
#[derive(Debug, Drop)]
pub struct Answers {
    answers: Vec<Answer>,
}

impl Model for Answers {
    ghost use Rattle.std.specs.Prelude.{List};
    ghost use Rattle.cata_core.specs.declared.answer.Answer.{Answer};

    ghost Value = { List Answer };

    ghost view = { λ a. a.answers.items };
}

impl Answers {
    /// The list of these answers.
    pub(crate) fn new(answers: Vec<Answer>) -> Answers
        ensures { result ≡ answers.items }
    {
        Answers { answers }
    }

    /// How many there are.
    pub fn len(&self) -> usize
        ensures { result ≡ length self.now }
    {
        self.answers.len()
    }

    /// Whether there is none.
    pub fn is_empty(&self) -> bool
        ensures empty { IsTrue result ↔ (self.now ≡ []) }
    {
        self.answers.is_empty()
    }

    /// The answer at a place, from 0; none from `len` on.
    pub fn nth(&self, place: usize) -> Option<&Answer>
        ensures { option_copied result ≡ slice_get self.now place }
    {
        self.answers.get(place)
    }

    /// All of them, in order.
    pub fn iter(&self) -> slice::Iter<'_, Answer>
        ensures { iter_rest result ≡ self.now }
    {
        self.answers.iter()
    }

    /// Equal answers.
    pub fn copy(&self, alloc: Global) -> Result<Answers, AllocError>
        ensures { IfOk result (λ copied. copied ≡ self.now) }
    {
        let mut answers = Vec::with_capacity(alloc, self.answers.len())?;
        for answer in &self.answers {
            answers.push(answer.copy(alloc)?)?;
        }
        Ok(Answers { answers })
    }
}

/// Lists of answers are equal where their answers are.
impl PartialEq for Answers {
    ghost use Rattle.std.specs.Cmp as laws_of;
    ghost use Rattle.cata_core.specs.AnswerEq.{answers_eq};
    ghost use Rattle.cata_core.specs.inner.AnswerEq.{answers_equiv};

    ghost eq = { answers_eq };

    ghost laws = { laws_of.partial_equiv_from_equiv answers_equiv };

    fn eq(&self, other: &Answers) -> bool {
        self.answers == other.answers
    }
}

impl Eq for Answers {
    ghost use Rattle.cata_core.specs.inner.AnswerEq.{answers_equiv};

    ghost laws = { answers_equiv };
}
