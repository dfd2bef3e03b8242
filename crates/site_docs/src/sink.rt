//! What sees the cells of a site one after another, and what it sees of each.
ghost use Rattle.std.specs.Prelude.{◌≡◌, ◌++◌, ◌∷◌, [], IfOk, OnOk, is_some};
ghost use Rattle.cell_core.specs.Label.{IsLabel};
ghost use Rattle.cata_core.specs.Delta.{summary_of};
ghost use Rattle.catalogue.specs.Entries.{Entries, IsAboveAll};
ghost use Rattle.site_docs.specs.Sink.{IsLabelRef, IsRowOf, entry_of, texts_of};

use cata_core::{Catalogue, Summary};
use cell_core::{Cell, CellFault, Key, Label, MessageId, Stamp};
use lang_core::Lang;
use std::alloc::{AllocError, Global};

/// A cell where it is: in a document, or in a catalogue.
#[derive(Drop)]
pub struct CellRef<'a, 't> {
    /// The message.
    pub id: &'a MessageId,
    /// The language.
    pub lang: &'a Lang,
    /// The stamp.
    pub stamp: Stamp,
    /// The label.
    pub label: LabelRef<'t>,
    /// Its row, where it is read of a document as it is written.
    pub row: Option<RowText<'t>>,
}

/// The row of a cell, as it is written.
#[derive(Clone, Copy)]
pub struct RowText<'t> {
    /// All of it.
    pub text: &'t str,
    /// How many bytes of it come before the comma of its label: with a bracket they are the row of
    /// a summary.
    pub front: usize,
}

/// The label of a cell, which is made only where the text of the document does not show it.
#[derive(Drop)]
pub enum LabelRef<'t> {
    /// There is none: the cell is a deletion.
    Deleted,
    /// One text, as it is in a document.
    Text(&'t str),
    /// A label of a catalogue.
    Held(&'t Label),
    /// A label that was made: of several texts, or of one with escapes.
    Made(Label),
}

/// Sees the cells of a site one after another, in ascending order of key.
pub trait CellSink<'t>: Sized + Drop {
    /// The second value is what the first becomes by these cells.
    ghost Holds: { Self → Self → Entries → Type 0 };

    /// A sink as this one, before its first cell.
    ///
    /// Its one refusal is out of memory (26).
    fn begin(&self, alloc: Global) -> Result<Self, AllocError>
        ensures { IfOk result (λ begun. Holds self.now begun []) };

    /// Sees one cell more, whose key is greater than all before it.
    ///
    /// Its one refusal is out of memory (26).
    fn see(&mut self, alloc: Global, cell: CellRef<'_, 't>) -> Result<(), AllocError>
        requires holds { (first : Self) × (before : Entries) × Holds first self.old before
            × IsAboveAll (entry_of cell).0 before }
        requires label { IsLabelRef cell.label }
        requires row { IsRowOf cell }
        ensures { OnOk result ((first : Self) → (before : Entries) → Holds first self.old before
            → IsAboveAll (entry_of cell.entry).0 before
            → Holds first self.new (before ++ entry_of cell.entry ∷ [])) };
}

/// Keeps all cells.
impl<'t> CellSink<'t> for Catalogue {
    ghost Holds = { λ first cells seen. cells ≡ seen };

    fn begin(&self, alloc: Global) -> Result<Catalogue, AllocError> {
        Ok(Catalogue::new(alloc))
    }

    fn see(&mut self, alloc: Global, cell: CellRef<'_, 't>) -> Result<(), AllocError> {
        let label = cell.label.to_label(alloc)?;
        let id = cell.id.copy(alloc)?;
        let lang = cell.lang.copy(alloc)?;
        self.push(alloc, id, lang, Cell::new(cell.stamp, label))
    }
}

/// Keeps the stamps of all cells.
impl<'t> CellSink<'t> for Summary {
    ghost Holds = { λ first summary seen. summary.stamps ≡ summary_of seen };

    fn begin(&self, alloc: Global) -> Result<Summary, AllocError> {
        Ok(Summary::new(alloc, self.owner()))
    }

    fn see(&mut self, alloc: Global, cell: CellRef<'_, 't>) -> Result<(), AllocError> {
        let id = cell.id.copy(alloc)?;
        let lang = cell.lang.copy(alloc)?;
        self.push(id, lang, cell.stamp)
    }
}

impl LabelRef<'_> {
    /// Whether there is a label.
    pub fn is_label(&self) -> bool
        ensures { result ≡ is_some (texts_of self.now) }
    {
        !matches!(self, LabelRef::Deleted)
    }

    /// The label as a value of its own.
    ///
    /// Its one refusal is out of memory (26).
    pub fn to_label(&self, alloc: Global) -> Result<Option<Label>, AllocError>
        requires { IsLabelRef self.now }
        ensures { IfOk result (λ label. label ≡ texts_of self.now) }
    {
        let label = match self {
            LabelRef::Deleted => return Ok(None),
            LabelRef::Text(text) => label_of(alloc, text)?,
            LabelRef::Held(label) => label.copy(alloc)?,
            LabelRef::Made(label) => label.copy(alloc)?,
        };
        Ok(Some(label))
    }
}

/// The label of one text.
fn label_of(alloc: Global, text: &str) -> Result<Label, AllocError>
    requires { IsLabel (text.now ∷ []) }
    ensures { IfOk result (λ label. label ≡ text.now ∷ []) }
{
    let text = String::from_str(alloc, text)?;
    match Label::from_text(text) {
        Ok(label) => Ok(label),
        Err(CellFault::NoMemory) => Err(AllocError),
        Err(_) => unreachable!(),
    }
}
