//! Edits: what a message has in a language from a moment on.

ghost use Rattle.std.specs.Prelude.{◌≡◌, IfOk};

use cell_core::{Cell, Entry, MessageId};
use lang_core::Lang;
use std::alloc::{AllocError, Global};
use std::marker::Model;

/// A cell for a key, a message and a language. An edit whose cell has no label is a deletion.
#[derive(Debug, Drop)]
pub struct Edit {
    entry: Entry<Cell>,
}

impl Model for Edit {
    ghost use Rattle.catalogue.specs.Entries.{Entry};

    ghost Value = { Entry };

    ghost view = { λ e. e.entry };
}

impl Edit {
    /// The edit that gives this message the cell in this language.
    pub fn new(id: MessageId, lang: Lang, cell: Cell) -> Edit
        ensures { result ≡ ((id, lang), cell) }
    {
        Edit {
            entry: Entry::new(id, lang, cell),
        }
    }

    /// Its message.
    pub fn id(&self) -> &MessageId
        ensures { result.now ≡ self.now.0.0 }
    {
        self.entry.id()
    }

    /// Its language.
    pub fn lang(&self) -> &Lang
        ensures { result.now ≡ self.now.0.1 }
    {
        self.entry.lang()
    }

    /// Its cell.
    pub fn cell(&self) -> &Cell
        ensures { result.now ≡ self.now.1 }
    {
        self.entry.value()
    }

    /// An equal edit.
    pub fn copy(&self, alloc: Global) -> Result<Edit, AllocError>
        ensures { IfOk result (λ copied. copied ≡ self.now) }
    {
        Ok(Edit {
            entry: self.entry.copy(alloc)?,
        })
    }
}
