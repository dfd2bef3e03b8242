//! The text of a document as far as some rows of its array.
ghost use Rattle.std.specs.Prelude.{◌≡◌, ◌++◌, ◌∷◌, [], IfOk, IsUtf8, List, OnOk, false, true};
ghost use Rattle.json.specs.Token.{Token};
ghost use Rattle.serde_json.specs.Data.{Data};
ghost use Rattle.serde_json.specs.Written.{comma_if, compact_text};
ghost use Rattle.row_docs.specs.WritingTexts.{value_tokens};
ghost use Rattle.site_docs.specs.OpenRows.{HoldsOpen};
ghost use Rattle.site_docs.specs.Plain.{open_items};

use json::Writer;
use std::alloc::{AllocError, Global};
use std::mem;

/// A document as far as some rows of its array, which are copied from another document or made.
#[derive(Drop)]
pub(crate) struct OpenRows {
    /// The text.
    pub(crate) bytes: Vec<u8>,
    /// Whether there is a row.
    pub(crate) has_rows: bool,
    /// The last row that was made.
    row: Vec<u8>,
}

impl OpenRows {
    /// No row, after what the document begins with, and room for so many bytes.
    pub(crate) fn new(alloc: Global, opening: Writer, room: usize) -> Result<OpenRows, AllocError>
        requires { opening.before ≡ [] }
        ensures { IfOk result (λ rows. HoldsOpen opening.tokens rows []) }
    {
        let mut bytes = opening.into_inner();
        bytes.reserve(room)?;
        Ok(OpenRows {
            bytes,
            has_rows: false,
            row: Vec::new(alloc),
        })
    }

    /// Adds the text of one row or more.
    pub(crate) fn add(&mut self, more: &[u8]) -> Result<(), AllocError>
        ensures { OnOk result ((opening : List Token) (rows : List Data) (d : Data) (ds : List Data)
            → HoldsOpen opening self.old rows → IsUtf8 more.now
            → more.now ≡ open_items false (d ∷ ds) → HoldsOpen opening self.new (rows ++ d ∷ ds)) }
    {
        self.add_comma()?;
        self.bytes.extend_from_slice(more)?;
        Ok(())
    }

    /// Adds a row that is written as far as its last bracket.
    pub(crate) fn add_front(&mut self, front: &str) -> Result<(), AllocError>
        ensures { OnOk result ((opening : List Token) (rows : List Data) (d : Data)
            → HoldsOpen opening self.old rows → front.now ++ 93 ∷ [] ≡ compact_text d
            → HoldsOpen opening self.new (rows ++ d ∷ [])) }
    {
        self.add_comma()?;
        self.bytes.extend_from_slice(front.as_bytes())?;
        self.bytes.push(b']')?;
        Ok(())
    }

    /// Begins a row that is made.
    pub(crate) fn begin_row(&mut self, alloc: Global) -> Writer
        ensures same { (opening : List Token) (rows : List Data) → HoldsOpen opening self.old rows
            → HoldsOpen opening self.new rows }
        ensures before { result.before ≡ [] }
        ensures tokens { result.tokens ≡ [] }
    {
        // (A writer fills what room there is with zeros, so it is not given all bytes.)
        let mut row = mem::replace(&mut self.row, Vec::new(alloc));
        row.clear();
        Writer::new(row)
    }

    /// Adds the row that was made.
    pub(crate) fn end_row(&mut self, row: Writer) -> Result<(), AllocError>
        ensures { OnOk result ((opening : List Token) (rows : List Data) (d : Data)
            → HoldsOpen opening self.old rows → row.before ≡ [] → row.tokens ≡ value_tokens d
            → HoldsOpen opening self.new (rows ++ d ∷ [])) }
    {
        let row = row.into_inner();
        self.add(row.as_slice())?;
        self.row = row;
        Ok(())
    }

    /// Adds the comma before a row, where others come before it.
    fn add_comma(&mut self) -> Result<(), AllocError>
        ensures bytes { OnOk result
            (self.new.bytes.items ≡ self.old.bytes.items ++ comma_if self.old.has_rows) }
        ensures rows { OnOk result (self.new.has_rows ≡ true) }
    {
        if self.has_rows {
            self.bytes.push(b',')?;
        }
        self.has_rows = true;
        Ok(())
    }
}
