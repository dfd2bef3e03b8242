//! Labels: the texts of a message in one language.

ghost use Rattle.std.specs.Prelude.{◌≡◌, ◌∷◌, ◌↔◌, [], IfOk, IsTrue, MatchResult, length, nat_eq};
ghost use Rattle.std.specs.Prelude.{Some, None};
ghost use Rattle.std.specs.List.{position};
ghost use Rattle.std.specs.String.{string_bytes};
ghost use Rattle.std.specs.Cmp as laws_of;
ghost use Rattle.std.specs.Cmp.Lexicographic.{pointwise, nat_list_eq_equiv, lists_equiv};
ghost use Rattle.cell_core.specs.Fault.{RefusesLabel, RefusesTexts};
ghost use Rattle.cell_core.specs.Label.{texts_of, is_too_long, IsLabel, IsLabelCount};

use crate::fault::CellFault;
use smallvec::SmallVec;
use std::alloc::{AllocError, Global};
use std::marker::Model;
use std::sync::Arc;

/// The most texts of a label.
const MAX_TEXTS: usize = 64;

/// The most bytes of a text.
const MAX_BYTES: usize = 65_535;

/// The label of a message in one language: 1 to 64 texts, in order, of at most 65,535 bytes each.
///
/// A text may be empty, and may hold any character. A label never changes, so a copy shares the
/// texts.
#[derive(Debug, Drop)]
pub struct Label {
    texts: Arc<SmallVec<String, 1>>,
}

impl Model for Label {
    ghost use Rattle.std.specs.Prelude.{List, ℕ};
    ghost use Rattle.cell_core.specs.Label.{shared_texts, IsLabel};

    ghost Value = { List (List ℕ) };

    ghost view = { λ l. shared_texts l.texts };

    ghost invariant = { λ l. IsLabel (shared_texts l.texts) };
}

impl Label {
    /// The label with copies of the texts, in order.
    ///
    /// Refused by [`CellFault::LabelCount`] (12) where there are not 1 to 64 texts, then by
    /// [`CellFault::TextTooLong`] (11) with the first text over 65,535 bytes.
    pub fn new(alloc: Global, texts: &[String]) -> Result<Label, CellFault>
        ensures { let bytes = texts_of texts.now in
            MatchResult result (λ label. IsLabel bytes × (label ≡ bytes)) (RefusesLabel bytes) }
    {
        check_texts(texts)?;
        let texts = Arc::new(alloc, copied(alloc, texts)?)?;
        Ok(Label { texts })
    }

    /// The label with these texts, which are not copied.
    ///
    /// Refused as [`Label::new`] is.
    pub fn from_texts(texts: Vec<String>) -> Result<Label, CellFault>
        ensures { let bytes = texts_of texts.items in
            MatchResult result (λ label. IsLabel bytes × (label ≡ bytes)) (RefusesLabel bytes) }
    {
        check_texts(&texts)?;
        let alloc = *texts.allocator();
        let texts = Arc::new(alloc, SmallVec::from_vec(texts))?;
        Ok(Label { texts })
    }

    /// The label of this one text, which is not copied: one allocation, where [`Label::from_texts`]
    /// needs a vector besides.
    ///
    /// Refused by [`CellFault::TextTooLong`] (11) where the text is over 65,535 bytes.
    pub fn from_text(text: String) -> Result<Label, CellFault>
        ensures { let bytes = string_bytes text ∷ [] in
            MatchResult result (λ label. IsLabel bytes × (label ≡ bytes)) (RefusesLabel bytes) }
    {
        if is_too_long(&text) {
            return Err(CellFault::TextTooLong { index: 0 });
        }
        let alloc = *text.allocator();
        let texts = Arc::new(alloc, SmallVec::from_buf(alloc, [text]))?;
        Ok(Label { texts })
    }

    /// The texts, in order: as many, and as long, as those of a label are.
    pub fn texts(&self) -> &[String]
        ensures texts { texts_of result.now ≡ self.now }
        ensures label { IsLabel self.now }
    {
        self.texts.as_slice()
    }

    /// An equal label, which shares the texts. By its code it takes no memory, which no contract
    /// can say.
    ///
    /// Refused (26) where there are as many copies as can be counted, 2^63 - 1.
    pub fn copy(&self, _alloc: Global) -> Result<Label, AllocError>
        ensures { IfOk result (λ copy. copy ≡ self.now) }
    {
        let texts = Arc::try_clone(&self.texts)?;
        Ok(Label { texts })
    }
}

/// Labels are equal where their texts are, byte for byte.
impl PartialEq for Label {
    ghost eq = { pointwise (pointwise nat_eq) };

    ghost laws = { laws_of.partial_equiv_from_equiv (lists_equiv nat_list_eq_equiv) };

    fn eq(&self, other: &Label) -> bool {
        self.texts() == other.texts()
    }
}

impl Eq for Label {
    ghost laws = { lists_equiv nat_list_eq_equiv };
}

/// Refuses texts that are no label.
fn check_texts(texts: &[String]) -> Result<(), CellFault>
    ensures { let bytes = texts_of texts.now in
        MatchResult result (λ _. IsLabel bytes) (RefusesTexts bytes) }
{
    let count = texts.len();
    if count == 0 || count > MAX_TEXTS {
        return Err(CellFault::LabelCount { count });
    }
    match first_too_long(texts) {
        Some(index) => Err(CellFault::TextTooLong { index }),
        None => Ok(()),
    }
}

/// The place of the first text that is too long.
fn first_too_long(texts: &[String]) -> Option<usize>
    ensures { result ≡ position (λ text. is_too_long (string_bytes text)) texts.now }
{
    texts.iter().position(|text| is_too_long(text))
}

/// Whether the text is too long.
fn is_too_long(text: &String) -> bool
    ensures { result ≡ is_too_long (string_bytes text.now) }
{
    text.as_bytes().len() > MAX_BYTES
}

/// Copies of the texts, in order.
fn copied(alloc: Global, texts: &[String]) -> Result<SmallVec<String, 1>, AllocError>
    ensures { IfOk result (λ copies. texts_of copies.items ≡ texts_of texts.now) }
{
    let mut copies = SmallVec::with_capacity(alloc, texts.len())?;
    for text in texts {
        copies.push(String::from_str(alloc, text.as_str())?)?;
    }
    Ok(copies)
}
