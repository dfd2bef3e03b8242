//! The ids of messages.

ghost use Rattle.std.specs.Prelude.{◌≡◌, ◌≤◌, ◌↔◌, IfOk, IsErr, IsTrue, MatchResult, All};
ghost use Rattle.std.specs.Prelude.{length, nat_eq, Some, refl};
ghost use Rattle.std.specs.Fmt.{padded};
ghost use Rattle.std.specs.Ordering.{nat_cmp};
ghost use Rattle.std.specs.Cmp as laws_of;
ghost use Rattle.std.specs.Cmp.Lexicographic.{slice_cmp, pointwise, nat_list_cmp_total};
ghost use Rattle.std.specs.Cmp.Lexicographic.{nat_list_eq_equiv, texts_po};
ghost use Rattle.std.specs.String.{string_bytes};
ghost use Rattle.std.proofs.lemmas.Map.Lookups.{exact_bytes};
ghost use Rattle.cell_core.specs.MessageId.{is_id_byte, IsMessageId, IdTakesMemory, id_bytes};
ghost use Rattle.cell_core.specs.MessageId.{KeepsId};
ghost use Rattle.cell_core.specs.inner.KeyTextOrder.{texts_tie};

use crate::fault::CellFault;
use crate::key::Key;
use crate::zero_padded::{before_zeros, zero_padded};
use std::alloc::{AllocError, Global};
use std::cmp::Ordering;
use std::fmt;
use std::marker::Model;

/// The most bytes of an id.
const MAX_BYTES: usize = 128;

/// The most bytes of an id that takes no memory.
const MAX_SHORT_BYTES: usize = 32;

/// The id of a message: 1 to 128 bytes, none of them below 32 and none 127, the first not `@`.
///
/// Ids are ordered by their bytes. An id of at most 32 bytes lies in the value itself: it takes no
/// memory, and neither does its copy.
#[derive(Drop)]
pub struct MessageId {
    text: IdText,
}

impl Model for MessageId {
    ghost use Rattle.std.specs.Prelude.{List, ℕ};
    ghost use Rattle.cell_core.specs.MessageId.{id_bytes, KeepsId};

    ghost Value = { List ℕ };

    ghost view = { λ m. id_bytes m.text };

    ghost invariant = { λ m. KeepsId m.text };
}

impl MessageId {
    ghost use Rattle.cell_core.specs.Fault.{RefusesId};

    /// The id with this text: in place up to 32 bytes, else by one allocation.
    ///
    /// Refused by [`CellFault::IdRefused`] (10) where the text is no message id, then by
    /// [`CellFault::NoMemory`] (26) where an id of over 32 bytes finds no memory.
    pub fn new(alloc: Global, text: &str) -> Result<MessageId, CellFault>
        ensures { MatchResult result (λ id. IsMessageId text.now × (id ≡ text.now))
            (RefusesId text.now) }
    {
        check_id(text)?;
        let text = IdText::new(alloc, text)?;
        Ok(MessageId { text })
    }

    /// The id with this text; it takes no memory, and one of over 32 bytes is not copied.
    ///
    /// Refused by [`CellFault::IdRefused`] (10) where the text is no message id.
    pub fn from_text(text: String) -> Result<MessageId, CellFault>
        ensures { let bytes = string_bytes text in MatchResult result
            (λ id. IsMessageId bytes × (id ≡ bytes))
            (λ fault. (fault ≡ CellFault.IdRefused) × ¬ (IsMessageId bytes)) }
    {
        check_id(text.as_str())?;
        Ok(MessageId {
            text: IdText::from_text(text),
        })
    }

    /// The text of the id, which is one that an id may have.
    pub fn as_str(&self) -> &str
        ensures text { result.now ≡ self.now }
        ensures id { IsMessageId self.now }
    {
        self.text.as_str()
    }
}

impl fmt::Debug for MessageId {
    fn fmt<W: fmt::Write>(&self, f: &mut fmt::Formatter<W>) -> fmt::Result {
        fmt::Debug::fmt(self.as_str(), f)
    }
}

/// Shows the text of the id, padded and cut as the width and the precision of its place say.
impl fmt::Display for MessageId {
    ghost output = { λ id. Some id };

    ghost styled_output = { λ id spec. Some (padded spec id) };

    fn fmt<W: fmt::Write>(&self, f: &mut fmt::Formatter<W>) -> fmt::Result {
        f.pad(self.as_str())
    }
}

/// Message ids are equal where their bytes are.
impl PartialEq for MessageId {
    ghost eq = { pointwise nat_eq };

    ghost laws = { laws_of.partial_equiv_from_equiv nat_list_eq_equiv };

    fn eq(&self, other: &MessageId) -> bool {
        self.text.is_equal(&other.text)
    }
}

impl Eq for MessageId {
    ghost laws = { nat_list_eq_equiv };
}

/// Any two message ids are ordered, as their bytes are.
impl PartialOrd for MessageId {
    ghost partial_cmp = { λ x y. Some (slice_cmp nat_cmp x y) };

    ghost laws = { texts_po };

    fn partial_cmp(&self, other: &MessageId) -> Option<Ordering> {
        Some(self.cmp(other))
    }
}

/// Message ids are ordered as their bytes are.
impl Ord for MessageId {
    ghost cmp = { slice_cmp nat_cmp };

    ghost total = { nat_list_cmp_total };

    ghost matches_partial_cmp = { λ x y. refl };

    ghost matches_eq = { texts_tie };

    fn cmp(&self, other: &MessageId) -> Ordering {
        self.text.compare(&other.text)
    }
}

/// Ids that compare equal are the same.
impl Key for MessageId {
    ghost exact = { exact_bytes };

    /// An equal id. A copy of an id of at most 32 bytes is never refused.
    fn copy(&self, alloc: Global) -> Result<MessageId, AllocError>
        ensures equal { IfOk result (λ copied. copied ≡ self.now) }
        ensures memory { IsErr result → IdTakesMemory self.now }
    {
        let text = self.text.copy(alloc)?;
        Ok(MessageId { text })
    }
}

/// The text of an id.
#[derive(Drop)]
enum IdText {
    /// Padded with zero bytes. That it is UTF-8 is in the invariant, and is not tested again.
    Short([u8; MAX_SHORT_BYTES]),
    Long(String),
}

impl IdText {
    /// The text, in place up to 32 bytes.
    fn new(alloc: Global, text: &str) -> Result<IdText, AllocError>
        requires { IsMessageId text.now }
        ensures { MatchResult result (λ stored. KeepsId stored × (id_bytes stored ≡ text.now))
            (λ _. IdTakesMemory text.now) }
    {
        if text.len() > MAX_SHORT_BYTES {
            return Ok(IdText::Long(String::from_str(alloc, text)?));
        }
        Ok(IdText::short(text))
    }

    /// The text, in place up to 32 bytes, else as it is.
    fn from_text(text: String) -> IdText
        requires { IsMessageId (string_bytes text) }
        ensures { KeepsId result × (id_bytes result ≡ string_bytes text) }
    {
        if text.len() <= MAX_SHORT_BYTES {
            return IdText::short(text.as_str());
        }
        IdText::Long(text)
    }

    /// A short text, in place.
    fn short(text: &str) -> IdText
        requires id { IsMessageId text.now }
        requires short { length text.now ≤ 32 }
        ensures { KeepsId result × (id_bytes result ≡ text.now) }
    {
        IdText::Short(zero_padded(text.as_bytes()))
    }

    /// The text.
    fn as_str(&self) -> &str
        requires { KeepsId self.now }
        ensures { result.now ≡ id_bytes self.now }
    {
        match self {
            IdText::Short(bytes) => before_zeros(bytes),
            IdText::Long(text) => text.as_str(),
        }
    }

    /// An equal text.
    fn copy(&self, alloc: Global) -> Result<IdText, AllocError>
        requires { KeepsId self.now }
        ensures { MatchResult result
            (λ stored. KeepsId stored × (id_bytes stored ≡ id_bytes self.now))
            (λ _. IdTakesMemory (id_bytes self.now)) }
    {
        match self {
            IdText::Short(bytes) => Ok(IdText::Short(*bytes)),
            IdText::Long(text) => Ok(IdText::Long(String::from_str(alloc, text.as_str())?)),
        }
    }

    /// Whether the texts are equal.
    fn is_equal(&self, other: &IdText) -> bool
        requires own { KeepsId self.now }
        requires others { KeepsId other.now }
        ensures { result ≡ pointwise nat_eq (id_bytes self.now) (id_bytes other.now) }
    {
        if let (IdText::Short(own), IdText::Short(others)) = (self, other) {
            return own == others;
        }
        self.as_str() == other.as_str()
    }

    /// How the texts are ordered by their bytes; of short ones the arrays are in that order.
    fn compare(&self, other: &IdText) -> Ordering
        requires own { KeepsId self.now }
        requires others { KeepsId other.now }
        ensures { result ≡ slice_cmp nat_cmp (id_bytes self.now) (id_bytes other.now) }
    {
        if let (IdText::Short(own), IdText::Short(others)) = (self, other) {
            return own.cmp(others);
        }
        self.as_str().cmp(other.as_str())
    }
}

/// Refuses a text that is no message id.
fn check_id(text: &str) -> Result<(), CellFault>
    ensures { MatchResult result (λ _. IsMessageId text.now)
        (λ fault. (fault ≡ CellFault.IdRefused) × ¬ (IsMessageId text.now)) }
{
    if is_message_id(text.as_bytes()) {
        Ok(())
    } else {
        Err(CellFault::IdRefused)
    }
}

/// Whether the bytes are a message id.
fn is_message_id(bytes: &[u8]) -> bool
    ensures { IsTrue result ↔ IsMessageId bytes.now }
{
    match bytes.first() {
        None | Some(b'@') => false,
        Some(_) => bytes.len() <= MAX_BYTES && are_id_bytes(bytes),
    }
}

/// Whether each byte is allowed in an id.
fn are_id_bytes(bytes: &[u8]) -> bool
    ensures { IsTrue result ↔ All (λ b. IsTrue (is_id_byte b)) bytes.now }
{
    bytes.iter().all(|&b| is_id_byte(b))
}

/// Whether the byte is allowed in an id.
#[tactic(auto, unfolding(crate::specs::MessageId::is_id_byte))]
fn is_id_byte(b: u8) -> bool
    ensures { result ≡ is_id_byte b }
{
    b >= 32 && b != 127
}
