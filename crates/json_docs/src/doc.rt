//! The bytes of a document.
ghost use Rattle.std.specs.Prelude.{◌≡◌, ◌==◌, ℕ, List, length, slice_get, string_bytes};
ghost use Rattle.std.specs.Cmp.Rules.{comparing};
ghost use Rattle.std.specs.Str.{bytes_eq};
ghost use borrow.Author.Rules.{rules};

use std::marker::Model;

/// The bytes of a document or of an answer. A contract sees them as a list.
///
/// It is made from existing bytes or text: `Doc::from(bytes)`, `Doc::from(text)`. No
/// method takes memory.
#[derive(Debug, Drop)]
pub struct Doc {
    bytes: Vec<u8>,
}

impl Model for Doc {
    ghost Value = { List ℕ };

    ghost view = { λ doc. doc.bytes.items };
}

impl Doc {
    /// How many bytes there are.
    pub fn len(&self) -> usize
        ensures { result ≡ length self.now }
    {
        self.bytes.len()
    }

    /// Whether there is no byte.
    pub fn is_empty(&self) -> bool
        ensures { result ≡ (length self.now == 0) }
    {
        self.bytes.is_empty()
    }

    /// The byte at a place, counted from 0, or none past the end.
    pub fn nth(&self, place: usize) -> Option<u8>
        ensures { result ≡ slice_get self.now place }
    {
        self.bytes.get(place).copied()
    }

    /// All bytes.
    pub fn bytes(&self) -> &[u8]
        ensures { result.now ≡ self.now }
    {
        self.bytes.as_slice()
    }

    /// All bytes, as a list of their own.
    pub fn into_bytes(self) -> Vec<u8>
        ensures { result.items ≡ self }
    {
        self.bytes
    }
}

/// Documents are equal where their bytes are.
impl PartialEq for Doc {
    ghost eq = { bytes_eq };

    ghost laws = { Prim.search (comparing, rules) };

    fn eq(&self, other: &Doc) -> bool {
        self.bytes() == other.bytes()
    }
}

impl Eq for Doc {
    ghost laws = { Prim.search (comparing, rules) };
}

/// The document has just these bytes.
impl From<Vec<u8>> for Doc {
    ghost from_gives = { λ bytes doc. doc ≡ bytes.items };

    /// The document of these bytes.
    fn from(bytes: Vec<u8>) -> Doc {
        Doc { bytes }
    }
}

/// The document has just the bytes of the text.
impl From<String> for Doc {
    ghost from_gives = { λ text doc. doc ≡ string_bytes text };

    /// The document whose bytes are this text.
    fn from(text: String) -> Doc {
        Doc {
            bytes: text.into_bytes(),
        }
    }
}
