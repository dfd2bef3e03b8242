//! Texts in lower case, of a length that tags and ranges may have. Most of them are short, and take
//! no memory.
ghost use Rattle.std.specs.Prelude.{◌≡◌, ◌≤◌, length, MatchResult, IfOk, IsErr};
ghost use Rattle.std.specs.String.{string_bytes};
ghost use Rattle.std.specs.Str.{IsAscii, bytes_eq, str_to_ascii_lowercase};
ghost use Rattle.std.specs.Ordering.{nat_cmp};
ghost use Rattle.std.specs.Cmp.Lexicographic.{slice_cmp};
ghost use Rattle.lang_core.specs.declared.fault.LangFault.TheVariants.{NoMemory};
ghost use Rattle.lang_core.specs.LowerText.{TakesMemory};
ghost use Rattle.lang_core.specs.inner.LowerText.{IsNonzeroAscii, IsShort, filled, spelled_number};

use crate::fault::LangFault;
use std::alloc::{AllocError, Global};
use std::cmp::Ordering;
use std::fmt;
use std::marker::Model;

/// The most bytes of a tag or a range.
pub(crate) const MAX_LEN: usize = 255;

/// The most bytes of a text that takes no memory.
const MAX_SHORT_LEN: usize = 16;

/// A text in lower case of ASCII bytes other than zero.
#[derive(Drop)]
pub(crate) struct LowerText {
    kept: Kept,
}

impl Model for LowerText {
    ghost use Rattle.std.specs.Prelude.{List, ℕ};
    ghost use Rattle.lang_core.specs.LowerTextBytes.{kept_bytes};
    ghost use Rattle.lang_core.specs.inner.LowerTextBytes.{IsKept};

    ghost Value = { List ℕ };

    ghost view = { λ t. kept_bytes t.kept };

    ghost invariant = { λ t. IsKept t.kept };
}

impl LowerText {
    /// The text in lower case: without memory up to 16 bytes, else by one allocation.
    pub(crate) fn new(alloc: Global, bytes: &[u8]) -> Result<LowerText, LangFault>
        requires { IsNonzeroAscii (str_to_ascii_lowercase bytes.now) }
        ensures { MatchResult result
            (λ text. text ≡ str_to_ascii_lowercase bytes.now)
            (λ fault. (fault ≡ NoMemory) × TakesMemory (str_to_ascii_lowercase bytes.now)) }
    {
        let kept = if bytes.len() <= MAX_SHORT_LEN {
            Kept::Short(ShortText::lower(bytes))
        } else {
            Kept::Long(lower_long(alloc, bytes)?)
        };
        Ok(LowerText { kept })
    }

    /// The text.
    pub(crate) fn as_str(&self) -> &str
        ensures { result.now ≡ self.now }
    {
        match &self.kept {
            Kept::Short(text) => text.as_str(),
            Kept::Long(text) => text.as_str(),
        }
    }

    /// The bytes of the text.
    pub(crate) fn as_bytes(&self) -> &[u8]
        ensures { result.now ≡ self.now }
    {
        self.as_str().as_bytes()
    }

    /// An equal text, by the same number of allocations: without memory up to 16 bytes.
    pub(crate) fn copy(&self, alloc: Global) -> Result<LowerText, AllocError>
        ensures equal { IfOk result (λ text. text ≡ self.now) }
        ensures memory { IsErr result → TakesMemory self.now }
    {
        let kept = match &self.kept {
            Kept::Short(text) => Kept::Short(*text),
            Kept::Long(text) => Kept::Long(String::from_str(alloc, text.as_str())?),
        };
        Ok(LowerText { kept })
    }

    /// Whether the texts are equal.
    pub(crate) fn equals(&self, other: &LowerText) -> bool
        ensures { result ≡ bytes_eq self.now other.now }
    {
        match (&self.kept, &other.kept) {
            (Kept::Short(text), Kept::Short(other_text)) => text.equals(other_text),
            _ => self.as_str() == other.as_str(),
        }
    }

    /// The order of the texts by their bytes.
    pub(crate) fn compare(&self, other: &LowerText) -> Ordering
        ensures { result ≡ slice_cmp nat_cmp self.now other.now }
    {
        match (&self.kept, &other.kept) {
            (Kept::Short(text), Kept::Short(other_text)) => text.compare(other_text),
            _ => self.as_str().cmp(other.as_str()),
        }
    }
}

impl fmt::Debug for LowerText {
    fn fmt<W: fmt::Write>(&self, f: &mut fmt::Formatter<W>) -> fmt::Result {
        fmt::Debug::fmt(self.as_str(), f)
    }
}

/// A short text lies in the value itself, as most tags are short.
#[derive(Drop)]
enum Kept {
    Short(ShortText),
    Long(String),
}

/// A text of at most 16 ASCII bytes other than zero.
///
/// Zero bytes follow the text. No text has a zero byte, so the arrays are in the order of the
/// texts, and are compared in place of them, as numbers. The length takes no room of its own, and
/// without it each use would seek the first zero.
#[derive(Clone, Copy)]
struct ShortText {
    bytes: [u8; MAX_SHORT_LEN],
    len: usize,
}

impl Model for ShortText {
    ghost use Rattle.std.specs.Prelude.{List, ℕ, length, take};
    ghost use Rattle.lang_core.specs.inner.LowerText.{filled, KeepsShort};

    ghost Value = { List ℕ };

    ghost view = { λ t. take t.len t.bytes };

    ghost invariant = { λ t. KeepsShort t.bytes t.len };

    ghost inverse = { λ text. record { bytes = filled text; len = length text } };

    ghost inverse_ok = { λ t kept i. record { bytes = kept.zeros i; len = kept.size i } };
}

impl ShortText {
    /// The text in lower case.
    fn lower(text: &[u8]) -> ShortText
        requires { IsShort (str_to_ascii_lowercase text.now) }
        ensures { result ≡ str_to_ascii_lowercase text.now }
    {
        let mut bytes = fill(text);
        // All of them at once, as their number is known.
        bytes.make_ascii_lowercase();
        ShortText {
            bytes,
            len: text.len(),
        }
    }

    /// The text.
    fn as_str(&self) -> &str
        ensures { result.now ≡ self.now }
    {
        // The text is ASCII, and so UTF-8.
        unsafe { str::from_utf8_unchecked(&self.bytes[..self.len]) }
    }

    /// Whether the texts are equal.
    fn equals(&self, other: &ShortText) -> bool
        ensures { result ≡ bytes_eq self.now other.now }
    {
        self.number() == other.number()
    }

    /// The order of the texts by their bytes.
    fn compare(&self, other: &ShortText) -> Ordering
        ensures { result ≡ slice_cmp nat_cmp self.now other.now }
    {
        let (number, other) = (self.number(), other.number());
        // The first eight bytes decide most orders.
        let (front, other_front) = (number >> 64, other >> 64);
        if front == other_front {
            number.cmp(&other)
        } else {
            front.cmp(&other_front)
        }
    }

    /// The number that the bytes spell, the first byte the highest. Numbers are in the order of the
    /// texts, and are compared by few instructions.
    fn number(&self) -> u128
        ensures value { result ≡ spelled_number self.now }
        ensures text { IsShort self.now }
    {
        u128::from_be_bytes(self.bytes)
    }
}

/// An ASCII text in lower case, by one allocation.
fn lower_long(alloc: Global, bytes: &[u8]) -> Result<String, LangFault>
    requires { IsAscii bytes.now }
    ensures { MatchResult result
        (λ text. string_bytes text ≡ str_to_ascii_lowercase bytes.now)
        (λ fault. fault ≡ NoMemory) }
{
    // ASCII is UTF-8.
    let text = unsafe { str::from_utf8_unchecked(bytes) };
    let mut lower = String::from_str(alloc, text)?;
    lower.make_ascii_lowercase();
    Ok(lower)
}

/// A short text with zero bytes after it.
fn fill(text: &[u8]) -> [u8; MAX_SHORT_LEN]
    requires { length text.now ≤ 16 }
    ensures { result ≡ filled text.now }
{
    let mut bytes = [0; MAX_SHORT_LEN];
    bytes[..text.len()].copy_from_slice(text);
    bytes
}
