//! Language ranges (RFC 4647 section 2).
ghost use Rattle.std.specs.Prelude.{◌≡◌, ◌≤◌, List, ℕ, IsTrue, MatchResult, IfOk, IsErr, ◌↔◌, Some};
ghost use Rattle.std.specs.Prelude.{length};
ghost use Rattle.std.specs.Str.{bytes_eq, str_to_ascii_lowercase};
ghost use Rattle.std.specs.Cmp.Rules.{comparing};
ghost use Rattle.std.specs.Fmt.{padded};
ghost use Rattle.lang_core.specs.Text.{pieces, subtags};
ghost use Rattle.lang_core.specs.Grammar.{BasicRange, ExtendedRange, basic_piece, extended_piece};
ghost use Rattle.lang_core.specs.Range.{IsRange, RangeTakesMemory, RefusesRange};
ghost use Rattle.lang_core.specs.Matching.{Basic, Extended, as_basic, is_basic_match, specificity};
ghost use Rattle.lang_core.specs.TruncationsCandidates.{candidates};
ghost use Rattle.lang_core.specs.LookupText.{lookup_text};
ghost use Rattle.lang_core.specs.Subtags.{subtags_left};
ghost use Rattle.lang_core.specs.Truncations.{truncations_left};
ghost use borrow.Author.Rules.{rules};

use crate::fault::LangFault;
use crate::lookup_text::LookupText;
use crate::lower_text::{LowerText, MAX_LEN};
use crate::matching::{matches_basic, matches_basic_text, matches_extended};
use crate::pieces::{HYPHEN, Pieces};
use crate::range_syntax::{basic_fault, extended_fault, is_star};
use crate::subtags::Subtags;
use crate::tag::Tag;
use crate::truncations::Truncations;
use std::alloc::{AllocError, Global};
use std::fmt;
use std::marker::Model;

/// A language range of 1 to 255 bytes, in lower case (RFC 4647 section 2).
///
/// Each range is an extended one; a basic range is one whose only "*", if any, is the whole range.
#[derive(Debug, Drop)]
pub struct Range {
    text: LowerText,
    /// The text as a basic range.
    lookup: LookupText,
}

impl Model for Range {
    ghost use Rattle.std.specs.Prelude.{List, ℕ, ◌≡◌};
    ghost use Rattle.lang_core.specs.Range.{IsRange};
    ghost use Rattle.lang_core.specs.Grammar.{ExtendedRange};
    ghost use Rattle.lang_core.specs.LookupText.{lookup_text, kept_text, IsKeptFor};

    ghost Value = { List ℕ };

    ghost view = { λ r. r.text };

    ghost invariant = { λ r. IsRange ExtendedRange r.text
        × (kept_text r.text r.lookup ≡ lookup_text r.text) × IsKeptFor r.text r.lookup };
}

impl Range {
    /// The basic range that the bytes spell in any case (RFC 4647 section 2.1), as `de-ch` or `*`.
    ///
    /// Refused are, in this order, an empty text (5), one over 255 bytes (6), and the first subtag
    /// that a basic range may not have at its place (7, at its one offset). Only then a range of
    /// more than 16 bytes makes one allocation, of its size; out of memory (26) is the last.
    ///
    /// ```text
    /// Range::parse_basic(alloc, b"de-CH")?.as_str()  "de-ch"
    /// Range::parse_basic(alloc, b"de-*")             Err(RangeSubtag { offset: 3 })
    /// ```
    pub fn parse_basic(alloc: Global, text: &[u8]) -> Result<Range, LangFault>
        ensures { let lower = str_to_ascii_lowercase text.now in
            MatchResult result
            (λ range. IsRange BasicRange lower × (range ≡ lower))
            (RefusesRange BasicRange basic_piece lower) }
    {
        if text.is_empty() {
            return Err(LangFault::RangeEmpty);
        }
        if text.len() > MAX_LEN {
            return Err(LangFault::RangeTooLong);
        }
        if let Some(offset) = basic_fault(text) {
            return Err(LangFault::RangeSubtag { offset });
        }
        let text = LowerText::new(alloc, text)?;
        Ok(Range {
            text,
            lookup: LookupText::Own,
        })
    }

    /// The extended range that the bytes spell in any case (RFC 4647 section 2.2), as `de-*-ch`.
    ///
    /// Refused are, in this order, an empty text (5), one over 255 bytes (6), and the first subtag
    /// that an extended range may not have at its place (7, at its one offset). Only then one
    /// allocation is made for a text of more than 16 bytes, and one for a lookup text that is
    /// neither the range's text nor "*"; out of memory (26) is the last refusal.
    ///
    /// ```text
    /// Range::parse_extended(alloc, b"de-*-CH")?.lookup_text()  "de-ch"
    /// Range::parse_extended(alloc, b"*-")                      Err(RangeSubtag { offset: 2 })
    /// ```
    pub fn parse_extended(alloc: Global, text: &[u8]) -> Result<Range, LangFault>
        ensures { let lower = str_to_ascii_lowercase text.now in
            MatchResult result
            (λ range. IsRange ExtendedRange lower × (range ≡ lower))
            (RefusesRange ExtendedRange extended_piece lower) }
    {
        if text.is_empty() {
            return Err(LangFault::RangeEmpty);
        }
        if text.len() > MAX_LEN {
            return Err(LangFault::RangeTooLong);
        }
        if let Some(offset) = extended_fault(text) {
            return Err(LangFault::RangeSubtag { offset });
        }
        let text = LowerText::new(alloc, text)?;
        let lookup = LookupText::new(alloc, text.as_str())?;
        Ok(Range { text, lookup })
    }

    /// The range's text in lower case, each "*" included.
    pub fn as_str(&self) -> &str
        ensures text { result.now ≡ self.now }
        ensures range { IsRange ExtendedRange result.now }
    {
        self.text.as_str()
    }

    /// The text of the range as a basic one, made when the range was parsed: "*" where the range
    /// begins with "*", else its subtags without each "*" (RFC 4647 section 3.2).
    pub fn lookup_text(&self) -> &str
        ensures { result.now ≡ lookup_text self.now }
    {
        self.lookup.as_str(self.text.as_str())
    }

    /// The subtags, each "*" included, in order.
    pub fn subtags(&self) -> Subtags<'_>
        ensures subtags { subtags_left result ≡ pieces self.now }
        ensures range { ExtendedRange (subtags_left result) }
    {
        Subtags::new(self.text.as_str())
    }

    /// The number of subtags other than "*".
    pub fn specificity(&self) -> usize
        ensures { result ≡ specificity (pieces self.now) }
    {
        specificity(self.text.as_bytes())
    }

    /// Basic filtering (RFC 4647 section 3.3.1): the range is "*", or its subtags are the tag's
    /// first ones. `de` matches `de-CH` and not `deu`; another range with a "*", such as `*-CH` or
    /// `de-*-CH`, matches nothing.
    pub fn matches_basic(&self, tag: &Tag) -> bool
        ensures basic { IsTrue result ↔ Basic (pieces self.now) (pieces tag.now) }
        ensures test { result ≡ is_basic_match (pieces self.now) (pieces tag.now) }
    {
        matches_basic(self.text.as_bytes(), tag.as_str().as_bytes())
    }

    /// Basic filtering of any text in any case, whether it is a tag or not.
    ///
    /// "*" matches every text, `@none` and the empty one among them.
    pub fn matches_basic_text(&self, text: &str) -> bool
        ensures basic { IsTrue result ↔ Basic (pieces self.now) (subtags text.now) }
        ensures test { result ≡ is_basic_match (pieces self.now) (subtags text.now) }
    {
        matches_basic_text(self.as_str().as_bytes(), text.as_bytes())
    }

    /// Extended filtering (RFC 4647 section 3.3.2): the first subtags match, and the range's other
    /// subtags except "*" are among the tag's other subtags in this order, with no single letter or
    /// digit skipped. `de-*-DE` matches `de-Latn-DE` and not `de-x-DE`.
    pub fn matches_extended(&self, tag: &Tag) -> bool
        ensures { IsTrue result ↔ Extended (pieces self.now) (pieces tag.now) }
    {
        matches_extended(self.text.as_bytes(), tag.as_str().as_bytes())
    }

    /// The lookup text and its truncations, longest first, as slices of it (RFC 4647 section 3.4).
    ///
    /// A single letter or digit goes with the subtag after it, and one that would be left alone
    /// leaves nothing. The lookup text itself always comes first.
    ///
    /// ```text
    /// zh-Hant-CN-x-private1  zh-hant-cn-x-private1, zh-hant-cn, zh-hant, zh
    /// ```
    pub fn truncations(&self) -> Truncations<'_>
        ensures { truncations_left result ≡ candidates (as_basic (pieces self.now)) }
    {
        Truncations::new(self.lookup_text())
    }

    /// An equal range, by the same number of allocations as its parsing. Where the range has at
    /// most 16 bytes, and its lookup text is its own text or "*", a copy is never refused.
    pub fn copy(&self, alloc: Global) -> Result<Range, AllocError>
        ensures equal { IfOk result (λ range. range ≡ self.now) }
        ensures memory { IsErr result → RangeTakesMemory self.now }
    {
        let text = self.text.copy(alloc)?;
        let lookup = self.lookup.copy(alloc)?;
        Ok(Range { text, lookup })
    }
}

/// Shows the text, padded and cut as the width and the precision of its place say.
impl fmt::Display for Range {
    ghost output = { λ range. Some range };

    ghost styled_output = { λ range spec. Some (padded spec range) };

    fn fmt<W: fmt::Write>(&self, f: &mut fmt::Formatter<W>) -> fmt::Result {
        f.pad(self.as_str())
    }
}

/// Ranges are equal where their bytes are.
impl PartialEq for Range {
    ghost eq = { bytes_eq };

    ghost laws = { Prim.search (comparing, rules) };

    fn eq(&self, other: &Range) -> bool {
        self.text.equals(&other.text)
    }
}

impl Eq for Range {
    ghost laws = { Prim.search (comparing, rules) };
}

/// The number of subtags other than "*".
#[tactic(auto, unfolding(crate::specs::Matching::specificity))]
fn specificity(range: &[u8]) -> usize
    requires { length range.now ≤ 255 }
    ensures { result ≡ specificity (pieces range.now) }
{
    Pieces::new(range, HYPHEN)
        .filter(|piece| !is_star(piece))
        .count()
}
