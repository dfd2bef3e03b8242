//! Tags (RFC 5646 section 2.1).
ghost use Rattle.std.specs.Prelude.{◌≡◌, ◌<◌, ◌≤◌, List, ℕ, MatchResult, IfOk, IsErr, Some, Option};
ghost use Rattle.std.specs.Prelude.{MatchOption, length};
ghost use Rattle.std.specs.Option.{option_copied, option_to_list};
ghost use Rattle.std.specs.Str.{bytes_eq, str_to_ascii_lowercase};
ghost use Rattle.std.specs.Ordering.{nat_cmp};
ghost use Rattle.std.specs.Cmp.Lexicographic.{slice_cmp};
ghost use Rattle.std.specs.Cmp.Rules.{comparing, hashing};
ghost use Rattle.std.specs.Fmt.{padded};
ghost use Rattle.std.specs.Hash as fed;
ghost use Rattle.lang_core.specs.Tag.{IsTag, RefusesTag};
ghost use Rattle.lang_core.specs.inner.Tag.{RefusesTagFirst};
ghost use Rattle.lang_core.specs.LowerText.{TakesMemory};
ghost use Rattle.lang_core.specs.Subtags.{subtags_left};
ghost use Rattle.lang_core.specs.Text.{pieces};
ghost use Rattle.lang_core.specs.Parts.{IsPart, language_of, extlangs_of, script_of};
ghost use Rattle.lang_core.specs.Parts.{region_of, variants_of};
ghost use borrow.Author.Rules.{rules};

use crate::fault::LangFault;
use crate::grammar::fault_by_subtags;
use crate::lower_text::{LowerText, MAX_LEN};
use crate::parts;
use crate::subtags::Subtags;
use crate::tag_table::is_staged;
use std::alloc::{AllocError, Global};
use std::cmp::Ordering;
use std::fmt;
use std::hash::{Hash, Hasher};
use std::marker::Model;

/// A well-formed language tag of 1 to 255 bytes, in lower case (RFC 5646 section 2.1).
///
/// Well-formed means by the grammar alone: no registry is consulted, and variants and singletons
/// may be repeated. Tags are compared by the bytes of their texts.
#[derive(Debug, Drop)]
pub struct Tag {
    text: LowerText,
}

impl Model for Tag {
    ghost use Rattle.std.specs.Prelude.{List, ℕ};
    ghost use Rattle.lang_core.specs.Tag.{IsTag};

    ghost Value = { List ℕ };

    ghost view = { λ t. t.text };

    ghost invariant = { λ t. IsTag t.text };
}

impl Tag {
    /// The tag that the bytes spell in any case, stored in lower case.
    ///
    /// Refused are, in this order, an empty text (1), one over 255 bytes (2), the first subtag that
    /// is not 1 to 8 letters or digits (3, at its one offset), and subtags that make no tag (4).
    /// Only then a tag of more than 16 bytes makes one allocation, of its size; out of memory (26)
    /// is the last refusal.
    ///
    /// ```text
    /// Tag::parse(alloc, b"zh-Hant-CN")?.as_str()  "zh-hant-cn"
    /// Tag::parse(alloc, b"en--us")                Err(TagSubtag { offset: 3 })
    /// ```
    pub fn parse(alloc: Global, text: &[u8]) -> Result<Tag, LangFault>
        ensures { let lower = str_to_ascii_lowercase text.now in
            MatchResult result (λ tag. IsTag lower × (tag ≡ lower)) (RefusesTag lower) }
    {
        if text.is_empty() {
            return Err(LangFault::TagEmpty);
        }
        if text.len() > MAX_LEN {
            return Err(LangFault::TagTooLong);
        }
        if let Some(fault) = tag_fault(text) {
            return Err(fault);
        }
        let text = LowerText::new(alloc, text)?;
        Ok(Tag { text })
    }

    /// The tag's text, in lower case.
    pub fn as_str(&self) -> &str
        ensures text { result.now ≡ self.now }
        ensures tag { IsTag result.now }
    {
        self.text.as_str()
    }

    /// The subtags, in order.
    pub fn subtags(&self) -> Subtags<'_>
        ensures { subtags_left result ≡ pieces self.now }
    {
        Subtags::new(self.text.as_str())
    }

    /// The language, which is the first subtag (RFC 5646 section 2.2.1), or `None` for a tag of
    /// private use alone (`x-whatever`) and an irregular one (`i-klingon`, `en-gb-oed`). Those two
    /// have no parts at all: the grammar names none in them.
    ///
    /// ```text
    /// Tag::parse(alloc, b"sl-Latn-IT-nedis")?.language()  Some("sl")
    /// Tag::parse(alloc, b"x-whatever")?.language()        None
    /// ```
    pub fn language(&self) -> Option<&str>
        ensures { IsPart (pieces self.now) language_of (option_to_list (option_copied result)) }
    {
        parts::language(self.as_str())
    }

    /// The extended language subtags, at most three, in order (RFC 5646 section 2.2.2). The grammar
    /// alone counts: regular grandfathered tags, as `zh-min-nan`, have parts as other tags do.
    ///
    /// ```text
    /// Tag::parse(alloc, b"zh-yue-HK")?.extlangs()   "yue"
    /// Tag::parse(alloc, b"zh-min-nan")?.extlangs()  "min", "nan"
    /// ```
    pub fn extlangs(&self) -> Subtags<'_>
        ensures { IsPart (pieces self.now) extlangs_of (subtags_left result) }
    {
        parts::extlangs(self.as_str())
    }

    /// The script, in lower case as the whole tag is (RFC 5646 section 2.2.3).
    ///
    /// ```text
    /// Tag::parse(alloc, b"zh-cmn-Hans-CN")?.script()  Some("hans")
    /// Tag::parse(alloc, b"de-DE-x-latn")?.script()    None
    /// ```
    pub fn script(&self) -> Option<&str>
        ensures { IsPart (pieces self.now) script_of (option_to_list (option_copied result)) }
    {
        parts::script(self.as_str())
    }

    /// The region, of two letters or three digits (RFC 5646 section 2.2.4).
    ///
    /// ```text
    /// Tag::parse(alloc, b"es-419")?.region()        Some("419")
    /// Tag::parse(alloc, b"de-a-ch-x-at")?.region()  None
    /// ```
    pub fn region(&self) -> Option<&str>
        ensures { IsPart (pieces self.now) region_of (option_to_list (option_copied result)) }
    {
        parts::region(self.as_str())
    }

    /// The variants, in order (RFC 5646 section 2.2.5). No subtag of an extension or of private use
    /// is one.
    ///
    /// ```text
    /// Tag::parse(alloc, b"sl-rozaj-biske")?.variants()   "rozaj", "biske"
    /// Tag::parse(alloc, b"de-CH-x-phonebk")?.variants()  none
    /// ```
    pub fn variants(&self) -> Subtags<'_>
        ensures { IsPart (pieces self.now) variants_of (subtags_left result) }
    {
        parts::variants(self.as_str())
    }

    /// An equal tag, by the same number of allocations as its parsing: a copy of a tag of at most
    /// 16 bytes is never refused.
    pub fn copy(&self, alloc: Global) -> Result<Tag, AllocError>
        ensures equal { IfOk result (λ tag. tag ≡ self.now) }
        ensures memory { IsErr result → TakesMemory self.now }
    {
        let text = self.text.copy(alloc)?;
        Ok(Tag { text })
    }
}

/// Shows the text, padded and cut as the width and the precision of its place say.
impl fmt::Display for Tag {
    ghost output = { λ tag. Some tag };

    ghost styled_output = { λ tag spec. Some (padded spec tag) };

    fn fmt<W: fmt::Write>(&self, f: &mut fmt::Formatter<W>) -> fmt::Result {
        f.pad(self.as_str())
    }
}

/// Tags are equal where their bytes are.
impl PartialEq for Tag {
    ghost eq = { bytes_eq };

    ghost laws = { Prim.search (comparing, rules) };

    fn eq(&self, other: &Tag) -> bool {
        self.text.equals(&other.text)
    }
}

impl Eq for Tag {
    ghost laws = { Prim.search (comparing, rules) };
}

/// Any two tags are ordered, as their bytes are.
impl PartialOrd for Tag {
    ghost partial_cmp = { λ a b. Some (slice_cmp nat_cmp a b) };

    ghost laws = { Prim.search (comparing, rules) };

    fn partial_cmp(&self, other: &Tag) -> Option<Ordering> {
        Some(self.cmp(other))
    }
}

/// Tags are ordered as their bytes are.
impl Ord for Tag {
    ghost cmp = { slice_cmp nat_cmp };

    ghost total = { Prim.search (comparing, rules) };

    ghost matches_partial_cmp = { Prim.search (comparing, rules) };

    ghost matches_eq = { Prim.search (comparing, rules) };

    fn cmp(&self, other: &Tag) -> Ordering {
        self.text.compare(&other.text)
    }
}

/// A tag is hashed as its text is, so equal tags have equal hashes.
impl Hash for Tag {
    ghost hash_input = { λ tag. fed.str tag };

    ghost respects_eq = { Prim.search (hashing, rules) };

    fn hash<H: Hasher>(&self, state: &mut H) {
        self.as_str().hash(state);
    }
}

/// Why the text, of a tag's length, is no tag. The table tells fast that it is one.
fn tag_fault(text: &[u8]) -> Option<LangFault>
    requires { (0 < length text.now) × (length text.now ≤ 255) }
    ensures { let lower = str_to_ascii_lowercase text.now in
        MatchOption result (IsTag lower) (RefusesTagFirst lower) }
{
    if is_staged(text) {
        None
    } else {
        fault_by_subtags(text)
    }
}
