//! Languages of texts: tags, and `@none` (JSON-LD 1.1 section 9.8).
ghost use Rattle.std.specs.Prelude.{◌≡◌, List, ℕ, MatchResult, IfOk, IsErr, IsOk};
ghost use Rattle.std.specs.Prelude.{IfSome, Some, Option};
ghost use Rattle.std.specs.Option.{option_copied};
ghost use Rattle.std.specs.Str.{bytes_eq};
ghost use Rattle.std.specs.Ordering.{nat_cmp};
ghost use Rattle.std.specs.Cmp.Lexicographic.{slice_cmp};
ghost use Rattle.std.specs.Cmp.Rules.{comparing, hashing};
ghost use Rattle.std.specs.Fmt.{padded};
ghost use Rattle.std.specs.Hash as fed;
ghost use Rattle.lang_core.specs.Tag.{IsTag};
ghost use Rattle.lang_core.specs.LowerText.{TakesMemory};
ghost use Rattle.lang_core.specs.Lang.{IsLang, none_text, tag_of, SpellsLang, RefusesLang};
ghost use borrow.Author.Rules.{rules};

use crate::fault::LangFault;
use crate::tag::Tag;
use std::alloc::{AllocError, Global};
use std::cmp::Ordering;
use std::fmt;
use std::hash::{Hash, Hasher};
use std::marker::Model;

/// The text of the language that is none (JSON-LD 1.1 section 9.8).
const NONE: &str = "@none";

/// The language of a text: a tag, or `@none` for a text that has no language.
///
/// `@none` is no tag, so no range matches it as a language. Languages are compared by the bytes of
/// their texts; "@" is below every letter, so `@none` is the first of all.
#[derive(Debug, Drop)]
pub struct Lang {
    choice: Choice,
}

impl Model for Lang {
    ghost use Rattle.std.specs.Prelude.{List, ℕ};

    ghost Value = { List ℕ };

    ghost use Rattle.lang_core.specs.LangText.{choice_text, HoldsTag};

    ghost view = { λ l. choice_text l.choice };

    ghost invariant = { λ l. HoldsTag l.choice };
}

impl Lang {
    /// The language that the bytes spell: `@none` byte for byte, which takes no memory, or a tag in
    /// any case.
    ///
    /// All other bytes are accepted and refused as by `Tag::parse`: `@NONE` is refused as a subtag
    /// at 0.
    pub fn parse(alloc: Global, text: &[u8]) -> Result<Lang, LangFault>
        ensures { MatchResult result (SpellsLang text.now) (RefusesLang text.now) }
    {
        if text == NONE.as_bytes() {
            return Ok(Lang::none());
        }
        let tag = Tag::parse(alloc, text)?;
        Ok(Lang {
            choice: Choice::Tagged(tag),
        })
    }

    /// `@none`, without memory.
    pub fn none() -> Lang
        ensures { result ≡ none_text }
    {
        Lang {
            choice: Choice::NoLanguage,
        }
    }

    /// The text of the tag in lower case, or `@none`.
    pub fn as_str(&self) -> &str
        ensures text { result.now ≡ self.now }
        ensures lang { IsLang result.now }
    {
        match &self.choice {
            Choice::Tagged(tag) => tag.as_str(),
            Choice::NoLanguage => NONE,
        }
    }

    /// The tag, or `None` for `@none`.
    pub fn tag(&self) -> Option<&Tag>
        ensures value { option_copied result ≡ tag_of self.now }
        ensures tag { IfSome result (λ tag. IsTag tag.now) }
    {
        match &self.choice {
            Choice::Tagged(tag) => Some(tag),
            Choice::NoLanguage => None,
        }
    }

    /// The tag itself, or `None` for `@none`.
    pub fn into_tag(self) -> Option<Tag>
        ensures { result ≡ tag_of self }
    {
        match self.choice {
            Choice::Tagged(owned) => Some(owned),
            Choice::NoLanguage => None,
        }
    }

    /// An equal language, by the same number of allocations as its parsing. A copy of `@none`, or
    /// of any language of at most 16 bytes, is never refused.
    pub fn copy(&self, alloc: Global) -> Result<Lang, AllocError>
        ensures equal { IfOk result (λ lang. lang ≡ self.now) }
        ensures none { self.now ≡ none_text → IsOk result }
        ensures memory { IsErr result → TakesMemory self.now }
    {
        match &self.choice {
            Choice::Tagged(tag) => Ok(Lang {
                choice: Choice::Tagged(tag.copy(alloc)?),
            }),
            Choice::NoLanguage => Ok(Lang::none()),
        }
    }
}

/// A tag is a language.
impl From<Tag> for Lang {
    ghost from_gives = { λ tag lang. lang ≡ tag };

    fn from(tag: Tag) -> Lang {
        // No effect at run time: the proof reads that the text is a tag's.
        let _ = tag.as_str();
        Lang {
            choice: Choice::Tagged(tag),
        }
    }
}

/// Shows the text, padded and cut as the width and the precision of its place say.
impl fmt::Display for Lang {
    ghost output = { λ lang. Some lang };

    ghost styled_output = { λ lang spec. Some (padded spec lang) };

    fn fmt<W: fmt::Write>(&self, f: &mut fmt::Formatter<W>) -> fmt::Result {
        f.pad(self.as_str())
    }
}

/// Languages are equal where their bytes are.
impl PartialEq for Lang {
    ghost eq = { bytes_eq };

    ghost laws = { Prim.search (comparing, rules) };

    fn eq(&self, other: &Lang) -> bool {
        match (&self.choice, &other.choice) {
            (Choice::Tagged(tag), Choice::Tagged(other_tag)) => tag == other_tag,
            _ => self.as_str() == other.as_str(),
        }
    }
}

impl Eq for Lang {
    ghost laws = { Prim.search (comparing, rules) };
}

/// Any two languages are ordered, as their bytes are.
impl PartialOrd for Lang {
    ghost partial_cmp = { λ a b. Some (slice_cmp nat_cmp a b) };

    ghost laws = { Prim.search (comparing, rules) };

    fn partial_cmp(&self, other: &Lang) -> Option<Ordering> {
        Some(self.cmp(other))
    }
}

/// Languages are ordered as their bytes are.
impl Ord for Lang {
    ghost cmp = { slice_cmp nat_cmp };

    ghost total = { Prim.search (comparing, rules) };

    ghost matches_partial_cmp = { Prim.search (comparing, rules) };

    ghost matches_eq = { Prim.search (comparing, rules) };

    fn cmp(&self, other: &Lang) -> Ordering {
        match (&self.choice, &other.choice) {
            (Choice::Tagged(tag), Choice::Tagged(other_tag)) => tag.cmp(other_tag),
            _ => self.as_str().cmp(other.as_str()),
        }
    }
}

/// A language is hashed as its text is, so equal languages have equal hashes.
impl Hash for Lang {
    ghost hash_input = { λ lang. fed.str lang };

    ghost respects_eq = { Prim.search (hashing, rules) };

    fn hash<H: Hasher>(&self, state: &mut H) {
        self.as_str().hash(state);
    }
}

/// `@none` needs no text of its own, and so no memory.
#[derive(Debug, Drop)]
enum Choice {
    Tagged(Tag),
    NoLanguage,
}
