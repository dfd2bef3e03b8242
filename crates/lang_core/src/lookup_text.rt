//! An extended range as a basic one (RFC 4647 section 3.2).
ghost use Rattle.std.specs.Prelude.{◌≡◌, ◌++◌, List, ℕ, IfOk, IsErr, OnOk};
ghost use Rattle.std.specs.List.{list_any};
ghost use Rattle.std.specs.String.{string_bytes};
ghost use Rattle.lang_core.specs.Grammar.{is_star};
ghost use Rattle.lang_core.specs.LookupText.{lookup_text, kept_text, HasOtherText, IsKeptFor};
ghost use Rattle.lang_core.specs.inner.LookupText.{hyphened};
ghost use Rattle.lang_core.specs.Matching.{without_stars};
ghost use Rattle.lang_core.specs.Subtags.{subtags_left};

use crate::range_syntax::is_star;
use crate::subtags::Subtags;
use std::alloc::{AllocError, Global};

/// The text of a range as a basic one.
#[derive(Debug, Drop)]
pub(crate) enum LookupText {
    /// The range's own text, where no "*" is in it or it is "*".
    Own,
    /// "*", where the range begins with it.
    Every,
    /// Another text.
    Other(String),
}

impl LookupText {
    /// "*" where the range begins with "*", else its subtags without each "*" (RFC 4647 section
    /// 3.2). It takes memory only where that is another text than both "*" and the range's own.
    pub(crate) fn new(alloc: Global, range: &str) -> Result<LookupText, AllocError>
        ensures text { IfOk result (λ kept. (kept_text range.now kept ≡ lookup_text range.now)
            × IsKeptFor range.now kept) }
        ensures memory { IsErr result → HasOtherText range.now }
    {
        if !has_star(Subtags::new(range)) {
            return Ok(LookupText::Own);
        }
        let mut subtags = Subtags::new(range);
        match subtags.next() {
            Some(first) => {
                if is_star(first.as_bytes()) {
                    Ok(LookupText::Every)
                } else {
                    let text = without_stars(alloc, range.len(), first, subtags)?;
                    Ok(LookupText::Other(text))
                }
            }
            None => unreachable!(),
        }
    }

    /// The text, where that of the range is `own`.
    pub(crate) fn as_str<'a>(&'a self, own: &'a str) -> &'a str
        ensures { result.now ≡ kept_text own.now self.now }
    {
        match self {
            LookupText::Own => own,
            LookupText::Every => "*",
            LookupText::Other(text) => text.as_str(),
        }
    }

    /// The same for an equal range, by the same number of allocations: one for another text.
    pub(crate) fn copy(&self, alloc: Global) -> Result<LookupText, AllocError>
        ensures text { IfOk result (λ copy. (own : List ℕ) → IsKeptFor own self.now
            → (kept_text own copy ≡ kept_text own self.now) × IsKeptFor own copy) }
        ensures memory { IsErr result → (own : List ℕ) → IsKeptFor own self.now
            → HasOtherText own }
    {
        match self {
            LookupText::Own => Ok(LookupText::Own),
            LookupText::Every => Ok(LookupText::Every),
            LookupText::Other(text) => {
                let text = String::from_str(alloc, text.as_str())?;
                Ok(LookupText::Other(text))
            }
        }
    }
}

/// Whether one of the subtags is "*".
fn has_star(subtags: Subtags) -> bool
    ensures { result ≡ list_any is_star (subtags_left subtags.entry) }
{
    for subtag in subtags {
        if is_star(subtag.as_bytes()) {
            return true;
        }
    }
    false
}

/// The first subtag, and after it the others but each "*".
fn without_stars(
    alloc: Global,
    len: usize,
    first: &str,
    others: Subtags,
) -> Result<String, AllocError>
    ensures { IfOk result (λ text. string_bytes text
        ≡ first.now ++ hyphened (without_stars (subtags_left others.entry))) }
{
    let mut text = String::with_capacity(alloc, len)?;
    text.push_str(first)?;
    push_subtags(&mut text, others)?;
    Ok(text)
}

/// Adds the subtags other than "*", each after a hyphen.
fn push_subtags(text: &mut String, subtags: Subtags) -> Result<(), AllocError>
    ensures { OnOk result (string_bytes text.new
        ≡ string_bytes text.old ++ hyphened (without_stars (subtags_left subtags.entry))) }
{
    for subtag in subtags {
        if !is_star(subtag.as_bytes()) {
            text.push_str("-")?;
            text.push_str(subtag)?;
        }
    }
    Ok(())
}
