//! A table of fallbacks, and the texts that lookup tries by it (project rule).
//!
//! RFC 4647 leaves room for it: ranges may be mapped (section 3.2), and implementations may extend
//! lookup (section 3.4).
ghost use Rattle.std.specs.Prelude.{◌≡◌, ◌≢◌, ◌≤◌, ◌==◌, ◌+◌, ◌∷◌, [], ℕ, List, None, Option, Some};
ghost use Rattle.std.specs.Prelude.{IfOk, MatchOption, MatchResult, length, map, option_map};
ghost use Rattle.std.specs.Prelude.{position, string_bytes, false, true};
ghost use Rattle.std.specs.List.{list_any};
ghost use Rattle.std.specs.Str.{bytes_eq, str_to_ascii_lowercase};
ghost use Rattle.lang_core.specs.Tag.{IsTag};
ghost use Rattle.lang_core.specs.declared.fault.LangFault.TheVariants as lang;
ghost use Rattle.lang_core.specs.Text.{pieces, pieces_by};
ghost use Rattle.lang_core.specs.TruncationsCandidates.{candidates};
ghost use Rattle.list_core.specs.Fallbacks.{IsFallback, IsTable, RefusesTable, chain_of, is_gap};
ghost use Rattle.list_core.specs.Fallbacks.{right_of, skip_gaps, trim_end};
ghost use Rattle.list_core.specs.inner.Fallbacks.{ChainsOn, LeadsOn};
ghost use Rattle.list_core.specs.declared.fallbacks.Fallback.{Fallback};
ghost use Rattle.list_core.specs.declared.fault.NegoFault.TheVariants.{NoMemory};

use crate::fault::NegoFault;
use crate::field::{MAX_FIELD_LEN, comma_at};
use lang_core::{LangFault, Tag, Truncations};
use std::alloc::{AllocError, Global};
use std::marker::Model;

/// An element of a table: a tag, and the tag that is tried after it.
#[derive(Drop)]
pub struct Fallback {
    left: Tag,
    right: Tag,
}

/// A table of fallbacks: which tag lookup tries after which, in place of what RFC 4647 truncates it
/// to.
#[derive(Drop)]
pub struct Fallbacks {
    elements: Vec<Fallback>,
}

impl Model for Fallbacks {
    ghost use Rattle.std.specs.Prelude.{List};
    ghost use Rattle.list_core.specs.Fallbacks.{AreDistinct};
    ghost use Rattle.list_core.specs.declared.fallbacks.Fallback.{Fallback};

    ghost Value = { List Fallback };

    ghost view = { λ table. table.elements.items };

    ghost invariant = { λ table. AreDistinct table.elements.items };
}

impl Fallbacks {
    /// The table without elements, by which lookup is that of RFC 4647.
    pub fn none(alloc: Global) -> Fallbacks
        ensures { result ≡ [] }
    {
        Fallbacks {
            elements: Vec::new(alloc),
        }
    }

    /// The table of a text of elements `TAG=TAG` between commas. Spaces, tabs, CR and LF are
    /// allowed around an element. What is empty between commas is no element.
    ///
    /// Refusals: `FieldTooLong` if the text has more than 65,535 bytes; else `FallbackMalformed`
    /// with the offset at which the first element begins that is no `TAG=TAG` of well-formed tags,
    /// or whose left side an earlier one has in any case. `NoMemory` may come before.
    ///
    /// ```text
    /// Fallbacks::parse(alloc, b"zh-TW=zh-Hant, no=nb")
    /// Fallbacks::parse(alloc, b"en=fr, EN=de")          Err(FallbackMalformed { offset: 7 })
    /// ```
    pub fn parse(alloc: Global, text: &[u8]) -> Result<Fallbacks, NegoFault>
        ensures { MatchResult result (λ table. (length text.now ≤ 65535) × IsTable text.now table)
            (RefusesTable text.now) }
    {
        if text.len() > MAX_FIELD_LEN {
            return Err(NegoFault::FieldTooLong);
        }
        let mut elements = Vec::new(alloc);
        let mut rest = Some(text);
        while let Some(left) = rest {
            let (piece, after) = cut_piece(left);
            let begun = skip_gaps(piece);
            if !begun.is_empty() {
                match read_new(alloc, &elements, trim_end(begun))? {
                    Some(element) => elements.push(element)?,
                    None => {
                        let offset = text.len() - left.len() + (piece.len() - begun.len());
                        return Err(NegoFault::FallbackMalformed { offset });
                    }
                }
            }
            rest = after;
        }
        Ok(Fallbacks { elements })
    }

    /// Whether the table has no elements.
    pub fn is_empty(&self) -> bool
        ensures { result ≡ (length self.now == 0) }
    {
        self.elements.is_empty()
    }

    /// The texts that lookup tries for a text, in order: the text; then, if an element with this
    /// left side was not used before, its right side, else what RFC 4647 section 3.4 truncates the
    /// text to; and so on. A text that was tried is passed over.
    pub(crate) fn chain(&self, alloc: Global, text: &str) -> Result<Vec<String>, AllocError>
        ensures { IfOk result (λ chain. map string_bytes chain.items
            ≡ chain_of self.now text.now) }
    {
        let mut chain = Vec::new(alloc);
        let mut unused = self.elements.len();
        let mut next = self.extend(alloc, text, &mut chain)?;
        while let Some(right) = next {
            unused -= 1;
            next = self.extend(alloc, right, &mut chain)?;
        }
        Ok(chain)
    }

    /// Adds the text and its truncations to the chain, as far as one that leads on to another text,
    /// which is the answer.
    fn extend<'a>(
        &'a self,
        alloc: Global,
        text: &str,
        chain: &mut Vec<String>,
    ) -> Result<Option<&'a str>, AllocError>
        ensures { IfOk result (λ next. ChainsOn self.now (map string_bytes chain.old.items)
            (candidates (pieces text.now)) (map string_bytes chain.new.items)
            (option_map (λ right. right.now) next)) }
    {
        for tried in Truncations::new(text) {
            if is_in(chain, tried) {
                continue;
            }
            chain.push(String::from_str(alloc, tried)?)?;
            match self.right_of(tried) {
                Some(right) => return Ok(Some(right)),
                None => {}
            }
        }
        Ok(None)
    }

    /// The right side of the element with this left side.
    fn right_of(&self, text: &str) -> Option<&str>
        ensures { option_map (λ right. right.now) result ≡ right_of self.now text.now }
    {
        let mut rest = self.elements.as_slice();
        while let [element, others @ ..] = rest {
            if element.left.as_str() == text {
                return Some(element.right.as_str());
            }
            rest = others;
        }
        None
    }
}

/// The text up to its first comma, and what follows that comma.
fn cut_piece(text: &[u8]) -> (&[u8], Option<&[u8]>)
    ensures pieces { MatchOption result.1 (pieces_by 44 text.now ≡ result.0.now ∷ [])
        (λ rest. pieces_by 44 text.now ≡ result.0.now ∷ pieces_by 44 rest.now) }
    ensures length { MatchOption result.1 (length text.now ≡ length result.0.now)
        (λ rest. length text.now ≡ length result.0.now + (length rest.now + 1)) }
{
    match comma_at(text) {
        Some(at) => (&text[..at], Some(&text[at + 1..])),
        None => (text, None),
    }
}

/// The text without the gaps at its front.
fn skip_gaps(text: &[u8]) -> &[u8]
    ensures gaps { result.now ≡ skip_gaps text.now }
    ensures shorter { length result.now ≤ length text.now }
{
    let mut rest = text;
    while let [first, others @ ..] = rest {
        if !is_gap(*first) {
            return rest;
        }
        rest = others;
    }
    rest
}

/// The text without the gaps at its end.
fn trim_end(text: &[u8]) -> &[u8]
    ensures { result.now ≡ trim_end text.now }
{
    let mut rest = text;
    while let [others @ .., last] = rest {
        if !is_gap(*last) {
            return rest;
        }
        rest = others;
    }
    rest
}

/// What may be around an element: a space, a tab, CR or LF.
fn is_gap(byte: u8) -> bool
    ensures { result ≡ is_gap byte }
{
    matches!(byte, b' ' | b'\t' | b'\r' | b'\n')
}

/// The element that a text is, if it is one, and no other has its left side.
fn read_new(
    alloc: Global,
    elements: &[Fallback],
    text: &[u8],
) -> Result<Option<Fallback>, NegoFault>
    ensures { MatchResult result
        (λ found. MatchOption found
        ((f : Fallback) → IsFallback text.now f
        → list_any (λ e. bytes_eq e.left f.left) elements.now ≡ true)
        (λ f. IsFallback text.now f
        × (list_any (λ e. bytes_eq e.left f.left) elements.now ≡ false)))
        (λ fault. fault ≡ NoMemory) }
{
    match read_fallback(alloc, text)? {
        Some(element) => {
            if has_left(elements, &element.left) {
                Ok(None)
            } else {
                Ok(Some(element))
            }
        }
        None => Ok(None),
    }
}

/// The element that a text is, if it is one.
fn read_fallback(alloc: Global, text: &[u8]) -> Result<Option<Fallback>, NegoFault>
    ensures { MatchResult result
        (λ found. MatchOption found ((f : Fallback) → ¬ IsFallback text.now f)
        (IsFallback text.now))
        (λ fault. fault ≡ NoMemory) }
{
    let Some(at) = equals_at(text) else {
        return Ok(None);
    };
    let Some(left) = read_tag(alloc, &text[..at])? else {
        return Ok(None);
    };
    let Some(right) = read_tag(alloc, &text[at + 1..])? else {
        return Ok(None);
    };
    Ok(Some(Fallback { left, right }))
}

/// The place of the first "=".
fn equals_at(text: &[u8]) -> Option<usize>
    ensures { result ≡ position (λ b. b == 61) text.now }
{
    text.iter().position(|b| *b == b'=')
}

/// The tag that a text spells, if it spells one.
fn read_tag(alloc: Global, text: &[u8]) -> Result<Option<Tag>, NegoFault>
    ensures { let lower = str_to_ascii_lowercase text.now in MatchResult result
        (λ found. MatchOption found (¬ IsTag lower) (λ tag. IsTag lower × (tag ≡ lower)))
        (λ fault. fault ≡ NoMemory) }
{
    match Tag::parse(alloc, text) {
        Ok(tag) => Ok(Some(tag)),
        Err(fault) => no_tag(fault),
    }
}

/// No tag, unless memory ran out.
fn no_tag(fault: LangFault) -> Result<Option<Tag>, NegoFault>
    ensures { MatchResult result (λ found. (found ≡ None) × (fault ≢ lang.NoMemory))
        (λ refused. refused ≡ NoMemory) }
{
    match fault {
        LangFault::NoMemory => Err(NegoFault::NoMemory),
        _ => Ok(None),
    }
}

/// Whether an element has this left side.
fn has_left(elements: &[Fallback], left: &Tag) -> bool
    ensures { result ≡ list_any (λ e. bytes_eq e.left left.now) elements.now }
{
    elements.iter().any(|element| element.left == *left)
}

/// Whether the text is one of these.
fn is_in(texts: &[String], text: &str) -> bool
    ensures { result ≡ list_any (λ other. bytes_eq (string_bytes other) text.now) texts.now }
{
    texts.iter().any(|other| other.as_str() == text)
}
