//! Language-map documents read.
ghost use Rattle.std.specs.Prelude.{◌≡◌, [], List, IsUtf8, MatchOption, MatchResult, true};
ghost use Rattle.json.specs.Lex.{tokens};
ghost use Rattle.json_docs.specs.FaultChecks.{OrMemory};
ghost use Rattle.json_docs.specs.Numbers.{are_in_range};
ghost use Rattle.json_docs.specs.declared.fault.DocCause.TheVariants.{NoMemory};
ghost use Rattle.row_docs.specs.Reading.{IsOfDocument, no_memory};
ghost use Rattle.map_docs.specs.MapsLabels.{AreLangMaps, RefusesLangMaps};
ghost use Rattle.map_docs.specs.Maps.{Labelled};

use crate::ascending::take_text;
use crate::labels::labels_of;
use crate::maps::LangMaps;
use crate::members::read_rows;
use crate::taking::TakeLabels;
use json::Scratch;
use json_docs::{DocCause, DocFault, Spot, check_numbers, text_in};
use std::alloc::Global;

/// The labels of a language-map document, in ascending order of key: an object from message id to
/// language map (JSON-LD 1.1, sections 4.6.2 and 9.8).
///
/// A member whose name begins with `@` is skipped. A string is a label of one text, an array one of
/// its strings; nulls are skipped, and where no string is left there is no label. Languages are
/// read without case.
///
/// Refused, with document 1, where the bytes are not UTF-8 (18) or no JSON text (19), where the
/// value is no object (20), and by its first row that fails, in byte order of the names: by its id
/// (10) or shape (20), or by its first key that fails: by its language (1 to 4), because an earlier
/// key is equal without case (22), or by its value's shape (20) or label (12, 11). Out of memory
/// (26) may come first, and means no document.
pub fn read_langmaps(alloc: Global, bytes: &[u8]) -> Result<LangMaps, DocFault>
    ensures { MatchResult result (AreLangMaps bytes.now)
        (OrMemory no_memory (IsOfDocument 1 (RefusesLangMaps bytes.now))) }
{
    langmaps_of_document(alloc, 1, bytes)
}

/// The labels of the input document with this number.
pub fn langmaps_of_document(
    alloc: Global,
    document: usize,
    bytes: &[u8],
) -> Result<LangMaps, DocFault>
    ensures { MatchResult result (AreLangMaps bytes.now)
        (OrMemory no_memory (IsOfDocument document (RefusesLangMaps bytes.now))) }
{
    match langmaps_in(alloc, bytes) {
        Ok(maps) => Ok(maps),
        Err(cause) => Err(DocFault::of_document(document, cause)),
    }
}

/// Gives the labels of the input document with this number to the taker, in ascending order of key.
/// Where the document has them in another order, or leaves some out, they are answered instead, and
/// the taker may have taken some: none is answered where the taker took them all.
///
/// Refused as [`read_langmaps`] is, with this document.
pub fn take_langmaps<T: TakeLabels>(
    alloc: Global,
    document: usize,
    bytes: &[u8],
    taker: &mut T,
) -> Result<Option<LangMaps>, DocFault>
    requires { T.Holds taker.old taker.old [] }
    ensures { MatchResult result
        (λ maps. MatchOption maps
        ((labels : List Labelled) × AreLangMaps bytes.now labels
        × T.Holds taker.old taker.new labels)
        (AreLangMaps bytes.now))
        (OrMemory no_memory (IsOfDocument document (RefusesLangMaps bytes.now))) }
{
    match taken_from(alloc, bytes, taker) {
        Ok(maps) => Ok(maps),
        Err(cause) => Err(DocFault::of_document(document, cause)),
    }
}

/// The labels of a document, or why it is refused.
fn langmaps_in(alloc: Global, bytes: &[u8]) -> Result<LangMaps, DocCause>
    ensures { MatchResult result (AreLangMaps bytes.now)
        (OrMemory NoMemory (RefusesLangMaps bytes.now)) }
{
    let mut taken = LangMaps::new(alloc);
    match taken_from(alloc, bytes, &mut taken)? {
        Some(maps) => Ok(maps),
        None => Ok(taken),
    }
}

/// Gives the labels of a document to the taker, or answers them.
fn taken_from<T: TakeLabels>(
    alloc: Global,
    bytes: &[u8],
    taker: &mut T,
) -> Result<Option<LangMaps>, DocCause>
    requires { T.Holds taker.old taker.old [] }
    ensures { MatchResult result
        (λ maps. MatchOption maps
        ((labels : List Labelled) × AreLangMaps bytes.now labels
        × T.Holds taker.old taker.new labels)
        (AreLangMaps bytes.now))
        (OrMemory NoMemory (RefusesLangMaps bytes.now)) }
{
    let text = text_in(bytes)?;
    let mut scratch = Scratch::new(alloc);
    if take_text(alloc, text, &mut scratch, taker).is_some() {
        return Ok(None);
    }
    check_numbers(text, &mut scratch)?;
    let maps = langmaps_of_text(alloc, text, &mut scratch)?;
    Ok(Some(maps))
}

/// The labels of a text in any order.
fn langmaps_of_text(alloc: Global, text: &str, scratch: &mut Scratch) -> Result<LangMaps, DocCause>
    requires utf8 { IsUtf8 text.now }
    requires range { are_in_range (tokens text.now) ≡ true }
    ensures { MatchResult result (AreLangMaps text.now)
        (OrMemory NoMemory (RefusesLangMaps text.now)) }
{
    match read_rows(alloc, text, scratch)? {
        Some(rows) => labels_of(alloc, rows),
        None => Err(DocCause::Shape {
            spot: Spot::Document,
        }),
    }
}
