//! Makes what the tests speak of from texts.

use super::words::Words;
use cata_core::{CataFault, Catalogue, Edit, Site};
use cell_core::{Cell, Label, MessageId, SiteName, Stamp};
use lang_core::Lang;
use nego_core::{PriorityList, Scheme};
use std::alloc::Global;
use std::test::Fail;

/// A site's name: that of a number, or else the word itself.
pub fn name(word: &str) -> Result<SiteName, Fail> {
    match word.parse::<u32>() {
        Ok(number) => Ok(SiteName::of_number(number)),
        Err(_) => Ok(SiteName::new(word)?),
    }
}

pub fn id(alloc: Global, word: &str) -> Result<MessageId, Fail> {
    Ok(MessageId::new(alloc, word)?)
}

pub fn lang(alloc: Global, word: &str) -> Result<Lang, Fail> {
    Ok(Lang::parse(alloc, word.as_bytes())?)
}

/// A label of one text.
pub fn label(alloc: Global, text: &str) -> Result<Label, Fail> {
    let mut texts = Vec::new(alloc);
    texts.push(text.to_string(alloc)?)?;
    Ok(Label::from_texts(texts)?)
}

/// A stamp: a time, a site and a count.
pub fn stamp(words: &mut Words) -> Result<Stamp, Fail> {
    let time = words.number()?;
    let site = name(words.word())?;
    let count = u32::try_from(words.number()?)?;
    Ok(Stamp { time, site, count })
}

/// A stamp, then the text of a label or "-" for a deletion.
pub fn cell(alloc: Global, words: &mut Words) -> Result<Cell, Fail> {
    let stamp = stamp(words)?;
    match words.word() {
        "-" => Ok(Cell::new(stamp, None)),
        text => Ok(Cell::new(stamp, Some(label(alloc, text)?))),
    }
}

/// A message, a language and a cell.
pub fn edit_of(alloc: Global, words: &mut Words) -> Result<Edit, Fail> {
    let id = id(alloc, words.word())?;
    let lang = lang(alloc, words.word())?;
    Ok(Edit::new(id, lang, cell(alloc, words)?))
}

pub fn edit(alloc: Global, text: &str) -> Result<Edit, Fail> {
    edit_of(alloc, &mut Words::new(text))
}

/// Applies edits, between semicolons. The empty text has none.
pub fn catalogue(alloc: Global, text: &str) -> Result<Catalogue, Fail> {
    let mut catalogue = Catalogue::new(alloc);
    if text.is_empty() {
        return Ok(catalogue);
    }
    for edit_text in text.split("; ") {
        apply(alloc, &mut catalogue, edit_text)?;
    }
    Ok(catalogue)
}

/// A site that holds edits.
pub fn site(alloc: Global, word: &str, text: &str) -> Result<Site, Fail> {
    Ok(Site::from_catalogue(name(word)?, catalogue(alloc, text)?))
}

/// A site that holds nothing.
pub fn empty_site(alloc: Global, word: &str) -> Result<Site, Fail> {
    Ok(Site::new(alloc, name(word)?))
}

/// Puts a text for `m` in English.
pub fn put(
    alloc: Global,
    site: &mut Site,
    now: u64,
    text: &str,
) -> Result<Result<Stamp, CataFault>, Fail> {
    let (id, lang, label) = (id(alloc, "m")?, lang(alloc, "en")?, label(alloc, text)?);
    Ok(site.put(alloc, now, &id, &lang, &label))
}

pub fn scheme(word: &str) -> Scheme {
    match word {
        "extended" => Scheme::Extended,
        _ => Scheme::Basic,
    }
}

/// A priority list by the reader of its scheme.
pub fn list(alloc: Global, scheme: Scheme, field: &str) -> Result<PriorityList, Fail> {
    match scheme {
        Scheme::Basic => Ok(PriorityList::from_accept(alloc, field.as_bytes())?),
        Scheme::Extended => Ok(PriorityList::from_ranges(alloc, field.as_bytes())?),
    }
}

/// A language, or none for "-".
pub fn default(alloc: Global, word: &str) -> Result<Option<Lang>, Fail> {
    match word {
        "-" => Ok(None),
        _ => Ok(Some(lang(alloc, word)?)),
    }
}

fn apply(alloc: Global, catalogue: &mut Catalogue, text: &str) -> Result<(), Fail> {
    let edit = edit(alloc, text)?;
    Ok(catalogue.apply(alloc, &edit)?)
}
