//! Helpers: what is read from texts, and what is shown as a text.
use lang_core::{Lang, Tag};
use nego_core::PriorityList;
use std::process::Abort;
use std::test::Fail;

pub fn accept(rt: &(impl Abort + AllocGlobal), field: &str) -> Result<PriorityList, Fail> {
    Ok(PriorityList::from_accept(rt.alloc(), field.as_bytes())?)
}

pub fn ranges(rt: &(impl Abort + AllocGlobal), field: &str) -> Result<PriorityList, Fail> {
    Ok(PriorityList::from_ranges(rt.alloc(), field.as_bytes())?)
}

pub fn tag(rt: &(impl Abort + AllocGlobal), text: &str) -> Result<Tag, Fail> {
    Ok(Tag::parse(rt.alloc(), text.as_bytes())?)
}

pub fn lang(rt: &(impl Abort + AllocGlobal), text: &str) -> Result<Lang, Fail> {
    Ok(Lang::parse(rt.alloc(), text.as_bytes())?)
}

/// The language of a text, or none of the empty one.
pub fn default_of(rt: &(impl Abort + AllocGlobal), text: &str) -> Result<Option<Lang>, Fail> {
    if text.is_empty() {
        return Ok(None);
    }
    Ok(Some(lang(rt, text)?))
}

/// The languages of a text, between blanks.
pub fn langs(rt: &(impl Abort + AllocGlobal), texts: &str) -> Result<Vec<Lang>, Fail> {
    let mut all = Vec::new(rt.alloc());
    for text in texts.split_whitespace() {
        all.push(lang(rt, text)?)?;
    }
    Ok(all)
}

/// The languages, borrowed.
pub fn lent<'a>(rt: &(impl Abort + AllocGlobal), langs: &'a [Lang]) -> Result<Vec<&'a Lang>, Fail> {
    let mut all = Vec::new(rt.alloc());
    for lang in langs {
        all.push(lang)?;
    }
    Ok(all)
}

/// The columns of a row, between bars. Those that are not there are empty.
pub fn columns(row: &str) -> (&str, &str, &str, &str) {
    let (first, rest) = row.split_once("|").unwrap_or((row, ""));
    let (second, rest) = rest.split_once("|").unwrap_or((rest, ""));
    let (third, fourth) = rest.split_once("|").unwrap_or((rest, ""));
    (first, second, third, fourth)
}

/// The list of a field, which is read as extended ranges where it begins with "ranges: ".
pub fn list_of(rt: &(impl Abort + AllocGlobal), field: &str) -> Result<PriorityList, Fail> {
    match field.strip_prefix("ranges: ") {
        Some(field) => ranges(rt, field),
        None => accept(rt, field),
    }
}

/// Checks the ranges and weights of a list.
pub fn has_items(
    rt: &(impl Abort + AllocGlobal),
    list: &PriorityList,
    items: &str,
) -> Result<(), Fail> {
    let shown = shown(rt, list)?;
    assert!(rt; shown.as_str().trim() == items, "{shown}");
    Ok(())
}

/// Checks the ranges and weights of the list of a field.
pub fn reads(rt: &(impl Abort + AllocGlobal), field: &str, items: &str) -> Result<(), Fail> {
    has_items(rt, &list_of(rt, field)?, items)
}

/// Each range of the list with its weight.
fn shown(rt: &(impl Abort + AllocGlobal), list: &PriorityList) -> Result<String, Fail> {
    let mut text = String::new(rt.alloc());
    for item in list.items() {
        let shown = format!(in rt.alloc(); " {};{}", item.range(), item.weight())?;
        text.push_str(shown.as_str())?;
    }
    Ok(text)
}
