//! Languages, tags and ranges as values.
use super::columns;
use lang_core::{Lang, LangFault, Range, Subtags, Tag};
use std::alloc::{AllocError, Global};
use std::hash::{DefaultHasher, Hash, Hasher};
use std::test::Fail;

fn tag(alloc: Global, text: &str) -> Result<Tag, LangFault> {
    Tag::parse(alloc, text.as_bytes())
}

fn lang(alloc: Global, text: &str) -> Result<Lang, LangFault> {
    Lang::parse(alloc, text.as_bytes())
}

fn basic(alloc: Global, text: &str) -> Result<Range, LangFault> {
    Range::parse_basic(alloc, text.as_bytes())
}

fn extended(alloc: Global, text: &str) -> Result<Range, LangFault> {
    Range::parse_extended(alloc, text.as_bytes())
}

/// Whether one language is less than another, and not equal to it.
fn is_below(alloc: Global, low: &str, high: &str) -> Result<bool, LangFault> {
    let (low, high) = (lang(alloc, low)?, lang(alloc, high)?);
    Ok(low.cmp(&high).is_lt() && low != high)
}

/// Rows of `LOW|HIGH`.
const ORDERED: &str = "@none|de\nde|de-at\nde-at|de-ch\nde-ch|deu\ndeu|en";

#[test]
fn order(rt: HostRuntime) -> Result<(), Fail> {
    for row in ORDERED.lines() {
        let (low, high, _, _) = columns(row);
        assert!(rt; is_below(rt.alloc(), low, high)?, "{row}");
    }
    Ok(())
}

fn is_copied_tag(alloc: Global, tag: &Tag) -> Result<bool, AllocError> {
    Ok(tag.copy(alloc)? == *tag)
}

fn is_copied_lang(alloc: Global, lang: &Lang) -> Result<bool, AllocError> {
    Ok(lang.copy(alloc)? == *lang)
}

fn is_copied_range(alloc: Global, range: &Range) -> Result<bool, AllocError> {
    let copy = range.copy(alloc)?;
    Ok(copy == *range && copy.lookup_text() == range.lookup_text())
}

#[test]
fn copies(rt: HostRuntime) -> Result<(), Fail> {
    let alloc = rt.alloc();
    assert!(rt; is_copied_tag(alloc, &tag(alloc, "en")?)?);
    assert!(rt; is_copied_lang(alloc, &lang(alloc, "en")?)?);
    assert!(rt; is_copied_lang(alloc, &Lang::none())?);
    assert!(rt; is_copied_range(alloc, &basic(alloc, "en-GB")?)?);
    assert!(rt; is_copied_range(alloc, &extended(alloc, "en-*-GB")?)?);
    Ok(())
}

fn has_lookup_text(alloc: Global, range: &str, text: &str) -> Result<bool, LangFault> {
    Ok(extended(alloc, range)?.lookup_text() == text)
}

fn is_basic_range(alloc: Global, range: &str, text: &str) -> Result<bool, LangFault> {
    Ok(extended(alloc, range)? == basic(alloc, text)?)
}

#[test]
fn ranges_of_one_lookup_text(rt: HostRuntime) -> Result<(), Fail> {
    assert!(rt; has_lookup_text(rt.alloc(), "en-*-GB", "en-gb")?);
    assert!(rt; !is_basic_range(rt.alloc(), "en-*-GB", "en-GB")?);
    Ok(())
}

/// Whether the language that is made of a tag is that of the tag's text.
fn is_of_tag(alloc: Global, text: &str) -> Result<bool, LangFault> {
    Ok(Lang::from(tag(alloc, text)?) == lang(alloc, text)?)
}

/// Whether the tag of the language is that of the language's text.
fn gives_tag(alloc: Global, text: &str) -> Result<bool, LangFault> {
    Ok(lang(alloc, text)?.into_tag() == Some(tag(alloc, text)?))
}

#[test]
fn tags_and_languages(rt: HostRuntime) -> Result<(), Fail> {
    assert!(rt; is_of_tag(rt.alloc(), "de-AT")?);
    assert!(rt; gives_tag(rt.alloc(), "de-AT")?);
    assert!(rt; Lang::none().into_tag().is_none());
    Ok(())
}

/// What a value adds to a hasher.
fn hash_of<T: Hash>(value: &T) -> u64 {
    let mut hasher = DefaultHasher::new();
    value.hash(&mut hasher);
    hasher.finish()
}

fn hash_of_tag(alloc: Global, text: &str) -> Result<u64, LangFault> {
    Ok(hash_of(&tag(alloc, text)?))
}

fn hash_of_lang(alloc: Global, text: &str) -> Result<u64, LangFault> {
    Ok(hash_of(&lang(alloc, text)?))
}

#[test]
fn hashes(rt: HostRuntime) -> Result<(), Fail> {
    let alloc = rt.alloc();
    let (of_tag, of_none) = (hash_of(&"de-at"), hash_of(&"@none"));
    assert!(rt; of_tag != of_none);
    assert!(rt; hash_of_tag(alloc, "de-AT")? == of_tag);
    assert!(rt; hash_of_lang(alloc, "de-AT")? == of_tag);
    assert!(rt; hash_of_lang(alloc, "@none")? == of_none);
    Ok(())
}

/// The subtags, each before a blank.
fn listed(alloc: Global, subtags: Subtags<'_>) -> Result<String, AllocError> {
    let mut list = String::new(alloc);
    for subtag in subtags {
        list.push_str(subtag)?;
        list.push_str(" ")?;
    }
    Ok(list)
}

/// The subtags of a tag after the first, and then of their clone after the first.
fn rests(alloc: Global, tag: &Tag) -> Result<String, Fail> {
    let mut subtags = tag.subtags();
    let _ = subtags.next();
    let mut again = subtags.clone()?;
    let _ = again.next();
    Ok(format!(in alloc; "{subtags:?} {again:?}")?)
}

#[test]
fn subtags_of_tags(rt: HostRuntime) -> Result<(), Fail> {
    let alloc = rt.alloc();
    let tag = tag(alloc, "zh-Hant-CN")?;
    assert!(rt; listed(alloc, tag.subtags())?.as_str() == "zh hant cn ");
    let expected = r#"Subtags { rest: Some("hant-cn") } Subtags { rest: Some("cn") }"#;
    assert!(rt; rests(alloc, &tag)?.as_str() == expected);
    Ok(())
}

#[test]
fn subtags_of_ranges(rt: HostRuntime) -> Result<(), Fail> {
    let alloc = rt.alloc();
    let range = extended(alloc, "zh-*-Hant")?;
    assert!(rt; listed(alloc, range.subtags())?.as_str() == "zh * hant ");
    Ok(())
}

fn shown_tag(alloc: Global, text: &str) -> Result<String, LangFault> {
    let tag = tag(alloc, text)?;
    Ok(format!(in alloc; "{tag}|{tag:>8}|{tag:.2}")?)
}

fn shown_lang(alloc: Global, text: &str) -> Result<String, LangFault> {
    let lang = lang(alloc, text)?;
    Ok(format!(in alloc; "{lang}|{lang:8}|")?)
}

fn shown_range(alloc: Global, text: &str) -> Result<String, LangFault> {
    let range = extended(alloc, text)?;
    Ok(format!(in alloc; "{range}|{range:*^10}")?)
}

/// As they are, and in columns.
#[test]
fn shown(rt: HostRuntime) -> Result<(), Fail> {
    let alloc = rt.alloc();
    assert!(rt; shown_tag(alloc, "de-AT")?.as_str() == "de-at|   de-at|de");
    assert!(rt; shown_lang(alloc, "@none")?.as_str() == "@none|@none   |");
    assert!(rt; shown_lang(alloc, "DE-at")?.as_str() == "de-at|de-at   |");
    assert!(rt; shown_range(alloc, "de-*")?.as_str() == "de-*|***de-****");
    Ok(())
}
