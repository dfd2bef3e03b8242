//! Which range matches which tag.
use super::columns;
use lang_core::{LangFault, Range, Tag};
use std::alloc::Global;
use std::test::Fail;

/// Rows of `RANGE|TAGS|ANSWER` under extended filtering. RFC 4647 section 3.3.2 has those of
/// `de-*-DE` and `de-DE`.
const EXTENDED: &str =
    "de-*-DE|de-DE de-de de-Latn-DE de-Latf-DE de-DE-x-goethe de-Latn-DE-1996 de-Deva-DE|true
de-*-DE|de de-x-DE de-Deva|false
de-DE|de-DE de-de de-Latn-DE de-Latf-DE de-DE-x-goethe de-Latn-DE-1996 de-Deva-DE|true
de-DE|de de-x-DE de-Deva|false
*|de zh-Hant-CN x-a i-klingon|true
en-x-b|en-x-a-b|false
en-x-a|en-x-a-b|true
en-aaaaa-bbbbb|en-aaaaa-aaaaa-bbbbb|true
de-*|de de-DE|true
*-de|de|false
*-de|de-de sr-Latn-DE|true
en-bbb|en-a-bbb|false";

/// Whether the range matches the tag.
fn is_extended_match(alloc: Global, range: &str, tag: &str) -> Result<bool, LangFault> {
    let range = Range::parse_extended(alloc, range.as_bytes())?;
    Ok(range.matches_extended(&Tag::parse(alloc, tag.as_bytes())?))
}

#[test]
fn extended(rt: HostRuntime) -> Result<(), Fail> {
    for row in EXTENDED.lines() {
        let (range, tags, expected, _) = columns(row);
        for tag in tags.split_whitespace() {
            let is_match = is_extended_match(rt.alloc(), range, tag)?;
            assert_eq!(rt; is_match, expected == "true", "{row}: {tag}");
        }
    }
    Ok(())
}

/// The same under basic filtering. RFC 4647 section 3.3.1 has those of `de-de`.
const BASIC: &str = "de-de|de-DE-1996 de-de|true
de-de|de-Deva de-Latn-DE de|false
*|de zh-Hant-CN x-a i-klingon|true
de-*-de|de zh-Hant-CN x-a i-klingon de-de|false
de|de DE-at|true
de|deu en-de|false";

/// Whether the range, read as an extended one, matches the tag, and the tag's text.
fn are_basic_matches(alloc: Global, range: &str, text: &str) -> Result<(bool, bool), LangFault> {
    let range = Range::parse_extended(alloc, range.as_bytes())?;
    let tag = Tag::parse(alloc, text.as_bytes())?;
    Ok((range.matches_basic(&tag), range.matches_basic_text(text)))
}

#[test]
fn basic(rt: HostRuntime) -> Result<(), Fail> {
    for row in BASIC.lines() {
        let (range, tags, expected, _) = columns(row);
        let wanted = expected == "true";
        for tag in tags.split_whitespace() {
            let are_matches = are_basic_matches(rt.alloc(), range, tag)?;
            assert_eq!(rt; are_matches, (wanted, wanted), "{row}: {tag}");
        }
    }
    Ok(())
}

/// Rows of `RANGE|TEXT|ANSWER`, whose texts need be no tags.
const TEXTS: &str =
    "de|DE-at|true\nde|de-|true\nde|dE|true\nde|De--x|true\nde|deu|false\nde||false\nde|d|false
de|@none|false\nde|de_AT|false\nde|d\u{e9}|false\nde|-de|false\nde|de |false\n*|@none|true\n*||true\n*|DE-at|true\n*|deu|true\n*|d\u{e9}|true";

#[test]
fn texts(rt: HostRuntime) -> Result<(), Fail> {
    for row in TEXTS.lines() {
        let (range, text, expected, _) = columns(row);
        let range = Range::parse_basic(rt.alloc(), range.as_bytes())?;
        assert!(rt;
            range.matches_basic_text(text) == (expected == "true"),
            "{row}"
        );
    }
    Ok(())
}
