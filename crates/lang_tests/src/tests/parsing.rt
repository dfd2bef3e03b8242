//! Texts of tags, languages and ranges, good and bad.
use super::columns;
use lang_core::{Lang, LangFault, Range, Tag};
use std::alloc::{AllocError, Global};
use std::test::Fail;

/// RFC 5646 appendix A, then the 17 irregular and the 9 regular grandfathered tags of section 2.1,
/// then others. `ar-a-aaa-b-bbb-a-ccc` repeats a singleton, which the grammar alone allows.
const TAGS: &str =
    "de fr ja i-enochian zh-Hant zh-Hans sr-Cyrl sr-Latn zh-cmn-Hans-CN cmn-Hans-CN zh-yue-HK yue-HK
zh-Hans-CN sr-Latn-RS sl-rozaj sl-rozaj-biske sl-nedis de-CH-1901 sl-IT-nedis hy-Latn-IT-arevela
de-DE en-US es-419 de-CH-x-phonebk az-Arab-x-AZE-derbend x-whatever qaa-Qaaa-QM-x-southern de-Qaaa
sr-Latn-QM sr-Qaaa-RS en-US-u-islamcal zh-CN-a-myext-x-private en-a-myext-b-another
ar-a-aaa-b-bbb-a-ccc
en-GB-oed i-ami i-bnn i-default i-enochian i-hak i-klingon i-lux i-mingo i-navajo i-pwn i-tao i-tay
i-tsu sgn-BE-FR sgn-BE-NL sgn-CH-DE
art-lojban cel-gaulish no-bok no-nyn zh-guoyu zh-hakka zh-min zh-min-nan zh-xiang
EN-X-A de-1901-1901 zh-abc-def-ghi-Latn-CN-1996-a-bb-x-1 abcdefgh";

/// Texts that break the grammar. RFC 5646 appendix A has the first two.
const ILL_FORMED: &str =
    "de-419-DE a-DE x en-a abcd-xyz en-x zh-abc-def-ghi-jkl 1a en-Latn-Cyrl en-a-b en-abc1
i-ami-x i-xyz en-GB-oede sgn-BE-DE";

/// Rows of `KIND|TEXT|ANSWER`.
const ROWS: &str = "tag||tag is empty\ntag|en_US|subtag at 0\ntag|-en|subtag at 0\ntag|-|subtag at 0
tag|@none|subtag at 0\ntag|e n|subtag at 0\ntag|\u{e9}n-US|subtag at 0\ntag|en\0|subtag at 0
tag|abcdefghi-|subtag at 0\ntag|en--us|subtag at 3\ntag|en-toolongsub|subtag at 3
tag|en-|subtag at 3\ntag|en-\u{20ac}|subtag at 3\ntag|en-a*|subtag at 3\ntag|en-U S|subtag at 3\ntag|en-_--|subtag at 3
lang|@none|@none\nlang|@NONE|subtag at 0\nlang|@none-x|subtag at 0\nlang| @none|subtag at 0
lang|@|subtag at 0\nlang||tag is empty\nlang|en-x|tag is not well-formed\nlang|DE-at|de-at
basic|*|*\nbasic|De-CH-1996|de-ch-1996\nbasic|i-klingon|i-klingon\nbasic|x|x
basic|abcdefgh-12345678|abcdefgh-12345678\nbasic||range is empty
basic|*-de|range subtag at 0\nbasic|*-|range subtag at 0\nbasic|1a|range subtag at 0
basic|-|range subtag at 0\nbasic|-de|range subtag at 0\nbasic|abcdefghi|range subtag at 0
basic|d e|range subtag at 0\nbasic|\u{e9}|range subtag at 0\nbasic|de-*|range subtag at 3
basic|de-123456789|range subtag at 3\nbasic|de-|range subtag at 3\nbasic|de--ch|range subtag at 3
basic|de-\0|range subtag at 3\nbasic|de-c*|range subtag at 3\nbasic|de-\u{20ac}|range subtag at 3
extended|*-CH|*-ch\nextended|*|*\nextended|de-*-DE|de-*-de\nextended||range is empty
extended|*-|range subtag at 2\nextended|*--de|range subtag at 2\nextended|*-123456789|range subtag at 2
extended|*-**|range subtag at 2\nextended|*-d\u{e9}|range subtag at 2\nextended|1-*|range subtag at 0
extended|**-de|range subtag at 0\nextended|-*|range subtag at 0\nextended|* -de|range subtag at 0";

pub fn shown_tag(alloc: Global, text: &[u8]) -> Result<String, AllocError> {
    match Tag::parse(alloc, text) {
        Ok(tag) => shown(alloc, Ok(tag.as_str())),
        Err(fault) => shown(alloc, Err(fault)),
    }
}

/// The text that was read, or what its refusal says.
fn shown(alloc: Global, text: Result<&str, LangFault>) -> Result<String, AllocError> {
    match text {
        Ok(text) => String::from_str(alloc, text),
        Err(fault) => format!(in alloc; "{fault}"),
    }
}

fn shown_range(alloc: Global, range: Result<Range, LangFault>) -> Result<String, AllocError> {
    match range {
        Ok(range) => shown(alloc, Ok(range.as_str())),
        Err(fault) => shown(alloc, Err(fault)),
    }
}

fn shown_lang(alloc: Global, text: &[u8]) -> Result<String, AllocError> {
    match Lang::parse(alloc, text) {
        Ok(lang) => shown(alloc, Ok(lang.as_str())),
        Err(fault) => shown(alloc, Err(fault)),
    }
}

/// What comes of a text of this kind.
fn shown_of_kind(alloc: Global, kind: &str, text: &[u8]) -> Result<String, AllocError> {
    match kind {
        "tag" => shown_tag(alloc, text),
        "lang" => shown_lang(alloc, text),
        "basic" => shown_range(alloc, Range::parse_basic(alloc, text)),
        _ => shown_range(alloc, Range::parse_extended(alloc, text)),
    }
}

/// Whether a tag is read in lower case, as written and in upper case.
fn is_read(alloc: Global, text: &str) -> Result<bool, AllocError> {
    let lower = text.to_ascii_lowercase(alloc)?;
    let upper = text.to_ascii_uppercase(alloc)?;
    Ok(shown_tag(alloc, text.as_bytes())? == lower && shown_tag(alloc, upper.as_bytes())? == lower)
}

#[test]
fn tags(rt: HostRuntime) -> Result<(), Fail> {
    for text in TAGS.split_whitespace() {
        assert!(rt; is_read(rt.alloc(), text)?, "{text}");
    }
    Ok(())
}

#[test]
fn ill_formed_tags(rt: HostRuntime) {
    for text in ILL_FORMED.split_whitespace() {
        let fault = Tag::parse(rt.alloc(), text.as_bytes()).err();
        assert!(rt; fault == Some(LangFault::TagNotWellFormed), "{text}");
    }
}

#[test]
fn rows(rt: HostRuntime) -> Result<(), Fail> {
    for row in ROWS.lines() {
        let (kind, text, expected, _) = columns(row);
        let found = shown_of_kind(rt.alloc(), kind, text.as_bytes())?;
        assert!(rt; found.as_str() == expected, "{row}");
    }
    Ok(())
}

#[test]
fn bytes_of_any_kind(rt: HostRuntime) {
    let tag = Tag::parse(rt.alloc(), b"en-\xff\xfe").err();
    assert!(rt; tag == Some(LangFault::TagSubtag { offset: 3 }));
    let range = Range::parse_basic(rt.alloc(), b"de-\xff").err();
    assert!(rt; range == Some(LangFault::RangeSubtag { offset: 3 }));
}
