//! What lookup tries for a range.
use lang_core::{LangFault, Range, Truncations};
use std::alloc::{AllocError, Global};
use std::process::Abort;
use std::test::Fail;

/// Adds each text, after a blank.
fn listed(first: String, texts: Truncations<'_>) -> Result<String, AllocError> {
    let mut list = first;
    for text in texts {
        list.push_str(" ")?;
        list.push_str(text)?;
    }
    Ok(list)
}

/// The specificity of a range, and each text that it is truncated to.
fn shown(alloc: Global, range: &Range) -> Result<String, AllocError> {
    listed(
        format!(in alloc; "{}", range.specificity())?,
        range.truncations(),
    )
}

fn of_basic(alloc: Global, text: &str) -> Result<String, LangFault> {
    Ok(shown(alloc, &Range::parse_basic(alloc, text.as_bytes())?)?)
}

fn of_extended(alloc: Global, text: &str) -> Result<String, LangFault> {
    Ok(shown(alloc, &Range::parse_extended(alloc, text.as_bytes())?)?)
}

/// Rows of `RANGE|SPECIFICITY TRUNCATIONS`, the lookup text first, of ranges of both kinds. The
/// example of RFC 4647 section 3.4 is the first.
const ROWS: &str =
    "zh-Hant-CN-x-private1-private2|6 zh-hant-cn-x-private1-private2 zh-hant-cn-x-private1 zh-hant-cn zh-hant zh
zh-a-b-foo|4 zh-a-b-foo zh
en-x-a-b|4 en-x-a-b en
i-klingon|2 i-klingon
x-foo|2 x-foo
i|1 i
en-x|2 en-x en
*|0 *";

/// The same of ranges that are extended ones alone.
const EXTENDED: &str = "zh-*-a-*-foo|3 zh-a-foo zh
de-*-DE|2 de-de de
de-*|1 de
*-CH|1 *";

fn all_extended(rt: &(impl Abort + AllocGlobal), rows: &str) -> Result<(), Fail> {
    for row in rows.lines() {
        let (text, expected) = row.split_once("|").unwrap_or((row, ""));
        let found = of_extended(rt.alloc(), text)?;
        assert!(rt; found.as_str() == expected, "{row}");
    }
    Ok(())
}

#[test]
fn of_extended_ranges(rt: HostRuntime) -> Result<(), Fail> {
    all_extended(&rt, ROWS)?;
    all_extended(&rt, EXTENDED)
}

#[test]
fn of_basic_ranges(rt: HostRuntime) -> Result<(), Fail> {
    for row in ROWS.lines() {
        let (text, expected) = row.split_once("|").unwrap_or((row, ""));
        let found = of_basic(rt.alloc(), text)?;
        assert!(rt; found.as_str() == expected, "{row}");
    }
    Ok(())
}

/// What is left of the truncations after the first, by a clone of them.
fn left(alloc: Global, text: &str) -> Result<String, Fail> {
    let range = Range::parse_basic(alloc, text.as_bytes())?;
    let mut truncations = range.truncations();
    let _ = truncations.next();
    let again = truncations.clone()?;
    Ok(listed(String::new(alloc), again)?)
}

#[test]
fn cloned(rt: HostRuntime) -> Result<(), Fail> {
    assert!(rt; left(rt.alloc(), "zh-Hant-CN")?.as_str() == " zh-hant zh");
    Ok(())
}
