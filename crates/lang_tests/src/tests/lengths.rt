//! The longest texts, and what is one byte longer.
use super::parsing::shown_tag;
use lang_core::{LangFault, Range};
use std::alloc::{AllocError, Global};
use std::test::Fail;

/// A text of 255 bytes, which begins so.
fn longest(alloc: Global, first: &str) -> Result<String, AllocError> {
    let mut text = String::from_str(alloc, first)?;
    for _ in 0..28 {
        text.push_str("-aaaaaaaa")?;
    }
    text.push_str("-a")?;
    Ok(text)
}

#[test]
fn tags(rt: HostRuntime) -> Result<(), Fail> {
    let alloc = rt.alloc();
    let mut text = longest(alloc, "x")?;
    assert!(rt; shown_tag(alloc, text.as_bytes())? == text);
    text.push_str("a")?;
    let found = shown_tag(alloc, text.as_bytes())?;
    assert!(rt; found.as_str() == "tag is over 255 bytes");
    let broken = longest(alloc, "_x")?;
    assert!(rt; shown_tag(alloc, broken.as_bytes())? == found);
    Ok(())
}

/// A text that is too long is that, whatever else is wrong with it.
#[test]
fn ranges(rt: HostRuntime) -> Result<(), Fail> {
    let alloc = rt.alloc();
    let text = longest(alloc, "x")?;
    assert!(rt; Range::parse_extended(alloc, text.as_bytes())?.specificity() == 30);
    let long = longest(alloc, "_x")?;
    let basic = Range::parse_basic(alloc, long.as_bytes()).err();
    assert!(rt; basic == Some(LangFault::RangeTooLong));
    let extended = Range::parse_extended(alloc, long.as_bytes()).err();
    assert!(rt; extended == Some(LangFault::RangeTooLong));
    Ok(())
}

/// The texts of refusals that no other row shows.
#[test]
fn refusals(rt: HostRuntime) -> Result<(), Fail> {
    let alloc = rt.alloc();
    let text = format!(in alloc; "{}", LangFault::RangeTooLong)?;
    assert!(rt; text.as_str() == "range is over 255 bytes");
    let text = format!(in alloc; "{}", LangFault::NoMemory)?;
    assert!(rt; text.as_str() == "out of memory");
    Ok(())
}
