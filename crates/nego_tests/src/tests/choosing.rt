//! What `choose` gives to borrow, over a slice of languages and over an empty set.
use crate::tests::held::Empty;
use crate::tests::reading::{accept, lang, langs, ranges};
use lang_core::Lang;
use nego_core::{Choice, choose};
use std::process::Abort;
use std::test::Fail;

fn is_lent(rt: &(impl Abort + AllocGlobal), field: &str, text: &str) -> Result<bool, Fail> {
    let list = ranges(rt, field)?;
    let german = langs(rt, "de de-de")?;
    Ok(choose(&list, &german.as_slice(), None) == Choice::Matched(text))
}

#[test]
fn lends_a_lookup_text(rt: HostRuntime) -> Result<(), Fail> {
    assert!(rt; is_lent(&rt, "de-*-DE", "de-de")?);
    Ok(())
}

fn is_nothing(
    rt: &(impl Abort + AllocGlobal),
    field: &str,
    default: Option<&Lang>,
) -> Result<bool, Fail> {
    Ok(choose(&accept(rt, field)?, &Empty, default) == Choice::Nothing)
}

#[test]
fn nothing_held(rt: HostRuntime) -> Result<(), Fail> {
    assert!(rt; is_nothing(&rt, "en, *", None)?);
    assert!(rt; is_nothing(&rt, "en, *", Some(&lang(&rt, "en")?))?);
    Ok(())
}
