//! Widened lookup: a range finds the languages that it matches too.
use crate::tests::reading::{columns, default_of, langs, lent, list_of};
use crate::tests::shortlists::agrees_cut;
use lang_core::Lang;
use nego_core::{
    Found, PriorityList, Scheme, Widening, lookup_by, lookup_widened, lookup_widened_lent,
};
use std::process::Abort;
use std::test::Fail;

/// The scheme under which `list_of` reads the field.
fn scheme_of(field: &str) -> Scheme {
    if field.starts_with("ranges: ") {
        Scheme::Extended
    } else {
        Scheme::Basic
    }
}

/// What the three calls find among languages, which has to be the same.
fn found_by_three(
    rt: &(impl Abort + AllocGlobal),
    list: &PriorityList,
    scheme: Scheme,
    langs: &[Lang],
    default: Option<&Lang>,
) -> Result<Found, Fail> {
    let found = lookup_widened(list, scheme, langs, default);
    assert!(rt; lookup_by(list, Widening::By(scheme), langs, default) == found);
    let lent = lent(rt, langs)?;
    assert!(rt; lookup_widened_lent(list, scheme, &lent, default) == found);
    Ok(found)
}

/// What they find, and a list cut to these languages and others, which has to be the same.
fn found_by_each(
    rt: &(impl Abort + AllocGlobal),
    list: &PriorityList,
    scheme: Scheme,
    texts: &str,
    default: Option<&Lang>,
) -> Result<Found, Fail> {
    let found = found_by_three(rt, list, scheme, &langs(rt, texts)?, default)?;
    agrees_cut(rt, list, Widening::By(scheme), texts, default, found)?;
    Ok(found)
}

fn found_of_field(
    rt: &(impl Abort + AllocGlobal),
    field: &str,
    scheme: Scheme,
    texts: &str,
    default: &str,
) -> Result<Found, Fail> {
    let list = list_of(rt, field)?;
    found_by_each(rt, &list, scheme, texts, default_of(rt, default)?.as_ref())
}

/// Rows of `FIELD|LANGUAGES|DEFAULT|ANSWER`.
const ROWS: &str = "en|en-US fr||Matched(0)
fr-FR, fr;q=0.9, en;q=0.7|en fr-CA||Matched(1)
de, en;q=0.5|en-US de-CH de-AT||Matched(2)
en, en-US;q=0|en-US en-GB||Matched(1)
de-AT, de;q=0.5|de-CH de||Matched(1)
zh-Hant|zh-TW||Nothing
*|de fr|fr|Default(1)
*|de||Nothing
ranges: de-*-DE|de-Latn-DE||Matched(0)
ja|@none|en|Nothing
ranges: de-DE|de-Latn-DE||Matched(0)
ranges: *-DE|de-DE||Nothing
fr, en|en fr-CA||Matched(1)
de|de-CH DE-AT de-at||Matched(1)
de|de-CH de||Matched(1)
de|en-US|en|Nothing
de|en-US en|en|Default(1)
de, *;q=0|en|en|Nothing
en, *;q=0|en-US||Matched(0)
en;q=0|en-US||Nothing
*|@none|@none|Default(0)";

#[test]
fn widened(rt: HostRuntime) -> Result<(), Fail> {
    for row in ROWS.lines() {
        let (field, texts, default, expected) = columns(row);
        let found = found_of_field(&rt, field, scheme_of(field), texts, default)?;
        let shown = format!(in rt.alloc(); "{found:?}")?;
        assert!(rt; shown.as_str() == expected, "{row}: {shown}");
    }
    Ok(())
}

/// Under the basic match a range with an inner "*" matches nothing, and an extended one skips
/// subtags.
#[test]
fn by_the_scheme(rt: HostRuntime) -> Result<(), Fail> {
    let found = found_of_field(&rt, "ranges: de-*-DE", Scheme::Basic, "de-Latn-DE", "")?;
    assert!(rt; found == Found::Nothing);
    let found = found_of_field(&rt, "de-DE", Scheme::Basic, "de-Latn-DE", "")?;
    assert!(rt; found == Found::Nothing);
    let found = found_of_field(&rt, "de-DE", Scheme::Extended, "de-Latn-DE", "")?;
    assert!(rt; found == Found::Matched(0));
    Ok(())
}

fn found_unwidened(
    rt: &(impl Abort + AllocGlobal),
    field: &str,
    texts: &str,
) -> Result<Found, Fail> {
    let list = list_of(rt, field)?;
    Ok(lookup_by(&list, Widening::Off, &langs(rt, texts)?, None))
}

#[test]
fn not_widened(rt: HostRuntime) -> Result<(), Fail> {
    let field = "en-GB, fr;q=0.5";
    assert!(rt; found_unwidened(&rt, field, "en-us fr-ca")? == Found::Nothing);
    assert!(rt; found_unwidened(&rt, field, "en-us en")? == Found::Matched(1));
    Ok(())
}
