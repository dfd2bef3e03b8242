//! Filtering (RFC 4647 section 3.3).
use crate::tests::reading::{columns, langs, lent, list_of};
use lang_core::Lang;
use nego_core::{Picks, PriorityList, Scheme, filter, filter_lent};
use std::process::Abort;
use std::test::Fail;

/// Rows of `FIELD|LANGUAGES|PLACE;WEIGHT ..` under the basic scheme. RFC 4647 section 3.3.1 has the
/// first.
const BASIC: &str = "de-de|de-DE-1996 de-Deva de-Latn-DE|0;1000
en, en-GB;q=0|en en-gb en-us|0;1000 2;1000
da, en-gb;q=0.8, en;q=0.7|en da-DK en-GB-oed @none en|1;1000 2;800 0;700 4;700
fr;q=0.5, en|@none en fr|1;1000 2;500
|en|
en;q=0, en;q=0.5|en|
*|@none en|1;1000
en, *;q=0|fr en|1;1000
en;q=0.5|en-us en-gb en|2;500 1;500 0;500";

/// The same under the extended scheme. RFC 4647 section 3.3.2 has the last two: first the tags that
/// the ranges match, then those that they do not.
const EXTENDED: &str =
    "ranges: de-*-DE|de-DE de-Latn-DE de-DE-x-goethe de-Deva-DE de de-x-DE de-Deva|0;1000 2;1000 3;1000 1;1000
ranges: de-DE|de-DE de-de de-Latn-DE de-Latf-DE de-DE-x-goethe de-Latn-DE-1996 de-Deva-DE de de-x-DE de-Deva|0;1000 1;1000 4;1000 6;1000 3;1000 2;1000 5;1000
ranges: de-*-DE|de-DE de-de de-Latn-DE de-Latf-DE de-DE-x-goethe de-Latn-DE-1996 de-Deva-DE de de-x-DE de-Deva|0;1000 1;1000 4;1000 6;1000 3;1000 2;1000 5;1000";

fn filtered_of(
    rt: &(impl Abort + AllocGlobal),
    list: &PriorityList,
    scheme: Scheme,
    langs: &[Lang],
) -> Result<String, Fail> {
    shown(rt, &filter(rt.alloc(), list, scheme, langs)?)
}

fn filtered_of_lent(
    rt: &(impl Abort + AllocGlobal),
    list: &PriorityList,
    scheme: Scheme,
    langs: &[Lang],
) -> Result<String, Fail> {
    let lent = lent(rt, langs)?;
    shown(rt, &filter_lent(rt.alloc(), list, scheme, &lent)?)
}

/// What a list picks among languages that it is given, or that it borrows.
fn picked_of_both(
    rt: &(impl Abort + AllocGlobal),
    list: &PriorityList,
    scheme: Scheme,
    langs: &[Lang],
) -> Result<String, Fail> {
    let found = filtered_of(rt, list, scheme, langs)?;
    assert!(rt; filtered_of_lent(rt, list, scheme, langs)? == found);
    Ok(found)
}

fn picked_among(
    rt: &(impl Abort + AllocGlobal),
    field: &str,
    scheme: Scheme,
    texts: &str,
) -> Result<String, Fail> {
    let list = list_of(rt, field)?;
    picked_of_both(rt, &list, scheme, &langs(rt, texts)?)
}

/// Checks what the list of a field picks among languages.
pub fn picks(
    rt: &(impl Abort + AllocGlobal),
    field: &str,
    scheme: Scheme,
    texts: &str,
    expected: &str,
) -> Result<(), Fail> {
    let found = picked_among(rt, field, scheme, texts)?;
    assert!(rt; found.as_str().trim() == expected, "{found} of {texts}");
    Ok(())
}

/// Each pick's place with its weight.
fn shown(rt: &(impl Abort + AllocGlobal), picks: &Picks) -> Result<String, Fail> {
    assert_places(rt, picks);
    let mut text = String::new(rt.alloc());
    for pick in picks.iter() {
        let shown = format!(in rt.alloc(); " {};{}", pick.place, pick.weight)?;
        text.push_str(shown.as_str())?;
    }
    Ok(text)
}

/// Each pick is found at its place, and no other is.
fn assert_places(rt: &impl Abort, picks: &Picks) {
    for (place, pick) in picks.iter().enumerate() {
        assert!(rt; picks.nth(place) == Some(*pick));
    }
    assert!(rt; picks.nth(picks.len()) == None);
    assert!(rt; picks.is_empty() == (picks.len() == 0));
}

fn rows(rt: &(impl Abort + AllocGlobal), scheme: Scheme, rows: &str) -> Result<(), Fail> {
    for row in rows.lines() {
        let (field, texts, expected, _) = columns(row);
        picks(rt, field, scheme, texts, expected)?;
    }
    Ok(())
}

#[test]
fn filtered(rt: HostRuntime) -> Result<(), Fail> {
    rows(&rt, Scheme::Basic, BASIC)?;
    rows(&rt, Scheme::Extended, EXTENDED)
}

/// What is picked of English and French.
fn picked(rt: &(impl Abort + AllocGlobal), field: &str) -> Result<Picks, Fail> {
    let langs = langs(rt, "en fr")?;
    let list = list_of(rt, field)?;
    Ok(filter(rt.alloc(), &list, Scheme::Basic, &langs)?)
}

fn are_alike(rt: &(impl Abort + AllocGlobal), one: &str, other: &str) -> Result<bool, Fail> {
    Ok(picked(rt, one)? == picked(rt, other)?)
}

#[test]
fn compared(rt: HostRuntime) -> Result<(), Fail> {
    assert!(rt; are_alike(&rt, "fr;q=0.5", "de, fr;q=0.5")?);
    assert!(rt; !are_alike(&rt, "fr;q=0.5", "fr")?);
    Ok(())
}

#[test]
fn shown_for_debugging(rt: HostRuntime) -> Result<(), Fail> {
    let shown = format!(in rt.alloc(); "{:?}", picked(&rt, "fr;q=0.5")?)?;
    assert!(rt;
        shown.as_str() == "[Pick { place: 1, weight: 500 }]",
        "{shown}"
    );
    Ok(())
}
