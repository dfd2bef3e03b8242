//! The item that decides a tag.
use crate::tests::reading::{list_of, tag};
use nego_core::{PriorityList, Scheme};
use std::process::Abort;
use std::test::Fail;

/// The place of the item that decides a tag, and its weight.
fn decision(
    rt: &(impl Abort + AllocGlobal),
    list: &PriorityList,
    scheme: Scheme,
    text: &str,
) -> Result<(Option<usize>, Option<u16>), Fail> {
    let tag = tag(rt, text)?;
    Ok((list.item_for(scheme, &tag), list.weight_for(scheme, &tag)))
}

fn shown(
    rt: &(impl Abort + AllocGlobal),
    decision: (Option<usize>, Option<u16>),
) -> Result<String, Fail> {
    match decision {
        (Some(place), Some(weight)) => Ok(format!(in rt.alloc(); "{place} {weight}")?),
        (None, None) => Ok(String::new(rt.alloc())),
        _ => Ok("one of two".to_string(rt.alloc())?),
    }
}

/// Checks rows of `TAG|PLACE WEIGHT`, where nothing after the bar says that no item decides.
fn decides(
    rt: &(impl Abort + AllocGlobal),
    list: &PriorityList,
    scheme: Scheme,
    rows: &str,
) -> Result<(), Fail> {
    for row in rows.lines() {
        let (text, expected) = row.split_once("|").unwrap_or((row, ""));
        let shown = shown(rt, decision(rt, list, scheme, text)?)?;
        assert!(rt; shown.as_str() == expected, "{row}");
    }
    Ok(())
}

/// The same of the list of a field.
pub fn field_decides(
    rt: &(impl Abort + AllocGlobal),
    field: &str,
    scheme: Scheme,
    rows: &str,
) -> Result<(), Fail> {
    decides(rt, &list_of(rt, field)?, scheme, rows)
}

/// Rows of `FIELD|TAG|PLACE WEIGHT`, of both schemes.
const BY_BOTH: &str = "en;q=0, *;q=0.1, en-GB;q=0.5, en;q=0.5, de-de|EN-US|0 0
en;q=0, *;q=0.1, en-GB;q=0.5, en;q=0.5, de-de|en-GB-oed|2 500
en;q=0, *;q=0.1, en-GB;q=0.5, en;q=0.5, de-de|fr|1 100
en;q=0, *;q=0.1, en-GB;q=0.5, en;q=0.5, de-de|de|1 100
en;q=0, *;q=0.1, en-GB;q=0.5, en;q=0.5, de-de|de-DE-1996|4 1000
en;q=0, en;q=0.5|en|0 0
de, de-deva;q=0.3|den|
de, de-deva;q=0.3|de-Deva-DE|1 300
de, de-deva;q=0.3|de-Devanaga|0 1000
|de|
ranges: |de|";

/// The same of the extended scheme.
const BY_EXTENDED: &str = "en, *;q=0.1, de-de|de-Latn-DE|2 1000
ranges: de-*-DE, *-CH, de-*, *-*-ch|de-DE|0 1000
ranges: de-*-DE, *-CH, de-*, *-*-ch|de-Latn-DE-1996|0 1000
ranges: de-*-DE, *-CH, de-*, *-*-ch|de-AT|2 1000
ranges: de-*-DE, *-CH, de-*, *-*-ch|fr-CH|1 1000
ranges: de-*-DE, *-CH, de-*, *-*-ch|de-x-DE|2 1000
ranges: de-*-DE, *-CH, de-*, *-*-ch|fr|";

/// The same of the basic scheme.
const BY_BASIC: &str = "en, *;q=0.1, de-de|de-Latn-DE|1 100\nranges: de-*-DE, de-*|de-DE|";

fn rows(rt: &(impl Abort + AllocGlobal), scheme: Scheme, rows: &str) -> Result<(), Fail> {
    for row in rows.lines() {
        let (field, rest) = row.split_once("|").unwrap_or((row, ""));
        field_decides(rt, field, scheme, rest)?;
    }
    Ok(())
}

#[test]
fn by_the_basic_scheme(rt: HostRuntime) -> Result<(), Fail> {
    rows(&rt, Scheme::Basic, BY_BOTH)?;
    rows(&rt, Scheme::Basic, BY_BASIC)
}

#[test]
fn by_the_extended_scheme(rt: HostRuntime) -> Result<(), Fail> {
    rows(&rt, Scheme::Extended, BY_BOTH)?;
    rows(&rt, Scheme::Extended, BY_EXTENDED)
}
