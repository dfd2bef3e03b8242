//! Lookup (RFC 4647 section 3.4) over a list of languages, and by `choose` over a set.
use crate::tests::reading::{columns, default_of, langs, list_of};
use crate::tests::shortlists::agrees_cut;
use lang_core::Lang;
use nego_core::{Choice, Found, PriorityList, Widening, choose, lookup};
use std::process::Abort;
use std::test::Fail;

/// Rows of `FIELD|LANGUAGES|DEFAULT|ANSWER`. The first eight are the example of RFC 4647 section
/// 3.4, at each of its steps.
const ROWS: &str =
    "zh-Hant-CN-x-private1-private2|zh-x-other zh-Hant-CN-x-private1-private2 zh-Hant-CN-x-private1||Matched(1)
zh-Hant-CN-x-private1-private2|zh-x-other zh-Hant-CN-x-private1 zh-Hant-CN||Matched(1)
zh-Hant-CN-x-private1-private2|zh-x-other zh-Hant-CN zh-Hant||Matched(1)
zh-Hant-CN-x-private1-private2|zh-x-other zh-Hant zh||Matched(1)
zh-Hant-CN-x-private1-private2|zh-x-other zh en||Matched(1)
zh-Hant-CN-x-private1-private2|zh-Latn en|en|Default(1)
zh-Hant-CN-x-private1-private2|zh-hant zh||Matched(0)
zh-Hant-CN-x-private1-private2|zh-hant en||Matched(0)
zh-Hant-CN|zh zh-hant||Matched(1)
zh-a-b-foo|zh||Matched(0)
i-klingon|en|en|Default(0)
i-klingon|en||Nothing
en-GB, *;q=0|en|fr|Matched(0)
en-GB, *;q=0|fr|fr|Nothing
en-GB, *;q=0|@none|@none|Default(0)
fr-CA, en|en fr||Matched(1)
en|en EN||Matched(0)
en-x-a-b|en-x-a en||Matched(1)
en-GB;q=0.5, en;q=0|en en-gb||Matched(1)
en-GB;q=0.5, en;q=0|en||Nothing
|en||Nothing
|en|en|Default(0)
*|en||Nothing
*|en|en|Default(0)
en|@none||Nothing
en;q=0.5|en||Matched(0)
en;q=0.5, fr|en fr||Matched(1)
en;q=0|en||Nothing
en;q=0, en;q=0.5|en||Nothing
en-GB|en||Matched(0)
de|@none en fr|fr|Default(2)
de, en;q=0.5|@none en fr|fr|Matched(1)
de, *;q=0|@none en fr|fr|Nothing
de|en|fr|Nothing
de|fr en fr|fr|Default(0)
ranges: de-*-DE|de-de||Matched(0)
ranges: de-*-DE|de de-de||Matched(1)
ranges: zh-*-a-*-foo|zh||Matched(0)
ranges: *-CH, fr|fr||Matched(0)
ranges: *-CH|fr||Nothing
ranges: *-CH|fr|fr|Default(0)";

/// Whether a choice is what was found among the languages.
pub fn agrees(choice: Choice, found: Found, langs: &[Lang]) -> bool {
    match (choice, found) {
        (Choice::Matched(text), Found::Matched(place)) => {
            langs.get(place).map(|lang| lang.as_str()) == Some(text)
        }
        (Choice::Default, Found::Default(_)) => true,
        (Choice::Nothing, Found::Nothing) => true,
        _ => false,
    }
}

/// What `lookup` and `choose` find among languages.
fn found_by_both(
    rt: &impl Abort,
    list: &PriorityList,
    langs: &[Lang],
    default: Option<&Lang>,
) -> Found {
    let found = lookup(list, langs, default);
    assert!(rt; agrees(choose(list, &langs, default), found, langs));
    found
}

/// What they find, and a list cut to these languages and others, which has to be the same.
fn found_by_each(
    rt: &(impl Abort + AllocGlobal),
    list: &PriorityList,
    texts: &str,
    default: Option<&Lang>,
) -> Result<Found, Fail> {
    let found = found_by_both(rt, list, &langs(rt, texts)?, default);
    agrees_cut(rt, list, Widening::Off, texts, default, found)?;
    Ok(found)
}

fn found_of_field(
    rt: &(impl Abort + AllocGlobal),
    field: &str,
    texts: &str,
    default: &str,
) -> Result<Found, Fail> {
    let list = list_of(rt, field)?;
    found_by_each(rt, &list, texts, default_of(rt, default)?.as_ref())
}

/// Checks what the list of a field finds.
pub fn field_finds(
    rt: &(impl Abort + AllocGlobal),
    field: &str,
    texts: &str,
    default: &str,
    expected: &str,
) -> Result<(), Fail> {
    let found = found_of_field(rt, field, texts, default)?;
    let shown = format!(in rt.alloc(); "{found:?}")?;
    assert!(rt; shown.as_str() == expected, "{shown} in {texts}");
    Ok(())
}

#[test]
fn found(rt: HostRuntime) -> Result<(), Fail> {
    for row in ROWS.lines() {
        let (field, texts, default, expected) = columns(row);
        field_finds(&rt, field, texts, default, expected)?;
    }
    Ok(())
}
