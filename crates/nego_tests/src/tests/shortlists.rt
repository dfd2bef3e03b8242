//! Lists cut to some languages. The rows of lookup and of widened lookup ask them too.
use crate::tests::looking_up::agrees;
use crate::tests::reading::{accept, default_of, langs, lent};
use lang_core::Lang;
use nego_core::{Found, PriorityList, Shortlist, Widening};
use std::process::Abort;
use std::test::Fail;

/// Languages that the text does not name, and those that it names.
fn more_langs(rt: &(impl Abort + AllocGlobal), texts: &str) -> Result<Vec<Lang>, Fail> {
    let more = format!(in rt.alloc(); "ja fr-ca @none en-gb zh-hant de {texts} de-at")?;
    langs(rt, more.as_str())
}

/// Whether a list cut to all these languages finds this among some of them.
fn is_found<'a>(
    rt: &(impl Abort + AllocGlobal),
    list: &'a PriorityList,
    widening: Widening,
    all: &'a [Lang],
    asked: &[Lang],
    default: Option<&Lang>,
    found: Found,
) -> Result<bool, Fail> {
    let site = lent(rt, all)?;
    let shortlist = Shortlist::new(rt.alloc(), list, widening, &site)?;
    let choice = shortlist.choose(&asked, default);
    Ok(shortlist.tried() <= site.len() && agrees(choice, found, asked))
}

/// Checks that a list cut to these languages and others finds the same among these.
pub fn agrees_cut(
    rt: &(impl Abort + AllocGlobal),
    list: &PriorityList,
    widening: Widening,
    texts: &str,
    default: Option<&Lang>,
    found: Found,
) -> Result<(), Fail> {
    let all = more_langs(rt, texts)?;
    let asked = langs(rt, texts)?;
    assert!(rt;
        is_found(rt, list, widening, &all, &asked, default, found)?,
        "{texts}"
    );
    Ok(())
}

/// A field of many ranges of English, whose first candidate is in no site, and German after them.
fn many_ranges(rt: &(impl Abort + AllocGlobal)) -> Result<String, Fail> {
    let mut field = String::new(rt.alloc());
    for number in 0..2000 {
        let range = format!(in rt.alloc(); "en-x-{number}, ")?;
        field.push_str(range.as_str())?;
    }
    field.push_str("de;q=0.5")?;
    Ok(field)
}

/// How many languages a list cut to these tries.
fn tried(rt: &(impl Abort + AllocGlobal), list: &PriorityList, texts: &str) -> Result<usize, Fail> {
    let all = langs(rt, texts)?;
    tried_of(rt, list, &lent(rt, &all)?)
}

fn tried_of<'a>(
    rt: &(impl Abort + AllocGlobal),
    list: &'a PriorityList,
    site: &'a [&'a Lang],
) -> Result<usize, Fail> {
    Ok(Shortlist::new(rt.alloc(), list, Widening::Off, site)?.tried())
}

/// Whether a list cut to German, English and French finds this among some of them.
fn is_found_among(
    rt: &(impl Abort + AllocGlobal),
    list: &PriorityList,
    asked: &[Lang],
    default: Option<&Lang>,
    found: Found,
) -> Result<bool, Fail> {
    let all = langs(rt, "de en fr")?;
    is_found(rt, list, Widening::Off, &all, asked, default, found)
}

fn finds(
    rt: &(impl Abort + AllocGlobal),
    list: &PriorityList,
    texts: &str,
    default: &str,
    found: Found,
) -> Result<bool, Fail> {
    let default = default_of(rt, default)?;
    is_found_among(rt, list, &langs(rt, texts)?, default.as_ref(), found)
}

/// Languages, a default, and what is found.
const FEW: &[(&str, &str, Found)] = &[
    ("de en", "", Found::Matched(1)),
    ("de", "", Found::Matched(0)),
    ("fr", "", Found::Nothing),
    ("fr", "fr", Found::Default(0)),
];

#[test]
fn few_of_many_ranges(rt: HostRuntime) -> Result<(), Fail> {
    let list = accept(&rt, many_ranges(&rt)?.as_str())?;
    assert!(rt; tried(&rt, &list, "de en fr")? <= 3);
    for (texts, default, found) in FEW {
        assert!(rt; finds(&rt, &list, texts, default, *found)?);
    }
    Ok(())
}

#[test]
fn no_languages(rt: HostRuntime) -> Result<(), Fail> {
    let list = accept(&rt, "de, en")?;
    assert!(rt; tried(&rt, &list, "")? == 0);
    Ok(())
}
