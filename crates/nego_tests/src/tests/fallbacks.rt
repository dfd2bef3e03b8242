//! Lookup by a table of fallbacks, by the rows of the specification.
use crate::tests::reading::{columns, langs};
use nego_core::{Fallbacks, Malformed, NegoFault, PriorityList, Scheme, Widening, lookup_by};
use std::process::Abort;
use std::test::Fail;

/// Rows of `TABLE|FIELD|LANGUAGES|ANSWER`.
const ROWS: &str = "zh-TW=zh-Hant, no=nb|zh-TW|zh zh-Hant|Matched(1)
zh-TW=zh-Hant, no=nb|zh-TW|zh|Matched(0)
zh-TW=zh-Hant, no=nb|no, da|da nb|Matched(1)
en-AU=en-001, en-001=en-GB, en=en-US|en|en-AU en-US|Matched(1)
en-AU=en-001, en-001=en-GB, en=en-US|en-AU|en en-GB|Matched(1)
en-AU=en-001, en-001=en-GB, en=en-US|en-NZ|en-GB en-US|Matched(1)
en=fr, fr=en|en|de|Nothing
en=fr, fr=en|en|fr|Matched(0)
en=fr, fr=en|en|fr en|Matched(1)
zh-TW=zh-Hant|zh-TW, zh-Hant;q=0|zh-Hant zh|Matched(1)
EN-au=EN-gb|en-AU|EN-gb|Matched(0)
|en-AU|en-GB en|Matched(1)
 ,\t,|en-AU|en|Matched(0)";

/// Rows of a table that is refused, and the offset of the element for which it is.
const REFUSED: &str = "a1=b|0
en=fr, EN=de|7
en|0
en=|0
=en|0
en =fr|0
en= fr|0
en=fr=de|0
en=fr,no=@none|6
en=fr,,no=*|7
en_US=fr|0";

#[test]
fn what_is_found(rt: HostRuntime) -> Result<(), Fail> {
    for row in ROWS.split('\n') {
        let (table, field, texts, answer) = columns(row);
        let fallbacks = Fallbacks::parse(rt.alloc(), table.as_bytes())?;
        let list = PriorityList::parse_with(
            rt.alloc(),
            Scheme::Basic,
            Malformed::Refused,
            &fallbacks,
            field.as_bytes(),
        )?;
        let found = lookup_by(&list, Widening::Off, &langs(&rt, texts)?, None);
        let shown = format!(in rt.alloc(); "{found:?}")?;
        assert_eq!(rt; shown.as_str(), answer, "{row}");
    }
    Ok(())
}

#[test]
fn a_range_of_the_extended_scheme(rt: HostRuntime) -> Result<(), Fail> {
    let fallbacks = Fallbacks::parse(rt.alloc(), b"de-DE=fr")?;
    let (scheme, malformed) = (Scheme::Extended, Malformed::Refused);
    let list = PriorityList::parse_with(rt.alloc(), scheme, malformed, &fallbacks, b"de-*-DE")?;
    let found = lookup_by(&list, Widening::Off, &langs(&rt, "de fr")?, None);
    let shown = format!(in rt.alloc(); "{found:?}")?;
    assert_eq!(rt; shown.as_str(), "Matched(1)");
    Ok(())
}

#[test]
fn what_widening_adds_comes_behind_the_chain(rt: HostRuntime) -> Result<(), Fail> {
    let fallbacks = Fallbacks::parse(rt.alloc(), b"en=fr")?;
    let (scheme, malformed) = (Scheme::Basic, Malformed::Refused);
    let list = PriorityList::parse_with(rt.alloc(), scheme, malformed, &fallbacks, b"en")?;
    for row in "en-US fr|Matched(1)\nen-US de|Matched(0)".split('\n') {
        let (texts, answer, _, _) = columns(row);
        let found = lookup_by(&list, Widening::By(scheme), &langs(&rt, texts)?, None);
        let shown = format!(in rt.alloc(); "{found:?}")?;
        assert_eq!(rt; shown.as_str(), answer, "{row}");
    }
    Ok(())
}

#[test]
fn what_is_refused(rt: HostRuntime) -> Result<(), Fail> {
    for row in REFUSED.split('\n') {
        let (table, offset, _, _) = columns(row);
        let offset = offset.parse::<usize>()?;
        let is_so = match Fallbacks::parse(rt.alloc(), table.as_bytes()) {
            Err(NegoFault::FallbackMalformed { offset: found }) => found == offset,
            _ => false,
        };
        assert!(rt; is_so, "{row}");
    }
    Ok(())
}

#[test]
fn a_table_that_is_too_long(rt: HostRuntime) -> Result<(), Fail> {
    let mut text = String::new(rt.alloc());
    for _ in 0..65_535 {
        text.push(',')?;
    }
    assert!(rt; Fallbacks::parse(rt.alloc(), text.as_bytes())?.is_empty());
    text.push(',')?;
    let is_so = match Fallbacks::parse(rt.alloc(), text.as_bytes()) {
        Err(NegoFault::FieldTooLong) => true,
        _ => false,
    };
    assert!(rt; is_so);
    Ok(())
}
