//! Lists of more than 16 items, which are asked by an index. What is expected follows from the
//! definitions, as for short lists.
use crate::tests::deciding::field_decides;
use crate::tests::filtering::picks;
use crate::tests::looking_up::field_finds;
use crate::tests::reading::columns;
use nego_core::Scheme;
use std::test::Fail;

/// 22 items: doubles at 1 and 18, and at 4 and 5; weight 0 at 3, 5, 12, 18 and 21; "*" at 16.
const FIELD: &str =
    "de, de-CH, fr;q=0.9, en-GB;q=0, en;q=0.8, en;q=0, zh-Hant, zh, es-419;q=0.5, es;q=0.5, pt-BR, pt, it;q=0, ja, ko, ru, *;q=0.1, sr-Latn, de-CH;q=0, zh-Hant-TW;q=0.3, nl-BE;q=0.6, nl;q=0";

/// 19 items: doubles at 1 and 18; "*" at 10.
const RANGES: &str =
    "ranges: de-*-CH, de-*-DE, *-Latn, sr-*, zh-*-CN, fr-*-FR, en-GB, en-*-x-*-a, *-419, es, *, pt-*, ja, ko, ru, it, sv, *-CH, de-*-DE";

/// Tags of the field and what decides them under both schemes.
const DECIDED: &str =
    "de-AT|0 1000\nde-CH-1996|1 1000\nen-GB-oed|3 0\nen-US|4 800\nzh-Hant-TW|19 300
zh-Hant-HK|6 1000\nzh-Latn|7 1000\nit-CH|12 0\nsv|16 100\nes-419|8 500\nsr-Cyrl|16 100
sr-Latn-RS|17 1000\nden|16 100\nnl-BE|20 600\nnl-NL|21 0\nx-de|16 100\ni-klingon|16 100";

/// 24 items, of which 20 have one range, the first of them at 1.
const REPEATED: &str =
    "fr, de;q=0, de, de, de, de, de, de, de, de, de, de, de, de, de, de, de, de, de, de, de, de-CH;q=0.5, *;q=0.1, fr;q=0.9";

#[test]
fn decided_by_basic(rt: HostRuntime) -> Result<(), Fail> {
    field_decides(&rt, FIELD, Scheme::Basic, DECIDED)?;
    field_decides(
        &rt,
        FIELD,
        Scheme::Basic,
        "de-Latn-CH|0 1000\nen-Latn-GB|4 800",
    )
}

#[test]
fn decided_where_one_range_is_repeated(rt: HostRuntime) -> Result<(), Fail> {
    field_decides(
        &rt,
        REPEATED,
        Scheme::Basic,
        "de|1 0\nde-AT|1 0\nde-CH-1996|21 500\nfr-FR|0 1000\nden|22 100",
    )
}

#[test]
fn decided_by_extended(rt: HostRuntime) -> Result<(), Fail> {
    field_decides(&rt, FIELD, Scheme::Extended, DECIDED)?;
    field_decides(
        &rt,
        FIELD,
        Scheme::Extended,
        "de-Latn-CH|1 1000\nen-Latn-GB|3 0",
    )
}

#[test]
fn decided_among_ranges(rt: HostRuntime) -> Result<(), Fail> {
    field_decides(
        &rt,
        RANGES,
        Scheme::Extended,
        "de-Latn-DE|1 1000\nsr-Latn-RS|2 1000\nsr-Cyrl|3 1000\nde-CH|0 1000\nfr-CH|17 1000
es-419|8 1000\nzh-Hans-CN|4 1000\nnl|10 1000\nen-GB-x-a|7 1000\nen-a-bbb-x-a|10 1000
fr-Latn-FR-1990|5 1000",
    )?;
    field_decides(
        &rt,
        RANGES,
        Scheme::Basic,
        "de-DE|10 1000\nes-419|9 1000\nen-GB|6 1000\nja-JP|12 1000\nsr|10 1000",
    )
}

/// 20 items, most of which end alike: doubles at 0 and 17; "*" at 18.
const ALIKE: &str =
    "ranges: aa-*-zz, bb-*-zz, cc-*-zz, dd-*-zz, ee-*-zz, ff-*-zz, gg-*-zz, hh-*-zz, ii-*-zz, jj-*-zz, kk-*-zz, ll-*-zz, mm-*-zz, nn-*-zz, oo-*-zz, pp-*-zz, *-Latn-zz, aa-*-zz, *, *-*";

#[test]
fn decided_among_ranges_that_end_alike(rt: HostRuntime) -> Result<(), Fail> {
    field_decides(
        &rt,
        ALIKE,
        Scheme::Extended,
        "cc-ZZ|2 1000\ncc-Latn-ZZ|2 1000\nqq-Latn-ZZ|16 1000\nqq-ZZ|18 1000\naa-Cyrl-ZZ|0 1000
aa-x-zz|18 1000\ncc-Latn-AQ|18 1000",
    )?;
    field_decides(&rt, ALIKE, Scheme::Basic, "cc-ZZ|18 1000")
}

#[test]
fn filtered(rt: HostRuntime) -> Result<(), Fail> {
    picks(
        &rt,
        FIELD,
        Scheme::Basic,
        "de-AT en-GB en-US @none sv zh-Hant-TW de-CH it es-419 es",
        "0;1000 6;1000 2;800 8;500 9;500 5;300 4;100",
    )?;
    picks(
        &rt,
        RANGES,
        Scheme::Extended,
        "es-419 sr-Latn de-DE nl",
        "2;1000 1;1000 0;1000 3;1000",
    )
}

/// Rows of `LANGUAGES|DEFAULT|ANSWER`.
const FOUND: &str =
    "es en||Matched(1)\nsr de-CH||Matched(1)\nzh-Hant-TW zh||Matched(1)\nen-GB es||Matched(1)
nl sv|sv|Default(1)\nnl||Nothing\nit|it|Nothing\nsv||Nothing";

#[test]
fn looked_up(rt: HostRuntime) -> Result<(), Fail> {
    for row in FOUND.lines() {
        let (texts, default, expected, _) = columns(row);
        field_finds(&rt, FIELD, texts, default, expected)?;
    }
    field_finds(&rt, RANGES, "nl fr en", "", "Matched(1)")
}
