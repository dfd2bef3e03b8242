//! Fields of basic ranges (RFC 9110 sections 5.6.1, 12.4.2 and 12.5.4) and of extended ones.
use crate::tests::reading::{accept, columns, reads};
use nego_core::{NegoFault, PriorityList};
use std::process::Abort;
use std::test::Fail;

/// Rows of `FIELD|RANGE;WEIGHT ..`.
const READ: &str = ", ,da,en-gb;q=0.8, en ; Q=0.7,|da;1000 en-gb;800 en;700
en;q=0|en;0\nen;q=0.|en;0\nen;q=0.5|en;500\nen;q=0.05|en;50\nen;q=0.005|en;5\nen;q=0.999|en;999
en;q=1|en;1000\nen;q=1.|en;1000\nen;q=1.000|en;1000\nEN|en;1000
en ; Q=0.7|en;700\n\ten\t;\tq=0.7\t|en;700\n \t, en \t|en;1000
|\n,|\n ,\t,, |
ranges: de-*-DE|de-*-de;1000
ranges:  *-CH ,, fr\t|*-ch;1000 fr;1000
ranges: |";

#[test]
fn read(rt: HostRuntime) -> Result<(), Fail> {
    for row in READ.lines() {
        let (field, items, _, _) = columns(row);
        reads(&rt, field, items)?;
    }
    Ok(())
}

/// Whether two fields are read alike.
fn are_alike(rt: &(impl Abort + AllocGlobal), one: &str, other: &str) -> Result<bool, Fail> {
    Ok(accept(rt, one)? == accept(rt, other)?)
}

#[test]
fn compared(rt: HostRuntime) -> Result<(), Fail> {
    let field = "fr;q=0.5, EN";
    assert!(rt; are_alike(&rt, field, "fr; q=0.500,,en;q=1")?);
    assert!(rt; !are_alike(&rt, field, "en, fr;q=0.5")?);
    assert!(rt; !are_alike(&rt, field, "fr;q=0.4, en")?);
    Ok(())
}

#[test]
fn shown_for_debugging(rt: HostRuntime) -> Result<(), Fail> {
    let shown = format!(in rt.alloc(); "{:?}", accept(&rt, "fr;q=0.5, EN")?)?;
    let expected = "[Item { range: \"fr\", weight: 500 }, Item { range: \"en\", weight: 1000 }]";
    assert!(rt; shown.as_str() == expected, "{shown}");
    Ok(())
}

/// Rows of `OFFSET|FIELD`.
const MALFORMED: &str =
    "0|en;q=1.001\n0|en;q=0.1234\n0|en;q=1.0000\n0|en;q=00.5\n0|en;q=1.5\n0|en;q=.5\n0|en;q=2
0|en;q =0.7\n0|en;q= 0.7\n0|en;\n0|;q=1\n0|en;q=\n0|en;q=1;x=2\n0|en;q=0.5.5\n0|en q=1\n0|en;r=1
3|da,en;q=.5\n3|en,\u{a0}fr\n3|en,fr-\n3|,\t !\n9|fr;q=0.4,en;q=1.001
2|  en;q=2\n2|\t en-\n2|, *-de\n6|en, \t fr fr,!\n0|e\0n
0|de-*-DE\n0|*-CH\n0|en_US\n0|1\n0|en--us\n0|@none\n0|en fr";

/// The same where ranges are extended and have no weights.
const MALFORMED_RANGES: &str =
    "0|de;q=1\n0|de;\n0|de ;q=1\n0|de fr\n0|1-*\n0|**\n3|de,*-\n3| , de;q=1\n4|de, fr;q=0.5";

/// Whether a list is refused at the offset of the row.
fn is_refused_at(list: Result<PriorityList, NegoFault>, offset: &str) -> bool {
    match (list, offset.parse::<usize>()) {
        (Err(NegoFault::FieldMalformed { offset }), Ok(expected)) => offset == expected,
        _ => false,
    }
}

#[test]
fn malformed(rt: HostRuntime) {
    for row in MALFORMED.lines() {
        let (offset, field, _, _) = columns(row);
        let list = PriorityList::from_accept(rt.alloc(), field.as_bytes());
        assert!(rt; is_refused_at(list, offset), "{row}");
    }
}

#[test]
fn malformed_ranges(rt: HostRuntime) {
    for row in MALFORMED_RANGES.lines() {
        let (offset, field, _, _) = columns(row);
        let list = PriorityList::from_ranges(rt.alloc(), field.as_bytes());
        assert!(rt; is_refused_at(list, offset), "{row}");
    }
}

fn is_malformed_at(rt: &(impl Abort + AllocGlobal), field: &[u8], offset: &str) -> bool {
    is_refused_at(PriorityList::from_accept(rt.alloc(), field), offset)
}

/// Line ends are no blanks.
#[test]
fn other_bytes(rt: HostRuntime) {
    assert!(rt;
        is_malformed_at(&rt, b"en, \r\n fr", "4")
            && is_malformed_at(&rt, b"en,\nfr", "3")
            && is_malformed_at(&rt, b"en,\xff\xfe", "3")
    );
}

/// Whether a field is refused for its length, of whichever ranges.
fn is_too_long(rt: &(impl Abort + AllocGlobal), field: &[u8]) -> bool {
    PriorityList::from_accept(rt.alloc(), field).err() == Some(NegoFault::FieldTooLong)
        && PriorityList::from_ranges(rt.alloc(), field).err() == Some(NegoFault::FieldTooLong)
}

#[test]
fn lengths(rt: HostRuntime) -> Result<(), Fail> {
    let commas = ",".repeat(rt.alloc(), 65535)?;
    reads(&rt, commas.as_str(), "")?;
    let ranges = format!(in rt.alloc(); "ranges: {commas}")?;
    reads(&rt, ranges.as_str(), "")
}

/// A field that is too long is that, whatever else is wrong with it.
#[test]
fn long_fields(rt: HostRuntime) -> Result<(), Fail> {
    assert!(rt; is_too_long(&rt, ",".repeat(rt.alloc(), 65536)?.as_bytes()));
    assert!(rt; is_too_long(&rt, "!".repeat(rt.alloc(), 65536)?.as_bytes()));
    Ok(())
}

/// A text of 255 bytes.
fn longest(rt: &(impl Abort + AllocGlobal)) -> Result<String, Fail> {
    let mut text = String::from_str(rt.alloc(), "x")?;
    for _ in 0..28 {
        text.push_str("-aaaaaaaa")?;
    }
    text.push_str("-a")?;
    Ok(text)
}

/// The range is read with a weight.
fn reads_weighted(rt: &(impl Abort + AllocGlobal), range: &str) -> Result<(), Fail> {
    let field = format!(in rt.alloc(); "{range} ; q=0.2")?;
    let items = format!(in rt.alloc(); "{range};200")?;
    reads(rt, field.as_str(), items.as_str())
}

#[test]
fn long_ranges(rt: HostRuntime) -> Result<(), Fail> {
    let range = longest(&rt)?;
    reads_weighted(&rt, range.as_str())?;
    let field = format!(in rt.alloc(); "{range}a;q=0.2")?;
    assert!(rt; is_malformed_at(&rt, field.as_bytes(), "0"));
    Ok(())
}
