//! Fields as they are found in the wild, whose malformed elements are passed over (RFC 9110
//! section 2.4 leaves it to a server).
use crate::tests::reading::{columns, has_items};
use nego_core::{Malformed, NegoFault, PriorityList, Scheme};
use std::process::Abort;
use std::test::Fail;

fn lenient(
    rt: &(impl Abort + AllocGlobal),
    scheme: Scheme,
    field: &[u8],
) -> Result<PriorityList, NegoFault> {
    PriorityList::parse(rt.alloc(), scheme, Malformed::PassedOver, field)
}

/// Checks what is read of a field.
fn reads(
    rt: &(impl Abort + AllocGlobal),
    scheme: Scheme,
    field: &[u8],
    items: &str,
) -> Result<(), Fail> {
    has_items(rt, &lenient(rt, scheme, field)?, items)
}

/// Checks rows of `FIELD|RANGE;WEIGHT ..`.
fn all_read(rt: &(impl Abort + AllocGlobal), scheme: Scheme, rows: &str) -> Result<(), Fail> {
    for row in rows.lines() {
        let (field, items, _, _) = columns(row);
        reads(rt, scheme, field.as_bytes(), items)?;
    }
    Ok(())
}

const BASIC: &str = "en-US,en;q=0.8333|en-us;1000
de;q=.8|
en_US, en|en;1000
fr-FR;q=1.0;q=0.5, fr|fr;1000
en; q = 0.5, de;q=0.3|de;300
\"en, fr\", fr;q=0.2|fr;200
\"en, fr, de\";q=0.9, ja|fr;1000 ja;1000
,,|
|
 , !, \t|
de;q=0.0000, de|de;1000
de;q=0, e_n|de;0
de-*-DE, fr|fr;1000
da, en-gb;q=0.8, en;q=0.7|da;1000 en-gb;800 en;700
en,\u{a0}fr, ja|en;1000 ja;1000";

const EXTENDED: &str = "de-*-DE, e_n, fr|de-*-de;1000 fr;1000
de;q=0.5, *-CH|*-ch;1000
de;q=0.5|";

#[test]
fn read(rt: HostRuntime) -> Result<(), Fail> {
    all_read(&rt, Scheme::Basic, BASIC)?;
    all_read(&rt, Scheme::Extended, EXTENDED)
}

/// Line ends and bytes beyond ASCII are no blanks.
#[test]
fn other_bytes(rt: HostRuntime) -> Result<(), Fail> {
    reads(&rt, Scheme::Basic, b"en,\r\n fr,ja", "en;1000 ja;1000")?;
    reads(&rt, Scheme::Basic, b"\xff\xfe,en", "en;1000")
}

fn is_too_long(rt: &(impl Abort + AllocGlobal), field: &[u8]) -> bool {
    lenient(rt, Scheme::Basic, field).err() == Some(NegoFault::FieldTooLong)
        && lenient(rt, Scheme::Extended, field).err() == Some(NegoFault::FieldTooLong)
}

#[test]
fn lengths(rt: HostRuntime) -> Result<(), Fail> {
    let commas = ",".repeat(rt.alloc(), 65535)?;
    reads(&rt, Scheme::Basic, commas.as_bytes(), "")?;
    let malformed = "!".repeat(rt.alloc(), 65535)?;
    reads(&rt, Scheme::Basic, malformed.as_bytes(), "")
}

#[test]
fn long_fields(rt: HostRuntime) -> Result<(), Fail> {
    assert!(rt; is_too_long(&rt, ",".repeat(rt.alloc(), 65536)?.as_bytes()));
    assert!(rt; is_too_long(&rt, "!".repeat(rt.alloc(), 65536)?.as_bytes()));
    Ok(())
}

/// Many commas, and what is longer than any range, before a last element.
fn long_pieces_before(rt: &(impl Abort + AllocGlobal), last: &str) -> Result<String, Fail> {
    let commas = ",".repeat(rt.alloc(), 40)?;
    let long = "abcdefgh".repeat(rt.alloc(), 40)?;
    Ok(format!(in rt.alloc(); "da{commas}{long}{last}")?)
}

fn strict_fault(rt: &(impl Abort + AllocGlobal), scheme: Scheme, field: &str) -> Option<NegoFault> {
    PriorityList::parse(rt.alloc(), scheme, Malformed::Refused, field.as_bytes()).err()
}

#[test]
fn long_pieces(rt: HostRuntime) -> Result<(), Fail> {
    let field = long_pieces_before(&rt, ", fr")?;
    let fault = strict_fault(&rt, Scheme::Basic, field.as_str());
    assert!(rt; fault == Some(NegoFault::FieldMalformed { offset: 42 }));
    reads(&rt, Scheme::Basic, field.as_bytes(), "da;1000 fr;1000")
}

/// What is malformed is refused.
#[test]
fn strict(rt: HostRuntime) {
    let basic = strict_fault(&rt, Scheme::Basic, "da, en_US, fr");
    assert!(rt; basic == Some(NegoFault::FieldMalformed { offset: 4 }));
    let extended = strict_fault(&rt, Scheme::Extended, "de, fr;q=0.5");
    assert!(rt; extended == Some(NegoFault::FieldMalformed { offset: 4 }));
}

/// What is well-formed is read alike.
#[test]
fn strict_and_well_formed(rt: HostRuntime) -> Result<(), Fail> {
    let field = b"de, fr;q=0.5";
    let list = PriorityList::parse(rt.alloc(), Scheme::Basic, Malformed::Refused, field)?;
    has_items(&rt, &list, "de;1000 fr;500")
}
