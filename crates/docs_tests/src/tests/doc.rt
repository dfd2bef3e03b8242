//! Documents as bytes.

use docs_core::Doc;
use std::test::Fail;

fn is_made(doc: &Doc) -> bool {
    doc.len() == 3
        && !doc.is_empty()
        && doc.nth(1) == Some(0)
        && doc.nth(3).is_none()
        && doc.bytes() == b"a\0b".as_slice()
}

#[test]
fn a_document_is_its_bytes(rt: HostRuntime) -> Result<(), Fail> {
    let alloc = rt.alloc();
    let doc = Doc::from(vec![in alloc; b'a', 0, b'b']?);
    assert!(rt; is_made(&doc));
    Ok(())
}

#[test]
fn a_text_is_a_document(rt: HostRuntime) -> Result<(), Fail> {
    let doc = Doc::from(String::from_str(rt.alloc(), "caf\u{e9}")?);
    assert!(rt; doc.bytes() == "caf\u{e9}".as_bytes());
    Ok(())
}
