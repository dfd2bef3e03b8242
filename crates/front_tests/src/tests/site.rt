//! Sites that are opened, and documents that are refused.

use front_core::OpenSite;
use std::alloc::Global;
use std::process::Abort;
use std::test::Fail;

/// What refuses the document: its number, place and row.
fn refusal(alloc: Global, document: &[u8]) -> Option<(u8, Option<usize>, Option<usize>)> {
    let fault = OpenSite::read(alloc, document).err()?;
    Some((fault.number(), fault.offset(), fault.row()))
}

fn assert_refused(
    rt: &impl Abort,
    alloc: Global,
    document: &[u8],
    number: u8,
    offset: Option<usize>,
    row: Option<usize>,
) {
    assert_eq!(rt; refusal(alloc, document), Some((number, offset, row)));
}

#[test]
fn a_site(rt: HostRuntime) -> Result<(), Fail> {
    let document =
        br#"{"cells":[["m","en",5,"a",0,["Hello"]]],"kind":"site","site":"paris","version":2}"#;
    let open = OpenSite::read(rt.alloc(), document.as_slice())?;
    let site = open.site();
    assert_eq!(rt; site.name().as_str(), "paris");
    assert_eq!(rt; site.catalogue().len(), 1);
    Ok(())
}

#[test]
fn a_document_is_refused(rt: HostRuntime) {
    let alloc = rt.alloc();
    assert_refused(&rt, alloc, b"{\xff", 18, Some(1), None);
    let row = br#"{"cells":[["m","en-ab_c",5,"a",1,["x"]]],"kind":"site","site":"a","version":2}"#;
    assert_refused(&rt, alloc, row, 3, Some(3), Some(0));
}
