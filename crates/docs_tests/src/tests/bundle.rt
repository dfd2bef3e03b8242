//! What a reader with priorities gets of a site.

use super::answers::is_found;
use docs_core::{Doc, DocFault, bundle_document_by, read_site, write_bundle, write_bundle_by};
use nego_core::{Offer, PriorityList, Scheme, Widening};
use std::alloc::Global;
use std::test::Fail;

const REGIONS: &[u8] =
    b"{\"cells\":[[\"m\",\"en-us\",1,\"a\",0,[\"color\"]],[\"m\",\"fr\",1,\"a\",1,[\"couleur\"]],\
        [\"n\",\"en\",1,\"a\",2,[\"n\"]],[\"n\",\"en-gb\",1,\"a\",3,[\"gb\"]],\
        [\"o\",\"de\",1,\"a\",4,[\"o\"]]],\"kind\":\"site\",\"site\":\"a\",\"version\":2}";

/// What the site in memory gives of labels of regions.
fn in_memory(
    alloc: Global,
    list: &PriorityList,
    widening: Widening,
) -> Result<(Doc, bool), DocFault> {
    let site = read_site(alloc, REGIONS)?;
    let cells = site.catalogue();
    Ok(write_bundle_by(alloc, cells, Offer::All, list, widening, None)?)
}

/// Whether a reader with this field gets this of labels of regions, also of the site in memory.
fn is_bundle(alloc: Global, field: &str, widening: Widening, line: &str) -> Result<bool, Fail> {
    let list = PriorityList::from_accept(alloc, field.as_bytes())?;
    let bundle = bundle_document_by(alloc, REGIONS, Offer::All, &list, widening, None);
    Ok(is_found(bundle, line) && is_found(in_memory(alloc, &list, widening), line))
}

/// A widened range finds a region where its language is not, and none that is refused.
#[test]
fn widened_ranges(rt: HostRuntime) -> Result<(), Fail> {
    let widening = Widening::By(Scheme::Basic);
    let regions = r#"{"m":{"en-us":"color"},"n":{"en":"n"}}"#;
    assert!(rt; is_bundle(rt.alloc(), "en", widening, regions)?);
    let rest = r#"{"n":{"en":"n"}}"#;
    assert!(rt; is_bundle(rt.alloc(), "en, en-us;q=0", widening, rest)?);
    assert!(rt; is_bundle(rt.alloc(), "en", Widening::Off, rest)?);
    Ok(())
}

/// What the site in memory gives without widening.
fn without_widening(alloc: Global, list: &PriorityList) -> Result<(Doc, bool), DocFault> {
    let site = read_site(alloc, REGIONS)?;
    Ok(write_bundle(alloc, site.catalogue(), list, None)?)
}

#[test]
fn without_widening_a_region_is_not_found(rt: HostRuntime) -> Result<(), Fail> {
    let list = PriorityList::from_accept(rt.alloc(), b"en")?;
    let bundle = without_widening(rt.alloc(), &list);
    assert!(rt; is_found(bundle, r#"{"n":{"en":"n"}}"#));
    Ok(())
}
