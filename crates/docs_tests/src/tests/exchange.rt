//! Language maps into a site, and out of it.

use super::answers::is_line;
use cata_core::Site;
use docs_core::{
    Doc, DocFault, import_document, put_labels, read_langmaps, read_site, write_live_labels,
    write_site,
};
use std::alloc::Global;

const EMPTY: &str = r#"{"cells":[],"kind":"site","site":1,"version":1}"#;

const MAPS: &str = r#"{"@context":{},"m":{"EN":"a","de":null,"fr":["b",null],"@none":"c"}}"#;

const IMPORTED: &str = concat!(
    r#"{"cells":[["m","@none",10,"0000000001",0,["c"]],["m","en",10,"0000000001",1,["a"]],"#,
    r#"["m","fr",10,"0000000001",2,["b"]]],"kind":"site","site":"0000000001","version":2}"#
);

const EXPORTED: &str = r#"{"m":{"@none":"c","en":"a","fr":"b"}}"#;

#[test]
fn an_import(rt: HostRuntime) {
    let made = import_document(rt.alloc(), EMPTY.as_bytes(), 10, MAPS.as_bytes());
    assert!(rt; is_line(made, IMPORTED));
}

/// The site in memory with the labels put.
fn imported(alloc: Global) -> Result<Site, DocFault> {
    let mut site = read_site(alloc, EMPTY.as_bytes())?;
    let maps = read_langmaps(alloc, MAPS.as_bytes())?;
    put_labels(alloc, &mut site, 10, &maps)?;
    Ok(site)
}

fn written(alloc: Global) -> Result<Doc, DocFault> {
    let site = imported(alloc)?;
    Ok(write_site(alloc, &site)?)
}

fn exported(alloc: Global) -> Result<Doc, DocFault> {
    let site = imported(alloc)?;
    Ok(write_live_labels(alloc, site.catalogue())?)
}

#[test]
fn a_site_in_memory_is_imported_and_exported_likewise(rt: HostRuntime) {
    assert!(rt; is_line(written(rt.alloc()), IMPORTED));
    assert!(rt; is_line(exported(rt.alloc()), EXPORTED));
}
