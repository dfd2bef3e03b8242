//! Updates of a site from the language maps before and after an edit, at the moment 6.

use super::answers::is_line;
use cata_core::Site;
use docs_core::{
    Doc, DocFault, read_langmaps, read_site, update_document, update_labels, write_site,
};
use std::alloc::Global;

/// Two labels and a deletion.
const PARIS: &str = concat!(
    r#"{"cells":[["m","en",5,"paris",0,["Hello"]],["m","fr",5,"paris",1,["Salut"]],"#,
    r#"["n","de",5,"paris",2,null]],"kind":"site","site":"paris","version":2}"#
);

/// Paris after a label was put, and another one left out.
const UPDATED: &str = concat!(
    r#"{"cells":[["m","en",6,"paris",0,["y"]],["m","fr",6,"paris",1,null],"#,
    r#"["n","de",5,"paris",2,null]],"kind":"site","site":"paris","version":2}"#
);

fn updated(alloc: Global, site: &str, old: &str, new: &str) -> Result<Doc, DocFault> {
    update_document(alloc, site.as_bytes(), 6, old.as_bytes(), new.as_bytes())
}

/// The site in memory after the update, written.
fn written(alloc: Global, old: &str, new: &str) -> Result<Doc, DocFault> {
    let site = in_memory(alloc, old, new)?;
    Ok(write_site(alloc, &site)?)
}

fn in_memory(alloc: Global, old: &str, new: &str) -> Result<Site, DocFault> {
    let mut site = read_site(alloc, PARIS.as_bytes())?;
    let old = read_langmaps(alloc, old.as_bytes())?;
    let new = read_langmaps(alloc, new.as_bytes())?;
    update_labels(alloc, &mut site, 6, &old, &new)?;
    Ok(site)
}

/// The document and the site in memory are updated alike. Stamps go by key.
#[test]
fn an_update(rt: HostRuntime) {
    let (old, new) = (
        r#"{"m":{"fr":"Salut","en":"x"}}"#,
        r#"{"m":{"fr":null,"en":"y"}}"#,
    );
    assert!(rt; is_line(updated(rt.alloc(), PARIS, old, new), UPDATED));
    assert!(rt; is_line(written(rt.alloc(), old, new), UPDATED));
}

#[test]
fn documents_are_read_in_order(rt: HostRuntime) {
    let line = "refused 19: not JSON of document 3";
    assert!(rt; is_line(updated(rt.alloc(), PARIS, "{}", ""), line));
}
