//! How many labels each language has.

use super::answers::is_found;
use docs_core::{Doc, DocFault, labels_document, labels_lines, read_site};
use std::alloc::Global;

/// A site in the form in which it is written: `de` has a label in one message, `en` in two, and
/// `fr` in none, since it is deleted.
const WRITTEN: &str = concat!(
    r#"{"cells":[["m","de",1,"p",0,["a"]],["m","en",1,"p",1,["b"]],["n","en",1,"p",2,["c"]],"#,
    r#"["o","@none",1,"p",3,["d"]],["o","fr",1,"p",4,null]],"kind":"site","site":"p","version":2}"#,
    "\n"
);

/// The same with its members in another order.
const IN_ANOTHER_ORDER: &str = concat!(
    r#"{"version":2,"cells":[["m","de",1,"p",0,["a"]],["m","en",1,"p",1,["b"]],"#,
    r#"["n","en",1,"p",2,["c"]],["o","@none",1,"p",3,["d"]],["o","fr",1,"p",4,null]],"#,
    r#""kind":"site","site":"p"}"#
);

fn labels(alloc: Global, site: &str) -> Result<(Doc, bool), DocFault> {
    labels_document(alloc, site.as_bytes())
}

fn in_memory(alloc: Global, site: &str) -> Result<(Doc, bool), DocFault> {
    let site = read_site(alloc, site.as_bytes())?;
    Ok(labels_lines(alloc, site.catalogue())?)
}

#[test]
fn each_language_with_its_count(rt: HostRuntime) {
    for site in [WRITTEN, IN_ANOTHER_ORDER] {
        let lines = "labels 3\n@none 1\nde 1\nen 2";
        assert!(rt; is_found(labels(rt.alloc(), site), lines));
        assert!(rt; is_found(in_memory(rt.alloc(), site), lines));
    }
}

#[test]
fn no_labels(rt: HostRuntime) {
    let empty = r#"{"cells":[],"kind":"site","site":"p","version":2}"#;
    let deleted = r#"{"cells":[["o","fr",1,"p",4,null]],"kind":"site","site":"p","version":2}"#;
    for site in [empty, deleted] {
        assert!(rt; is_found(labels(rt.alloc(), site), "labels 0"));
        assert!(rt; is_found(in_memory(rt.alloc(), site), "labels 0"));
    }
}

/// A tag is another language than what it begins with, and languages are in order of their bytes.
#[test]
fn tags_apart(rt: HostRuntime) {
    let site = concat!(
        r#"{"cells":[["a","zh",1,"p",0,["x"]],["b","en-us",1,"p",1,["x"]],"#,
        r#"["c","en",1,"p",2,["x"]],["d","en-us",1,"p",3,["x","y"]]],"#,
        r#""kind":"site","site":"p","version":2}"#
    );
    assert!(rt; is_found(labels(rt.alloc(), site), "labels 3\nen 1\nen-us 2\nzh 1"));
}

#[test]
fn a_site_of_version_1(rt: HostRuntime) {
    let site = concat!(
        r#"{"cells":[["m","@none",1,1,0,["x"]],["m","en",2,1,0,["Hello"]],["o","en",1,1,3,null]],"#,
        r#""kind":"site","site":1,"version":1}"#
    );
    assert!(rt; is_found(labels(rt.alloc(), site), "labels 2\n@none 1\nen 1"));
}

#[test]
fn a_refused_site_is_document_1(rt: HostRuntime) {
    assert!(rt;
        is_found(
            labels(rt.alloc(), "{"),
            "refused 19: not JSON of document 1"
        )
    );
}
