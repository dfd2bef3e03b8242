//! Many sites, merged into the first of them.

use super::answers::{is_line, until};
use docs_core::{Checks, merge_documents};

const PARIS: &str =
    "{\"cells\":[[\"m\",\"en\",5,\"paris\",0,[\"a\"]]],\"kind\":\"site\",\"site\":\"paris\",\
        \"version\":2}\n";

const THREE: &str =
    "{\"cells\":[[\"m\",\"en\",5,\"paris\",0,[\"a\"]]],\"kind\":\"site\",\"site\":\"paris\",\
        \"version\":2}\n{\"cells\":[[\"m\",\"en\",7,\"tokyo\",0,[\"b\"]]],\"kind\":\"site\",\
        \"site\":\"tokyo\",\"version\":2}\n{\"cells\":[[\"n\",\"en\",6,\"oslo\",0,null]],\
        \"kind\":\"site\",\"site\":\"oslo\",\"version\":2}";

const MERGED: &str =
    r#"{"cells":[["m","en",7,"tokyo",0,["b"]],["n","en",6,"oslo",0,null]],"kind":"site","site":"paris","version":2}"#;

#[test]
fn three_sites_are_merged(rt: HostRuntime) {
    let merged = merge_documents(rt.alloc(), THREE.as_bytes(), Checks::none());
    assert!(rt; is_line(merged, MERGED));
    let merged = merge_documents(rt.alloc(), THREE.as_bytes(), until(7));
    assert!(rt; is_line(merged, MERGED));
}

#[test]
fn a_time_of_the_second_is_ahead(rt: HostRuntime) {
    let refused = merge_documents(rt.alloc(), THREE.as_bytes(), until(6));
    assert!(rt; is_line(refused, "refused 29: time is ahead in row 0 of document 2"));
}

#[test]
fn one_site_is_as_it_was(rt: HostRuntime) {
    let merged = merge_documents(rt.alloc(), PARIS.as_bytes(), until(4));
    assert!(rt; is_line(merged, PARIS.trim_end()));
    let refused = merge_documents(rt.alloc(), b"", Checks::none());
    assert!(rt; is_line(refused, "refused 19: not JSON of document 1"));
}
