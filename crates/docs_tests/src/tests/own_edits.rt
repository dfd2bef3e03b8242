//! Exchanges that bring an edit which its site made and lacks.

use super::answers::{is_line, is_pair, own_edits};
use docs_core::{merge_documents, sync_documents, take_document};

const PARIS: &str =
    "{\"cells\":[[\"m\",\"en\",5,\"paris\",0,[\"a\"]]],\"kind\":\"site\",\"site\":\"paris\",\
        \"version\":2}\n";

const DELTA: &str =
    "{\"cells\":[[\"m\",\"en\",6,\"paris\",0,[\"b\"]]],\"kind\":\"delta\",\"to\":\"paris\",\
        \"version\":2}\n";

const TOKYO: &str = "{\"cells\":[],\"kind\":\"site\",\"site\":\"tokyo\",\"version\":2}\n";

#[test]
fn a_delta_with_a_later_edit_of_the_site(rt: HostRuntime) {
    let taken = take_document(rt.alloc(), PARIS.as_bytes(), DELTA.as_bytes(), own_edits());
    let refused = "refused 30: an edit of this site is missing here in row 0 of document 2";
    assert!(rt; is_line(taken, refused));
}

#[test]
fn either_site_of_a_sync(rt: HostRuntime) {
    // Tokyo has no edit of its own, and Paris has all of its.
    let synced = sync_documents(rt.alloc(), PARIS.as_bytes(), TOKYO.as_bytes(), own_edits());
    let joined =
        r#"{"cells":[["m","en",5,"paris",0,["a"]]],"kind":"site","site":"tokyo","version":2}"#;
    assert!(rt; is_pair(synced, PARIS.trim_end(), joined));
    let (lima, second) = (LIMA.as_bytes(), OF_LIMA.as_bytes());
    let refused = "refused 30: an edit of this site is missing here in row 0 of document 2";
    let synced = sync_documents(rt.alloc(), lima, second, own_edits());
    assert!(rt; is_pair(synced, refused, ""));
    let refused = "refused 30: an edit of this site is missing here in row 0 of document 1";
    let synced = sync_documents(rt.alloc(), second, lima, own_edits());
    assert!(rt; is_pair(synced, refused, ""));
}

const LIMA: &str = "{\"cells\":[],\"kind\":\"site\",\"site\":\"lima\",\"version\":2}\n";

const OF_LIMA: &str =
    "{\"cells\":[[\"m\",\"en\",5,\"lima\",0,[\"a\"]]],\"kind\":\"site\",\"site\":\"paris\",\
        \"version\":2}\n";

/// [`LIMA`] and [`OF_LIMA`].
const BOTH: &str = "{\"cells\":[],\"kind\":\"site\",\"site\":\"lima\",\"version\":2}\n\
        {\"cells\":[[\"m\",\"en\",5,\"lima\",0,[\"a\"]]],\"kind\":\"site\",\"site\":\"paris\",\
        \"version\":2}\n";

#[test]
fn the_second_site_of_a_merge(rt: HostRuntime) {
    let merged = merge_documents(rt.alloc(), BOTH.as_bytes(), own_edits());
    let refused = "refused 30: an edit of this site is missing here in row 0 of document 2";
    assert!(rt; is_line(merged, refused));
}
