//! Deltas and sites with times after a limit.

use super::answers::{is_line, is_pair, is_refusal, until};
use cata_core::Catalogue;
use docs_core::{first_row_ahead, read_delta, read_delta_until, sync_documents, take_document};
use std::test::Fail;

const SITE: &str =
    "{\"cells\":[[\"m\",\"en\",500,\"a\",0,[\"own\"]]],\"kind\":\"site\",\"site\":\"a\",\
        \"version\":2}\n";

const OTHER: &str = "{\"cells\":[],\"kind\":\"site\",\"site\":\"b\",\"version\":2}\n";

/// Its row 1 has the time 101.
const DELTA: &str =
    "{\"cells\":[[\"m\",\"en\",100,\"b\",0,[\"x\"]],[\"m\",\"fr\",101,\"b\",0,null],\
        [\"n\",\"en\",102,\"b\",0,[\"y\"]]],\"kind\":\"delta\",\"to\":\"a\",\"version\":2}\n";

const TAKEN: &str =
    "{\"cells\":[[\"m\",\"en\",500,\"a\",0,[\"own\"]],[\"m\",\"fr\",101,\"b\",0,null],\
        [\"n\",\"en\",102,\"b\",0,[\"y\"]]],\"kind\":\"site\",\"site\":\"a\",\"version\":2}\n";

/// A site whose row 0 has the time 101.
const AHEAD: &str =
    "{\"cells\":[[\"m\",\"en\",101,\"c\",0,[\"x\"]]],\"kind\":\"site\",\"site\":\"c\",\
        \"version\":2}\n";

const AHEAD_IN_ROW_1: &str = "refused 29: time is ahead in row 1 of document 2";

#[test]
fn a_delta_is_taken_or_refused(rt: HostRuntime) {
    let (site, delta) = (SITE.as_bytes(), DELTA.as_bytes());
    let taken = take_document(rt.alloc(), site, delta, until(102));
    assert!(rt; is_line(taken, TAKEN.trim_end()));
    let taken = take_document(rt.alloc(), site, delta, until(100));
    assert!(rt; is_line(taken, AHEAD_IN_ROW_1));
}

#[test]
fn a_sync_is_refused(rt: HostRuntime) {
    let (first, second) = (AHEAD.as_bytes(), OTHER.as_bytes());
    let synced = sync_documents(rt.alloc(), first, second, until(100));
    assert!(rt;
        is_pair(
            synced,
            "refused 29: time is ahead in row 0 of document 1",
            ""
        )
    );
}

/// [`OTHER`] once it has the cell of [`AHEAD`].
const SYNCED: &str =
    r#"{"cells":[["m","en",101,"c",0,["x"]]],"kind":"site","site":"b","version":2}"#;

#[test]
fn sites_in_the_limit_are_synced(rt: HostRuntime) {
    let (first, second) = (AHEAD.as_bytes(), OTHER.as_bytes());
    let synced = sync_documents(rt.alloc(), first, second, until(101));
    assert!(rt; is_pair(synced, AHEAD.trim_end(), SYNCED));
}

#[test]
fn a_delta_that_is_read_alone_is_document_1(rt: HostRuntime) {
    let refused = read_delta_until(rt.alloc(), DELTA.as_bytes(), Some(100)).err();
    let is_reported = match refused {
        Some(fault) => is_refusal(fault, "refused 29: time is ahead in row 1 of document 1"),
        None => false,
    };
    assert!(rt; is_reported);
}

/// Whether the rows of [`DELTA`] are ahead of these limits.
fn are_ahead(cells: &Catalogue) -> bool {
    first_row_ahead(cells, 99) == Some(0)
        && first_row_ahead(cells, 101) == Some(2)
        && first_row_ahead(cells, 102).is_none()
}

#[test]
fn the_first_row_ahead(rt: HostRuntime) -> Result<(), Fail> {
    let delta = read_delta(rt.alloc(), DELTA.as_bytes())?;
    assert!(rt; are_ahead(delta.cells()));
    Ok(())
}
