//! Calls over documents, each with what it answers.

use super::answers::{is_line, is_pair};
use cell_core::{Label, MessageId};
use docs_core::{
    Checks, Doc, DocFault, delta_document, edit_document, read_delta, read_site, read_summary,
    sync_documents, take_document, write_delta, write_site, write_summary,
};
use lang_core::Lang;
use std::alloc::Global;

const EMPTY: &str = "{\"cells\":[],\"kind\":\"site\",\"site\":\"0000000001\",\"version\":2}\n";

const EDITED: &str = "{\"cells\":[[\"m\",\"en\",5,\"0000000001\",0,[\"a\"]]],\
        \"kind\":\"site\",\"site\":\"0000000001\",\"version\":2}\n";

const DELETED: &str = "{\"cells\":[[\"m\",\"en\",5,\"0000000001\",1,null]],\
        \"kind\":\"site\",\"site\":\"0000000001\",\"version\":2}\n";

const OTHER: &str = "{\"cells\":[],\"kind\":\"site\",\"site\":\"0000000002\",\"version\":2}\n";

const SUMMARY_OF_OTHER: &str =
    "{\"kind\":\"summary\",\"owner\":\"0000000002\",\"stamps\":[],\"version\":2}\n";

const DELTA: &str = "{\"cells\":[[\"m\",\"en\",5,\"0000000001\",0,[\"a\"]]],\
        \"kind\":\"delta\",\"to\":\"0000000002\",\"version\":2}\n";

const TAKEN: &str = "{\"cells\":[[\"m\",\"en\",5,\"0000000001\",0,[\"a\"]]],\
        \"kind\":\"site\",\"site\":\"0000000002\",\"version\":2}\n";

/// Two sites that have the deletion which a third made.
const FIRST_HELD: &str = "{\"cells\":[[\"m\",\"en\",7,\"0000000003\",0,null]],\
        \"kind\":\"site\",\"site\":\"0000000001\",\"version\":2}\n";

const HELD: &str = "{\"cells\":[[\"m\",\"en\",7,\"0000000003\",0,null]],\
        \"kind\":\"site\",\"site\":\"0000000002\",\"version\":2}\n";

const DELTA_AS_1: &str = r#"{"cells":[["m","en",5,1,0,["a"]]],"kind":"delta","to":2,"version":1}"#;

const IMPORTED: &str = "{\"cells\":[[\"m\",\"@none\",10,\"0000000001\",0,[\"c\"]],\
        [\"m\",\"en\",10,\"0000000001\",1,[\"a\"]],[\"m\",\"fr\",10,\"0000000001\",2,[\"b\"]]],\
        \"kind\":\"site\",\"site\":\"0000000001\",\"version\":2}\n";

const IMPORTED_AS_1: &str =
    "{\"version\":1,\"site\":1,\"kind\":\"site\",\"cells\":[[\"m\",\"@none\",10,1,0,[\"c\"]],\
        [\"m\",\"EN\",10,1,1,[\"a\"]],[\"m\",\"fr\",10,1,2,[\"b\"]]]}";

const SUMMARY: &str =
    "{\"kind\":\"summary\",\"owner\":\"0000000007\",\"stamps\":[[\"m\",\"en\",5,\"0000000000\",0],\
        [\"m\",\"fr\",18446744073709551615,\"4294967295\",4294967295]],\"version\":2}\n";

const SUMMARY_AS_1: &str = concat!(
    r#"{"kind":"summary","owner":7,"stamps":[["m","EN",5,0,0],"#,
    r#"["m","fr",18446744073709551615,4294967295,4294967295]],"version":1}"#
);

fn rewritten_site(alloc: Global, text: &str) -> Result<Doc, DocFault> {
    let site = read_site(alloc, text.as_bytes())?;
    Ok(write_site(alloc, &site)?)
}

fn rewritten_delta(alloc: Global, text: &str) -> Result<Doc, DocFault> {
    let delta = read_delta(alloc, text.as_bytes())?;
    Ok(write_delta(alloc, &delta)?)
}

fn rewritten_summary(alloc: Global, text: &str) -> Result<Doc, DocFault> {
    let summary = read_summary(alloc, text.as_bytes())?;
    Ok(write_summary(alloc, &summary)?)
}

fn label(alloc: Global, text: &str) -> Option<Label> {
    let text = String::from_str(alloc, text).ok()?;
    Label::from_texts(Vec::from_array(alloc, [text]).ok()?).ok()
}

/// The site after a put, or without a text a deletion, for `m` in English.
fn edited(alloc: Global, site: &str, now: u64, label: Option<&Label>) -> Result<Doc, DocFault> {
    match (MessageId::new(alloc, "m"), Lang::parse(alloc, b"en")) {
        (Ok(id), Ok(lang)) => edit_document(alloc, site.as_bytes(), now, &id, &lang, label),
        _ => Ok(Doc::from(Vec::new(alloc))),
    }
}

fn put(alloc: Global, site: &str, now: u64, text: &str) -> Result<Doc, DocFault> {
    match label(alloc, text) {
        Some(label) => edited(alloc, site, now, Some(&label)),
        None => Ok(Doc::from(Vec::new(alloc))),
    }
}

/// Documents of both versions, and what is written of what is read of them.
#[test]
fn what_is_read_is_written(rt: HostRuntime) {
    let alloc = rt.alloc();
    assert!(rt; is_line(rewritten_site(alloc, IMPORTED_AS_1), IMPORTED.trim_end()));
    assert!(rt; is_line(rewritten_delta(alloc, DELTA), DELTA.trim_end()));
    assert!(rt; is_line(rewritten_delta(alloc, DELTA_AS_1), DELTA.trim_end()));
    assert!(rt; is_line(rewritten_summary(alloc, SUMMARY), SUMMARY.trim_end()));
    assert!(rt; is_line(rewritten_summary(alloc, SUMMARY_AS_1), SUMMARY.trim_end()));
}

#[test]
fn edits(rt: HostRuntime) {
    assert!(rt; is_line(put(rt.alloc(), EMPTY, 5, "a"), EDITED.trim_end()));
    assert!(rt; is_line(edited(rt.alloc(), EDITED, 3, None), DELETED.trim_end()));
}

fn delta(alloc: Global, site: &str, summary: &str) -> Result<Doc, DocFault> {
    delta_document(alloc, site.as_bytes(), summary.as_bytes())
}

fn taken(alloc: Global, site: &str, delta: &str) -> Result<Doc, DocFault> {
    take_document(alloc, site.as_bytes(), delta.as_bytes(), Checks::none())
}

#[test]
fn a_delta_is_made_and_taken(rt: HostRuntime) {
    let refused = "refused 15: delta is for site 0000000002";
    assert!(rt;
        is_line(
            delta(rt.alloc(), EDITED, SUMMARY_OF_OTHER),
            DELTA.trim_end()
        )
    );
    assert!(rt; is_line(taken(rt.alloc(), OTHER, DELTA), TAKEN.trim_end()));
    assert!(rt; is_line(taken(rt.alloc(), EMPTY, DELTA), refused));
}

/// A deletion after a put.
#[test]
fn a_sync(rt: HostRuntime) {
    let synced = sync_documents(
        rt.alloc(),
        EDITED.as_bytes(),
        HELD.as_bytes(),
        Checks::none(),
    );
    assert!(rt; is_pair(synced, FIRST_HELD.trim_end(), HELD.trim_end()));
}
