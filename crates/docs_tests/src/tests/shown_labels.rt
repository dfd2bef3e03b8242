//! Summaries that show labels, and the deltas for them. The digests are those of another program.

use super::answers::is_line;
use docs_core::{
    Checks, Doc, DocFault, Shows, delta_document, delta_of_site, read_site, summary_document,
    summary_of_site, take_document,
};
use std::alloc::Global;
use std::test::Fail;

const PARIS: &str =
    "{\"cells\":[[\"m\",\"en\",5,\"paris\",0,[\"a\"]],[\"m\",\"fr\",6,\"paris\",0,null],\
        [\"n\",\"fr\",7,\"tokyo\",1,[\"Bonjour\",\"é\"]]],\"kind\":\"site\",\"site\":\"paris\",\
        \"version\":2}\n";

const OF_PARIS: &str = concat!(
    r#"{"kind":"summary","labels":["2b288c997252f102","5b9bc4ba528108e4","aa8b4ee109f26af8"],"#,
    r#""owner":"paris","stamps":[["m","en",5,"paris",0],["m","fr",6,"paris",0],"#,
    r#"["n","fr",7,"tokyo",1]],"version":2}"#,
);

/// Another label of the first stamp.
const TOKYO: &str = "{\"cells\":[[\"m\",\"en\",5,\"paris\",0,[\"b\"]]],\"kind\":\"site\",\
        \"site\":\"tokyo\",\"version\":2}\n";

const DELTA: &str = concat!(
    r#"{"cells":[["m","en",5,"paris",0,["b"]]],"kind":"delta","to":"paris","version":2}"#,
);

const NOTHING: &str = r#"{"cells":[],"kind":"delta","to":"paris","version":2}"#;

fn of_site(alloc: Global, site: &str) -> Result<Doc, DocFault> {
    let site = read_site(alloc, site.as_bytes())?;
    Ok(summary_of_site(alloc, &site, Shows::Labels)?)
}

fn from_site(alloc: Global, site: &str, summary: &str) -> Result<Doc, DocFault> {
    let site = read_site(alloc, site.as_bytes())?;
    delta_of_site(alloc, &site, summary.as_bytes())
}

fn delta(alloc: Global, site: &str, summary: &str) -> Result<Doc, DocFault> {
    delta_document(alloc, site.as_bytes(), summary.as_bytes())
}

#[test]
fn the_digests_of_a_site(rt: HostRuntime) {
    let alloc = rt.alloc();
    let shown = summary_document(alloc, PARIS.as_bytes(), Shows::Labels);
    assert!(rt; is_line(shown, OF_PARIS));
    assert!(rt; is_line(of_site(alloc, PARIS), OF_PARIS));
}

#[test]
fn a_stamp_of_two_labels_is_noticed(rt: HostRuntime) {
    let alloc = rt.alloc();
    assert!(rt; is_line(delta(alloc, TOKYO, OF_PARIS), DELTA));
    assert!(rt; is_line(from_site(alloc, TOKYO, OF_PARIS), DELTA));
    assert!(rt; is_line(delta(alloc, PARIS, OF_PARIS), NOTHING));
    let taken = take_document(alloc, PARIS.as_bytes(), DELTA.as_bytes(), Checks::none());
    assert!(rt; is_line(taken, "refused 13: stamp 5 paris 0 used twice, cell 0"));
}

/// Member lists of a summary, which are refused by the shape of the document.
const REFUSED: &str = r#"
"labels":[],"owner":"paris","stamps":[["m","en",5,"paris",0]],"version":2
"labels":["2B288C997252F102"],"owner":"paris","stamps":[["m","en",5,"paris",0]],"version":2
"labels":["2b288c997252f10"],"owner":"paris","stamps":[["m","en",5,"paris",0]],"version":2
"labels":[7],"owner":"paris","stamps":[["m","en",5,"paris",0]],"version":2
"labels":{},"owner":"paris","stamps":[],"version":2
"labels":["2b288c997252f102"],"owner":"paris","stamps":[7,7],"version":2
"labels":[],"owner":7,"stamps":[],"version":1"#;

#[test]
fn digests_of_another_form(rt: HostRuntime) -> Result<(), Fail> {
    let alloc = rt.alloc();
    for members in REFUSED.trim_start().lines() {
        let summary = format!(in alloc; r#"{{"kind":"summary",{members}}}"#)?;
        let refused = "refused 20: shape of document 2";
        assert!(rt;
            is_line(delta(alloc, PARIS, summary.as_str()), refused),
            "{members}"
        );
    }
    Ok(())
}
