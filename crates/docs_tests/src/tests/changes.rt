//! What changed between two sites.

use super::answers::is_found;
use docs_core::{Doc, DocFault, changes_document, changes_lines, read_site};
use std::alloc::Global;

const BEFORE: &str = "{\"cells\":[[\"m\",\"en\",5,\"paris\",0,[\"Hello\"]],\
        [\"m\",\"fr\",5,\"paris\",1,[\"Salut\"]]],\"kind\":\"site\",\"site\":\"paris\",\
        \"version\":2}\n";

const AFTER: &str =
    "{\"cells\":[[\"m\",\"en\",5,\"paris\",0,[\"Hello\"]],[\"m\",\"fr\",9,\"tokyo\",0,null],\
        [\"n\",\"de\",7,\"tokyo\",0,[\"a\",\"b\"]]],\"kind\":\"site\",\"site\":\"paris\",\
        \"version\":2}\n";

const CHANGES: &str = "changes 2\n[\"m\",\"fr\",[5,\"paris\",1,[\"Salut\"]],[9,\"tokyo\",0,null]]\n\
        [\"n\",\"de\",null,[7,\"tokyo\",0,[\"a\",\"b\"]]]";

/// What changed between the sites in memory.
fn in_memory(alloc: Global, before: &str, after: &str) -> Result<(Doc, bool), DocFault> {
    let before = read_site(alloc, before.as_bytes())?;
    let after = read_site(alloc, after.as_bytes())?;
    Ok(changes_lines(alloc, before.catalogue(), after.catalogue())?)
}

fn of_documents(alloc: Global, before: &str, after: &str) -> Result<(Doc, bool), DocFault> {
    changes_document(alloc, before.as_bytes(), after.as_bytes())
}

/// A deletion and a new cell.
#[test]
fn changes(rt: HostRuntime) {
    assert!(rt; is_found(of_documents(rt.alloc(), BEFORE, AFTER), CHANGES));
    assert!(rt; is_found(in_memory(rt.alloc(), BEFORE, AFTER), CHANGES));
}

#[test]
fn nothing_changed(rt: HostRuntime) {
    assert!(rt; is_found(of_documents(rt.alloc(), AFTER, AFTER), "changes 0"));
}
