//! Texts of a whole site, and which of them count as found.

use front_core::{OpenSite, Outcome, Question, SiteIn, View};
use std::alloc::Global;
use std::test::Fail;

const SITE: &[u8] = b"{\"cells\":[[\"m\",\"en\",5,\"paris\",0,[\"Hello\"]],\
    [\"m\",\"fr\",6,\"paris\",0,[\"Bonjour\"]],[\"n\",\"en\",7,\"paris\",0,[\"a\",\"b\"]],\
    [\"o\",\"de\",8,\"paris\",0,null]],\"kind\":\"site\",\"site\":\"paris\",\"version\":2}\n";

const EMPTY: &[u8] = b"{\"cells\":[],\"kind\":\"site\",\"site\":\"paris\",\"version\":2}\n";

/// Whether the site, open and where its document lies, shows this text with this outcome.
fn shows(
    alloc: Global,
    site: &[u8],
    view: View,
    text: &str,
    outcome: Outcome,
) -> Result<bool, Fail> {
    let open = OpenSite::read(alloc, site)?;
    for site in [SiteIn::Open(open.site()), SiteIn::Document(site)] {
        let answer = view.answer(alloc, site)?;
        if answer.text.bytes() != text.as_bytes() || answer.outcome != outcome {
            return Ok(false);
        }
    }
    Ok(true)
}

#[test]
fn labels_are_found_if_there_are_any(rt: HostRuntime) -> Result<(), Fail> {
    let lines = "labels 2\nen 2\nfr 1\n";
    assert!(rt; shows(rt.alloc(), SITE, View::Labels, lines, Outcome::Found)?);
    assert!(rt;
        shows(
            rt.alloc(),
            EMPTY,
            View::Labels,
            "labels 0\n",
            Outcome::Nothing
        )?
    );
    Ok(())
}

/// The other texts count as found of an empty site too.
#[test]
fn an_empty_site_is_shown(rt: HostRuntime) -> Result<(), Fail> {
    let status = "site paris cells 0 labels 0 last none\n";
    assert!(rt; shows(rt.alloc(), EMPTY, View::Status, status, Outcome::Found)?);
    assert!(rt; shows(rt.alloc(), EMPTY, View::Export, "{}\n", Outcome::Found)?);
    Ok(())
}
