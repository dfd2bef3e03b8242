//! Bundles for readers with priorities.

use crate::tests::offers::ALL;
use front_core::{Answer, Field, FrontFault, OpenSite, Outcome, Question, Reader, SiteIn};
use nego_core::{Malformed, Scheme, Widening};
use std::alloc::Global;
use std::process::Abort;

const SITE: &[u8] = b"{\"cells\":[\
      [\"m\",\"@none\",1,\"a\",0,[\"x\"]],\
      [\"m\",\"en\",1,\"a\",1,[\"Hello\"]],\
      [\"m\",\"fr\",1,\"a\",2,[\"Bonjour\"]],\
      [\"n\",\"de\",1,\"a\",3,[\"Hallo\"]],\
      [\"o\",\"en\",1,\"a\",4,null]],\
      \"kind\":\"site\",\"site\":\"a\",\"version\":2}";

fn accept(text: &str) -> Field<'_> {
    Field {
        scheme: Scheme::Basic,
        malformed: Malformed::Refused,
        widening: Widening::Off,
        fallbacks: &[],
        text: text.as_bytes(),
    }
}

fn bundled(
    alloc: Global,
    site: SiteIn<'_>,
    field: Field<'_>,
    default: Option<&[u8]>,
) -> Result<Answer, FrontFault> {
    Reader::read(alloc, ALL, field, default)?.answer(alloc, site)
}

fn is_answer(answer: Result<Answer, FrontFault>, text: &str, outcome: Outcome) -> bool {
    match answer {
        Ok(answer) => answer.text.bytes() == text.as_bytes() && answer.outcome == outcome,
        Err(_) => false,
    }
}

/// What a reader with this field and this default gets, of the document and of the open site.
fn assert_bundle(
    rt: &impl Abort,
    alloc: Global,
    field: Field<'_>,
    default: Option<&[u8]>,
    text: &str,
    outcome: Outcome,
) {
    let written = bundled(alloc, SiteIn::Document(SITE), field, default);
    assert!(rt; is_answer(written, text, outcome), "{text}");
    let open = match OpenSite::read(alloc, SITE) {
        Ok(site) => bundled(alloc, SiteIn::Open(site.site()), field, default),
        Err(fault) => Err(fault),
    };
    assert!(rt; is_answer(open, text, outcome), "{text}");
}

#[test]
fn each_message_has_the_label_that_is_looked_up(rt: HostRuntime) {
    let text = "{\"m\":{\"fr\":\"Bonjour\"}}\n";
    let field = accept("fr, en;q=0.5");
    assert_bundle(&rt, rt.alloc(), field, None, text, Outcome::Found);
}

#[test]
fn a_default_serves_where_nothing_matches(rt: HostRuntime) {
    let lenient = Field {
        malformed: Malformed::PassedOver,
        ..accept("ja;q=1.001")
    };
    let text = "{\"m\":{\"en\":\"Hello\"}}\n";
    assert_bundle(&rt, rt.alloc(), lenient, Some(b"en"), text, Outcome::Found);
}

#[test]
fn nothing_is_left(rt: HostRuntime) {
    assert_bundle(
        &rt,
        rt.alloc(),
        accept("ja"),
        None,
        "{}\n",
        Outcome::Nothing,
    );
}
