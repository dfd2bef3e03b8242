//! Lookups that are widened, by the rows of the specification.

use crate::tests::offers::ALL;
use front_core::{
    Answer, Field, FrontFault, Lookup, OpenSite, Outcome, Picked, Question, Reader, SiteIn, pick,
};
use nego_core::{Malformed, Scheme, Widening};
use std::process::Abort;
use std::test::Fail;

const SITE: &[u8] = b"{\"cells\":[\
      [\"m\",\"en-us\",1,\"a\",0,[\"Hi\"]],\
      [\"m\",\"fr\",1,\"a\",1,[\"Salut\"]],\
      [\"n\",\"fr\",1,\"a\",2,[\"Non\"]]],\
      \"kind\":\"site\",\"site\":\"a\",\"version\":2}";

fn widened(scheme: Scheme, text: &str) -> Field<'_> {
    Field {
        scheme,
        malformed: Malformed::Refused,
        widening: Widening::By(scheme),
        fallbacks: &[],
        text: text.as_bytes(),
    }
}

fn assert_line(rt: &impl Abort, answer: Result<Answer, FrontFault>, line: &str, found: Outcome) {
    let is_so = match answer {
        Ok(Answer { text, outcome }) => text.bytes() == line.as_bytes() && outcome == found,
        Err(_) => false,
    };
    assert!(rt; is_so, "{line}");
}

#[test]
fn lines_of_tags(rt: HostRuntime) {
    let alloc = rt.alloc();
    let field = widened(Scheme::Extended, "de-*-DE");
    let picked = pick(alloc, ALL, field, None, b"de-Latn-DE");
    assert_eq!(rt; picked, Ok(Picked::Matched(b"de-Latn-DE")));
    let exact = Field {
        widening: Widening::Off,
        ..widened(Scheme::Basic, "en")
    };
    assert_eq!(rt;
        pick(alloc, ALL, exact, None, b"en-US\nfr"),
        Ok(Picked::Nothing)
    );
}

#[test]
fn a_site(rt: HostRuntime) -> Result<(), Fail> {
    let alloc = rt.alloc();
    let open = OpenSite::read(alloc, SITE)?;
    let field = widened(Scheme::Basic, "en, fr;q=0.5");
    let line = "matched en-us [\"Hi\"]\n";
    let maps = "{\"m\":{\"en-us\":\"Hi\"},\"n\":{\"fr\":\"Non\"}}\n";
    let lookup = Lookup::read(alloc, b"m", ALL, field, None)?;
    let bundle = Reader::read(alloc, ALL, field, None)?;
    for site in [SiteIn::Open(open.site()), SiteIn::Document(SITE)] {
        assert_line(&rt, lookup.answer(alloc, site), line, Outcome::Found);
        assert_line(&rt, bundle.answer(alloc, site), maps, Outcome::Found);
    }
    Ok(())
}
