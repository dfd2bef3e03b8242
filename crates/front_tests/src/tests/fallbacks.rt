//! Lookups by a table of fallbacks, by the rows of the specification.

use crate::tests::offers::ALL;
use front_core::{
    Answer, Field, FrontFault, Lookup, OpenSite, Outcome, Picked, Question, Reader, SiteIn, pick,
};
use nego_core::{Malformed, NegoFault, Scheme, Widening};
use std::process::Abort;
use std::test::Fail;

const SITE: &[u8] = b"{\"cells\":[\
      [\"m\",\"en\",1,\"a\",0,[\"Hello\"]],\
      [\"m\",\"nb\",1,\"a\",1,[\"Hei\"]],\
      [\"n\",\"en\",1,\"a\",2,[\"No\"]]],\
      \"kind\":\"site\",\"site\":\"a\",\"version\":2}";

fn by<'a>(fallbacks: &'a str, text: &'a str) -> Field<'a> {
    Field {
        scheme: Scheme::Basic,
        malformed: Malformed::Refused,
        widening: Widening::Off,
        fallbacks: fallbacks.as_bytes(),
        text: text.as_bytes(),
    }
}

fn assert_line(rt: &impl Abort, answer: Result<Answer, FrontFault>, line: &str) {
    let is_so = match answer {
        Ok(Answer { text, outcome }) => {
            text.bytes() == line.as_bytes() && outcome == Outcome::Found
        }
        Err(_) => false,
    };
    assert!(rt; is_so, "{line}");
}

#[test]
fn tags(rt: HostRuntime) {
    let alloc = rt.alloc();
    let table = "zh-TW=zh-Hant, no=nb";
    let picked = pick(alloc, ALL, by(table, "no, da"), None, b"da\nnb");
    assert_eq!(rt; picked, Ok(Picked::Matched(b"nb")));
    let picked = pick(alloc, ALL, by(table, "da"), Some(b"no"), b"nb");
    assert_eq!(rt; picked, Ok(Picked::Nothing));
}

#[test]
fn a_table_is_refused_before_a_field(rt: HostRuntime) {
    let refused = pick(rt.alloc(), ALL, by("no=nb, x", "e_n"), None, b"en");
    assert!(rt; refused == Err(FrontFault::Field(NegoFault::FallbackMalformed { offset: 7 })));
}

#[test]
fn a_site(rt: HostRuntime) -> Result<(), Fail> {
    let alloc = rt.alloc();
    let open = OpenSite::read(alloc, SITE)?;
    let field = by("da=no, no=nb", "da, en;q=0.5");
    let lookup = Lookup::read(alloc, b"m", ALL, field, None)?;
    let bundle = Reader::read(alloc, ALL, field, None)?;
    for site in [SiteIn::Open(open.site()), SiteIn::Document(SITE)] {
        assert_line(&rt, lookup.answer(alloc, site), "matched nb [\"Hei\"]\n");
        let maps = "{\"m\":{\"nb\":\"Hei\"},\"n\":{\"en\":\"No\"}}\n";
        assert_line(&rt, bundle.answer(alloc, site), maps);
    }
    Ok(())
}
