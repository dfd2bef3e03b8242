//! Questions to a site: the lines and the texts that answer them.

use crate::tests::offers::ALL;
use front_core::{
    Answer, Field, Filter, FrontFault, LabelText, Lookup, OpenSite, Outcome, Question, SiteIn,
};
use nego_core::{Malformed, Scheme, Widening};
use std::alloc::Global;
use std::process::Abort;
use std::test::Fail;

const SITE: &[u8] = b"{\"cells\":[\
      [\"m\",\"@none\",1,1,0,[\"x\"]],\
      [\"m\",\"en\",1,1,1,[\"Hello\"]],\
      [\"m\",\"fr\",1,1,2,[\"Bonjour\",\"Salut\"]]],\
      \"kind\":\"site\",\"site\":1,\"version\":1}";

fn questions(alloc: Global) -> Result<OpenSite, FrontFault> {
    OpenSite::read(alloc, SITE)
}

fn accept(text: &str) -> Field<'_> {
    Field {
        scheme: Scheme::Basic,
        malformed: Malformed::Refused,
        widening: Widening::Off,
        fallbacks: &[],
        text: text.as_bytes(),
    }
}

fn is_answer(answer: Result<Answer, FrontFault>, text: &str, outcome: Outcome) -> bool {
    match answer {
        Ok(answer) => answer.text.bytes() == text.as_bytes() && answer.outcome == outcome,
        Err(_) => false,
    }
}

fn looked_up(alloc: Global, field: &str, site: SiteIn<'_>) -> Result<Answer, FrontFault> {
    Lookup::read(alloc, b"m", ALL, accept(field), Some(b"fr"))?.answer(alloc, site)
}

/// A lookup of `m` by this field, with `fr` as its default, has this line.
fn assert_line(
    rt: &impl Abort,
    alloc: Global,
    site: &OpenSite,
    field: &str,
    line: &str,
    outcome: Outcome,
) {
    for site in [SiteIn::Open(site.site()), SiteIn::Document(SITE)] {
        let answer = looked_up(alloc, field, site);
        assert!(rt; is_answer(answer, line, outcome), "{field}");
    }
}

#[test]
fn a_line_of_a_lookup(rt: HostRuntime) -> Result<(), Fail> {
    let alloc = rt.alloc();
    let site = questions(alloc)?;
    let matched = "matched en [\"Hello\"]\n";
    assert_line(&rt, alloc, &site, "de, en;q=0.5", matched, Outcome::Found);
    let default = "default fr [\"Bonjour\",\"Salut\"]\n";
    assert_line(&rt, alloc, &site, "de", default, Outcome::Found);
    assert_line(
        &rt,
        alloc,
        &site,
        "de, *;q=0",
        "nothing\n",
        Outcome::Nothing,
    );
    Ok(())
}

/// A lookup of a message by a field.
#[derive(Clone, Copy)]
struct Asked<'q> {
    id: &'q str,
    field: &'q str,
    default: Option<&'q [u8]>,
}

/// At this place of what is looked up is this.
fn assert_text(
    rt: &impl Abort,
    alloc: Global,
    site: &OpenSite,
    asked: Asked<'_>,
    place: usize,
    wanted: LabelText<'_>,
) {
    let id = asked.id.as_bytes();
    match Lookup::read(alloc, id, ALL, accept(asked.field), asked.default) {
        Ok(lookup) => assert_eq!(rt; lookup.text(site.site(), place), wanted),
        Err(fault) => panic!(rt; "{fault}"),
    }
}

fn found(text: &str, count: usize) -> LabelText<'_> {
    LabelText::Found { text, count }
}

#[test]
fn a_text_of_a_lookup(rt: HostRuntime) -> Result<(), Fail> {
    let alloc = rt.alloc();
    let site = questions(alloc)?;
    let asked = Asked {
        id: "m",
        field: "fr",
        default: None,
    };
    assert_text(&rt, alloc, &site, asked, 0, found("Bonjour", 2));
    assert_text(&rt, alloc, &site, asked, 1, found("Salut", 2));
    assert_text(&rt, alloc, &site, asked, 2, LabelText::PastEnd { count: 2 });
    Ok(())
}

#[test]
fn a_text_of_a_default(rt: HostRuntime) -> Result<(), Fail> {
    let site = questions(rt.alloc())?;
    let asked = Asked {
        id: "m",
        field: "ja",
        default: Some(b"@none"),
    };
    assert_text(&rt, rt.alloc(), &site, asked, 0, found("x", 1));
    Ok(())
}

#[test]
fn no_text_of_a_lookup(rt: HostRuntime) -> Result<(), Fail> {
    let alloc = rt.alloc();
    let site = questions(alloc)?;
    let (id, default) = ("m", None);
    let field = "ja";
    let asked = Asked { id, field, default };
    assert_text(&rt, alloc, &site, asked, 0, LabelText::Nothing);
    let (id, field) = ("z", "fr");
    let asked = Asked { id, field, default };
    assert_text(&rt, alloc, &site, asked, 0, LabelText::Nothing);
    Ok(())
}

/// A filter of a message by this field has these lines.
fn assert_lines(
    rt: &impl Abort,
    alloc: Global,
    id: &str,
    field: Field<'_>,
    lines: &str,
    outcome: Outcome,
) -> Result<(), Fail> {
    let open = questions(alloc)?;
    let asked = Filter::read(alloc, id.as_bytes(), ALL, field)?;
    for site in [SiteIn::Open(open.site()), SiteIn::Document(SITE)] {
        let answer = asked.answer(alloc, site);
        assert!(rt; is_answer(answer, lines, outcome), "{lines}");
    }
    Ok(())
}

#[test]
fn lines_of_a_filter(rt: HostRuntime) -> Result<(), Fail> {
    let lines = "filter 2\nen 1000 [\"Hello\"]\nfr 500 [\"Bonjour\",\"Salut\"]\n";
    let field = accept("fr;q=0.5, en");
    assert_lines(&rt, rt.alloc(), "m", field, lines, Outcome::Found)?;
    let none = "filter 0\n";
    assert_lines(&rt, rt.alloc(), "z", accept("en"), none, Outcome::Nothing)
}
