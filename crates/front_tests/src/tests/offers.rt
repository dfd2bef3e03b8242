//! What readers are offered of a site.

use crate::tests::refusals::assert_refused;
use front_core::{
    Answer, Field, Filter, FrontFault, LabelText, Lookup, Offering, OpenSite, Outcome, Question,
    Reader, SiteIn,
};
use lang_core::LangFault;
use nego_core::{Malformed, NegoFault, Offer, PriorityList, Scheme, Widening};
use std::alloc::Global;
use std::test::Fail;

/// What is offered to the readers of tests about other things.
pub(crate) const ALL: Offering<'static> = Offering::Given(Offer::All);

const SITE: &[u8] = b"{\"cells\":[\
    [\"m\",\"en\",5,\"paris\",0,[\"Hello\"]],\
    [\"m\",\"x-note\",5,\"paris\",1,[\"Ask Anna\"]],\
    [\"n\",\"x-note\",5,\"paris\",2,[\"A note\"]]\
    ],\"kind\":\"site\",\"site\":\"paris\",\"version\":2}\n";

fn strict(text: &str) -> Field<'_> {
    Field {
        scheme: Scheme::Basic,
        malformed: Malformed::Refused,
        widening: Widening::Off,
        fallbacks: &[],
        text: text.as_bytes(),
    }
}

fn is_line(answer: Result<Answer, FrontFault>, line: &str, outcome: Outcome) -> bool {
    match answer {
        Ok(found) => found.text.bytes() == line.as_bytes() && found.outcome == outcome,
        Err(_) => false,
    }
}

/// The line of a lookup of the note, over the document, which an open site gives too.
fn note_line(alloc: Global, offering: Offering<'_>, line: &str, outcome: Outcome) -> bool {
    let Ok(open) = OpenSite::read(alloc, SITE) else {
        return false;
    };
    let Ok(asked) = Lookup::read(alloc, b"m", offering, strict("x-note"), Some(b"en")) else {
        return false;
    };
    is_line(asked.answer(alloc, SiteIn::Document(SITE)), line, outcome)
        && is_line(
            asked.answer(alloc, SiteIn::Open(open.site())),
            line,
            outcome,
        )
        && is_line(asked.answer_in(alloc, SITE), line, outcome)
}

#[test]
fn a_note_is_not_offered_unless_the_offer_has_it(rt: HostRuntime) -> Result<(), Fail> {
    let alloc = rt.alloc();
    let list = PriorityList::from_accept(alloc, b"*")?;
    let shown = "matched x-note [\"Ask Anna\"]\n";
    let hidden = "default en [\"Hello\"]\n";
    assert!(rt;
        note_line(
            alloc,
            Offering::Given(Offer::Public),
            hidden,
            Outcome::Found
        )
    );
    for field in ["*, x;q=0", " *;q=1.0 ,, X;q=0.000", "x;q=0, *;q=0.5"] {
        assert!(rt;
            note_line(
                alloc,
                Offering::Field(field.as_bytes()),
                hidden,
                Outcome::Found
            )
        );
    }
    for field in ["*, x", "*, x;q=0, x-note;q=0.1"] {
        assert!(rt;
            note_line(
                alloc,
                Offering::Field(field.as_bytes()),
                shown,
                Outcome::Found
            )
        );
    }
    assert!(rt;
        note_line(
            alloc,
            Offering::Given(Offer::Listed(&list)),
            shown,
            Outcome::Found
        )
    );
    assert!(rt; note_line(alloc, ALL, shown, Outcome::Found));
    assert!(rt; note_line(alloc, Offering::Field(b"fr"), "nothing\n", Outcome::Nothing));
    Ok(())
}

#[test]
fn a_bundle_of_what_is_offered(rt: HostRuntime) -> Result<(), Fail> {
    let alloc = rt.alloc();
    let open = OpenSite::read(alloc, SITE)?;
    let asked = Reader::read(
        alloc,
        Offering::Given(Offer::Public),
        strict("x-note"),
        Some(b"en"),
    )?;
    let maps = "{\"m\":{\"en\":\"Hello\"}}\n";
    assert!(rt;
        is_line(
            asked.answer(alloc, SiteIn::Document(SITE)),
            maps,
            Outcome::Found
        )
    );
    assert!(rt;
        is_line(
            asked.answer(alloc, SiteIn::Open(open.site())),
            maps,
            Outcome::Found
        )
    );
    Ok(())
}

#[test]
fn a_filter_of_what_is_offered(rt: HostRuntime) -> Result<(), Fail> {
    let alloc = rt.alloc();
    let asked = Filter::read(alloc, b"m", Offering::Given(Offer::Public), strict("*"))?;
    let lines = "filter 1\nen 1000 [\"Hello\"]\n";
    assert!(rt;
        is_line(
            asked.answer(alloc, SiteIn::Document(SITE)),
            lines,
            Outcome::Found
        )
    );
    assert!(rt; is_line(asked.answer_in(alloc, SITE), lines, Outcome::Found));
    Ok(())
}

#[test]
fn no_text_of_a_label_that_is_not_offered(rt: HostRuntime) -> Result<(), Fail> {
    let alloc = rt.alloc();
    let open = OpenSite::read(alloc, SITE)?;
    let asked = Lookup::read(
        alloc,
        b"n",
        Offering::Given(Offer::Public),
        strict("x-note"),
        None,
    )?;
    assert!(rt; asked.text(open.site(), 0) == LabelText::Nothing);
    Ok(())
}

#[test]
fn an_offer_that_is_malformed(rt: HostRuntime) {
    let alloc = rt.alloc();
    // (it comes before the field, and after the default)
    let malformed = Offering::Field(b"en, _");
    let fault = FrontFault::Field(NegoFault::FieldMalformed { offset: 4 });
    let lookup = Lookup::read(alloc, b"m", malformed, strict("_"), None);
    assert_refused(&rt, lookup, fault);
    let language = FrontFault::Language(LangFault::TagNotWellFormed);
    let reader = Reader::read(alloc, malformed, strict("_"), Some(b"e"));
    assert_refused(&rt, reader, language);
}
