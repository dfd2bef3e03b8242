//! Questions to the document of a site where it lies, and what bytes are taken for its rows.

use crate::tests::offers::ALL;
use front_core::{Answer, Field, Filter, FrontFault, LabelText, Lookup, Outcome, message_in};
use nego_core::{Malformed, Scheme, Widening};
use std::alloc::Global;
use std::process::Abort;
use std::test::Fail;

/// As it is written: labels that end as a row does, ids with quotes and backslashes, a deletion.
const TEXT: &[u8] = b"{\"cells\":[\
      [\"a\",\"de\",1,\"s\",0,[\"x],[\",\",\",\"en\"]],\
      [\"a\",\"en\",1,\"s\",1,[\"],[\\\"b\\\",\\\"en\\\",1\"]],\
      [\"b\\\"\\\\\",\"en\",1,\"s\",2,[\"two\"]],\
      [\"b#\",\"en\",1,\"s\",3,null],\
      [\"c\",\"@none\",1,\"s\",4,[\"any\"]],\
      [\"c\",\"fr\",2,\"s\",0,[\"trois\"]]],\
      \"kind\":\"site\",\"site\":\"s\",\"version\":2}\n";

/// The same site with a blank, which is no written form.
const SPACED: &[u8] = b"{\"cells\": [[\"c\",\"fr\",2,\"s\",0,[\"trois\"]]],\
      \"kind\":\"site\",\"site\":\"s\",\"version\":2}\n";

fn accept(text: &str) -> Field<'_> {
    Field {
        scheme: Scheme::Basic,
        malformed: Malformed::Refused,
        widening: Widening::Off,
        fallbacks: &[],
        text: text.as_bytes(),
    }
}

fn is_line(answer: Result<Answer, FrontFault>, text: &str, outcome: Outcome) -> bool {
    match answer {
        Ok(answer) => answer.text.bytes() == text.as_bytes() && answer.outcome == outcome,
        Err(_) => false,
    }
}

fn looked_up(alloc: Global, text: &[u8], id: &str, field: &str) -> Result<Answer, FrontFault> {
    Lookup::read(alloc, id.as_bytes(), ALL, accept(field), None)?.answer_in(alloc, text)
}

/// A lookup has this line, with the last line feed of the document and without.
fn assert_line(
    rt: &impl Abort,
    alloc: Global,
    id: &str,
    field: &str,
    line: &str,
    outcome: Outcome,
) {
    for text in [TEXT, &TEXT[..TEXT.len() - 1]] {
        let answer = looked_up(alloc, text, id, field);
        assert!(rt; is_line(answer, line, outcome), "{id}");
    }
}

#[test]
fn a_line_of_each_message(rt: HostRuntime) -> Result<(), Fail> {
    let alloc = rt.alloc();
    let texts = "matched de [\"x],[\",\",\",\"en\"]\n";
    assert_line(&rt, alloc, "a", "de", texts, Outcome::Found);
    let row = "matched en [\"],[\\\"b\\\",\\\"en\\\",1\"]\n";
    assert_line(&rt, alloc, "a", "en", row, Outcome::Found);
    assert_line(
        &rt,
        alloc,
        "b\"\\",
        "en",
        "matched en [\"two\"]\n",
        Outcome::Found,
    );
    assert_line(
        &rt,
        alloc,
        "c",
        "fr, en",
        "matched fr [\"trois\"]\n",
        Outcome::Found,
    );
    Ok(())
}

#[test]
fn nothing_of_other_ids_and_deletions(rt: HostRuntime) -> Result<(), Fail> {
    let alloc = rt.alloc();
    for id in ["A", "aa", "b", "b\"", "b#", "b,", "d", ","] {
        assert_line(&rt, alloc, id, "en", "nothing\n", Outcome::Nothing);
    }
    Ok(())
}

#[test]
fn lines_of_a_filter(rt: HostRuntime) -> Result<(), Fail> {
    let alloc = rt.alloc();
    let asked = Filter::read(alloc, b"c", ALL, accept("fr;q=0.5, *;q=0.1"))?;
    let lines = "filter 1\nfr 500 [\"trois\"]\n";
    assert!(rt; is_line(asked.answer_in(alloc, TEXT), lines, Outcome::Found));
    Ok(())
}

#[test]
fn a_text_at_a_place(rt: HostRuntime) -> Result<(), Fail> {
    let alloc = rt.alloc();
    let asked = Lookup::read(alloc, b"a", ALL, accept("de"), None)?;
    let part = message_in(alloc, TEXT, &asked.id)?;
    let found = LabelText::Found {
        text: ",",
        count: 3,
    };
    assert!(rt; asked.text(&part, 1) == found);
    assert!(rt; asked.text(&part, 3) == LabelText::PastEnd { count: 3 });
    Ok(())
}

/// What refuses a lookup of `c` for `fr` in this text.
fn refusal(alloc: Global, text: &[u8]) -> Option<u8> {
    let fault = looked_up(alloc, text, "c", "fr").err()?;
    Some(fault.number())
}

#[test]
fn other_forms_are_read_whole(rt: HostRuntime) -> Result<(), Fail> {
    let alloc = rt.alloc();
    let line = looked_up(alloc, SPACED, "c", "fr");
    assert!(rt; is_line(line, "matched fr [\"trois\"]\n", Outcome::Found));
    assert_eq!(rt; refusal(alloc, b""), Some(19));
    assert_eq!(rt; refusal(alloc, b"{}"), Some(20));
    assert_eq!(rt; refusal(alloc, b"\xff"), Some(18));
    Ok(())
}
