//! Picks from the words of a command.

use docs_core::Doc;
use front_core::words::{pick, pick_answer, pick_scheme, pick_with};
use front_core::{Field, FrontFault, Outcome};
use lang_core::LangFault;
use nego_core::{Malformed, NegoFault, Scheme, Widening};
use std::alloc::{AllocError, Global};
use std::process::Abort;
use std::test::Fail;

fn words_of(alloc: Global, words: &[&str]) -> Result<Vec<String>, AllocError> {
    let mut copies = Vec::new(alloc);
    for word in words {
        copies.push(String::from_str(alloc, word)?)?;
    }
    Ok(copies)
}

fn assert_line(rt: &impl Abort, picked: Result<Doc, FrontFault>, line: &str, case: &str) {
    let is_line = match picked {
        Ok(doc) => doc.bytes() == line.as_bytes(),
        Err(_) => false,
    };
    assert!(rt; is_line, "{case}");
}

#[test]
fn strictly(rt: HostRuntime) -> Result<(), Fail> {
    let alloc = rt.alloc();
    let tags = words_of(alloc, &["de", "de-DE", "@none"])?;
    let ranges = "de-CH;q=0.3";
    assert_line(&rt, pick(alloc, ranges, &tags), "matched de\n", ranges);
    let picked = pick_scheme(alloc, Scheme::Extended, "de-*-DE", &tags);
    assert_line(&rt, picked, "matched de-de\n", "de-*-DE");
    let fault = FrontFault::Field(NegoFault::FieldMalformed { offset: 0 });
    assert_eq!(rt; pick(alloc, "de-*-DE", &tags).err(), Some(fault));
    Ok(())
}

#[test]
fn with_a_default(rt: HostRuntime) -> Result<(), Fail> {
    let alloc = rt.alloc();
    let tags = words_of(alloc, &["en", "fr"])?;
    let (scheme, lenient) = (Scheme::Basic, Malformed::PassedOver);
    let picked = pick_with(alloc, scheme, lenient, Some("en"), "en_US", &tags);
    assert_line(&rt, picked, "default en\n", "en_US");
    let picked = pick_with(alloc, scheme, Malformed::Refused, Some("e"), ";", &tags);
    let fault = FrontFault::Language(LangFault::TagNotWellFormed);
    assert_eq!(rt; picked.err(), Some(fault));
    Ok(())
}

#[test]
fn borrowed_words(rt: HostRuntime) -> Result<(), Fail> {
    let field = Field {
        scheme: Scheme::Basic,
        malformed: Malformed::Refused,
        widening: Widening::Off,
        fallbacks: &[],
        text: b"fr-CA".as_slice(),
    };
    let tags = ["en", "FR"];
    let answer = pick_answer(rt.alloc(), field, None, tags.as_slice())?;
    assert!(rt; answer.text.bytes() == b"matched fr\n".as_slice());
    assert_eq!(rt; answer.outcome, Outcome::Found);
    Ok(())
}
