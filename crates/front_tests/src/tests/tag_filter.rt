//! All tags that a field takes, by the rows of the specification.

use crate::tests::offers::ALL;
use front_core::words::filter_answer;
use front_core::{Answer, Field, FrontFault, Offering, Outcome, filter_tags};
use nego_core::{Malformed, Scheme, Widening};
use std::process::Abort;

fn field(scheme: Scheme, text: &str) -> Field<'_> {
    Field {
        scheme,
        malformed: Malformed::Refused,
        widening: Widening::Off,
        fallbacks: &[],
        text: text.as_bytes(),
    }
}

fn assert_lines(rt: &impl Abort, answer: Result<Answer, FrontFault>, lines: &str, found: Outcome) {
    let is_so = match answer {
        Ok(Answer { text, outcome }) => text.bytes() == lines.as_bytes() && outcome == found,
        Err(_) => false,
    };
    assert!(rt; is_so, "{lines}");
}

#[test]
fn of_words_in_lower_case(rt: HostRuntime) {
    let ranges = field(Scheme::Basic, "da, en-gb;q=0.8, en;q=0.7");
    let tags = ["en", "da-DK", "en-GB-oed", "@none", "en"];
    let lines = "filter 4\nda-dk 1000\nen-gb-oed 800\nen 700\nen 700\n";
    let answer = filter_answer(rt.alloc(), ranges, tags.as_slice());
    assert_lines(&rt, answer, lines, Outcome::Found);
}

#[test]
fn of_lines_as_they_are_written(rt: HostRuntime) {
    let ranges = field(Scheme::Basic, "da, en-gb;q=0.8, en;q=0.7");
    let tags = b"en\nda-DK\nen-GB-oed\n@none\nen".as_slice();
    let lines = "filter 4\nda-DK 1000\nen-GB-oed 800\nen 700\nen 700\n";
    let answer = filter_tags(rt.alloc(), ALL, ranges, tags);
    assert_lines(&rt, answer, lines, Outcome::Found);
}

#[test]
fn nothing(rt: HostRuntime) {
    let ranges = field(Scheme::Basic, "ja");
    let answer = filter_tags(rt.alloc(), ALL, ranges, b"en\n");
    assert_lines(&rt, answer, "filter 0\n", Outcome::Nothing);
    let answer = filter_tags(rt.alloc(), ALL, ranges, b"");
    assert_lines(&rt, answer, "filter 0\n", Outcome::Nothing);
}

#[test]
fn extended(rt: HostRuntime) {
    let ranges = field(Scheme::Extended, "de-*-DE");
    let answer = filter_tags(rt.alloc(), ALL, ranges, b"de-Latn-DE\nde");
    assert_lines(&rt, answer, "filter 1\nde-Latn-DE 1000\n", Outcome::Found);
}

#[test]
fn equal_weights_by_tag_and_then_by_place(rt: HostRuntime) {
    let ranges = field(Scheme::Basic, "en");
    let answer = filter_tags(rt.alloc(), ALL, ranges, b"EN-us\nen-GB\nEN\nen-us");
    let lines = "filter 4\nEN 1000\nen-GB 1000\nEN-us 1000\nen-us 1000\n";
    assert_lines(&rt, answer, lines, Outcome::Found);
}

#[test]
fn of_tags_that_are_offered(rt: HostRuntime) {
    let ranges = field(Scheme::Basic, "fr, en;q=0.5");
    let offer = Offering::Field(b"en, de");
    let answer = filter_tags(rt.alloc(), offer, ranges, b"en-GB\nfr\nEN\n");
    assert_lines(&rt, answer, "filter 2\nEN 500\nen-GB 500\n", Outcome::Found);
}
