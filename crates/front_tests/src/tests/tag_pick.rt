//! Tags that are picked for a field.

use crate::tests::offers::ALL;
use front_core::{Field, FrontFault, Offering, Picked, pick};
use lang_core::LangFault;
use nego_core::{Malformed, Scheme, Widening};
use std::alloc::Global;
use std::process::Abort;

const TAGS: &[u8] = b"en\nfr\n";

fn accept(text: &str) -> Field<'_> {
    Field {
        scheme: Scheme::Basic,
        malformed: Malformed::Refused,
        widening: Widening::Off,
        fallbacks: &[],
        text: text.as_bytes(),
    }
}

fn lenient(text: &str) -> Field<'_> {
    Field {
        malformed: Malformed::PassedOver,
        ..accept(text)
    }
}

fn extended(text: &str) -> Field<'_> {
    Field {
        scheme: Scheme::Extended,
        ..accept(text)
    }
}

/// For the field, with this default, this is picked of the tags.
fn assert_pick(
    rt: &impl Abort,
    alloc: Global,
    field: Field<'_>,
    default: Option<&[u8]>,
    tags: &[u8],
    wanted: Picked<'_>,
) {
    assert_eq!(rt; pick(alloc, ALL, field, default, tags), Ok(wanted));
}

#[test]
fn the_best_tag(rt: HostRuntime) {
    let alloc = rt.alloc();
    let de = extended("de-*-DE");
    let best = Picked::Matched(b"de-DE");
    assert_pick(&rt, alloc, de, None, b"de\nde-DE", best);
    let fr = lenient("en_US, fr");
    assert_pick(&rt, alloc, fr, None, TAGS, Picked::Matched(b"fr"));
}

#[test]
fn no_tag(rt: HostRuntime) {
    let alloc = rt.alloc();
    let en = accept("en");
    assert_pick(&rt, alloc, en, None, b"@none", Picked::Nothing);
    assert_pick(&rt, alloc, en, Some(b"en"), b"", Picked::Nothing);
}

#[test]
fn the_default(rt: HostRuntime) {
    let ja = accept("ja");
    let en = Picked::Default(b"en");
    assert_pick(&rt, rt.alloc(), ja, Some(b"EN"), TAGS, en);
}

#[test]
fn of_equal_tags_the_first_as_it_is_written(rt: HostRuntime) {
    let alloc = rt.alloc();
    let tags = b"fr\nDE-ch\nde-CH\nde-ch\n";
    let first = Picked::Matched(b"DE-ch");
    assert_pick(&rt, alloc, accept("de-CH"), None, tags, first);
    let first = Picked::Default(b"DE-ch");
    assert_pick(&rt, alloc, accept("ja"), Some(b"de-ch"), tags, first);
}

#[test]
fn of_tags_that_are_offered(rt: HostRuntime) {
    let alloc = rt.alloc();
    let offer = Offering::Field(b"*, fr;q=0");
    let field = accept("fr, en;q=0.5");
    let picked = pick(alloc, offer, field, Some(b"fr"), TAGS);
    assert_eq!(rt; picked, Ok(Picked::Matched(b"en")));
    let picked = pick(alloc, offer, accept("ja"), Some(b"fr"), TAGS);
    assert_eq!(rt; picked, Ok(Picked::Nothing));
    let picked = pick(alloc, offer, field, None, b"en\nfr-ab_c\n");
    let fault = FrontFault::Language(LangFault::TagSubtag { offset: 3 });
    assert_eq!(rt; picked, Err(fault));
}
