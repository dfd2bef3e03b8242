//! What is refused, in which order, and how it is reported.

use crate::tests::offers::ALL;
use cell_core::CellFault;
use docs_core::{DocCause, DocFault, FieldFault, Spot};
use front_core::{
    Field, Filter, FrontFault, Lookup, Missing, OpenSite, Outdated, Question, Reader, SiteIn, View,
    pick,
};
use lang_core::LangFault;
use nego_core::{Malformed, NegoFault, Scheme, Widening};
use std::alloc::Global;
use std::fmt::InlineText;
use std::process::Abort;

const MALFORMED: NegoFault = NegoFault::FieldMalformed { offset: 9 };

fn accept(text: &[u8]) -> Field<'_> {
    Field {
        scheme: Scheme::Basic,
        malformed: Malformed::Refused,
        widening: Widening::Off,
        fallbacks: &[],
        text,
    }
}

fn malformed() -> Field<'static> {
    accept(b"fr;q=0.4,en;q=1.001")
}

const LANGUAGE: FrontFault = FrontFault::Language(LangFault::TagNotWellFormed);

const FIELD: FrontFault = FrontFault::Field(MALFORMED);

const ID: FrontFault = FrontFault::Cell(CellFault::IdRefused);

pub(crate) fn assert_refused<T: Drop>(
    rt: &impl Abort,
    answer: Result<T, FrontFault>,
    fault: FrontFault,
) {
    assert_eq!(rt; answer.err(), Some(fault));
}

#[test]
fn a_pick_in_order(rt: HostRuntime) {
    let alloc = rt.alloc();
    let tags = b"en\ne\n".as_slice();
    assert_refused(
        &rt,
        pick(alloc, ALL, malformed(), Some(b"e"), tags),
        LANGUAGE,
    );
    assert_refused(&rt, pick(alloc, ALL, malformed(), None, tags), FIELD);
    assert_refused(&rt, pick(alloc, ALL, accept(b"fr"), None, tags), LANGUAGE);
}

const EMPTY: FrontFault = FrontFault::Language(LangFault::TagEmpty);

#[test]
fn a_line_without_bytes(rt: HostRuntime) {
    let fr = accept(b"fr");
    for tags in ["\n", "en\n\n", "\nen", "en\n\nfr"] {
        let picked = pick(rt.alloc(), ALL, fr, None, tags.as_bytes());
        assert_eq!(rt; picked, Err(EMPTY), "{tags}");
    }
    assert_refused(&rt, pick(rt.alloc(), ALL, fr, Some(b""), b"en"), EMPTY);
}

#[test]
fn a_subtag_is_named_by_its_place(rt: HostRuntime) {
    let picked = pick(rt.alloc(), ALL, accept(b"fr"), None, b"en\nde-ab_c");
    let fault = FrontFault::Language(LangFault::TagSubtag { offset: 3 });
    assert_refused(&rt, picked, fault);
}

#[test]
fn a_long_field(rt: HostRuntime) {
    let field = accept([b','; 65_536].as_slice());
    let read = Reader::read(rt.alloc(), ALL, field, None);
    assert_refused(&rt, read, FrontFault::Field(NegoFault::FieldTooLong));
}

#[test]
fn an_id_before_all_else(rt: HostRuntime) {
    let alloc = rt.alloc();
    let lookup = Lookup::read(alloc, b"@m", ALL, malformed(), Some(b"e"));
    assert_refused(&rt, lookup, ID);
    assert_refused(&rt, Filter::read(alloc, b"@m", ALL, malformed()), ID);
}

#[test]
fn a_lookup_in_order(rt: HostRuntime) {
    let alloc = rt.alloc();
    for (id, default, fault) in [
        (b"@m".as_slice(), Some(b"e".as_slice()), ID),
        (b"m", Some(b"e"), LANGUAGE),
        (b"m", None, FIELD),
    ] {
        assert_refused(
            &rt,
            Lookup::read(alloc, id, ALL, malformed(), default),
            fault,
        );
    }
}

#[test]
fn an_id_that_is_no_text(rt: HostRuntime) {
    assert_refused(
        &rt,
        Filter::read(rt.alloc(), b"m\xff", ALL, accept(b"fr")),
        ID,
    );
}

#[test]
fn a_translation_in_order(rt: HostRuntime) {
    let alloc = rt.alloc();
    assert_refused(&rt, Missing::read(alloc, b""), EMPTY);
    assert_refused(&rt, Outdated::read(alloc, b"", b"e"), EMPTY);
    assert_refused(&rt, Outdated::read(alloc, b"fr", b"e"), LANGUAGE);
}

#[test]
fn a_document_that_is_no_site(rt: HostRuntime) {
    let answer = View::Status.answer(rt.alloc(), SiteIn::Document(b"{}"));
    let shape = DocCause::Shape {
        spot: Spot::Document,
    };
    assert_refused(&rt, answer, of_document(shape));
    assert_refused(&rt, OpenSite::new(rt.alloc(), b"A"), SITE_NAME);
}

const SITE_NAME: FrontFault = FrontFault::Cell(CellFault::SiteName);

/// The number, the place, the row and the text of the fault.
fn assert_reported(
    rt: &impl Abort,
    fault: FrontFault,
    number: u8,
    offset: Option<usize>,
    row: Option<usize>,
    text: &str,
) {
    assert_eq!(rt; fault.number(), number, "{text}");
    assert_eq!(rt; (fault.offset(), fault.row()), (offset, row), "{text}");
    assert_eq!(rt; InlineText::<80>::of(&fault).as_str(), text);
}

fn of_document(cause: DocCause) -> FrontFault {
    FrontFault::from(DocFault::of_document(1, cause))
}

#[test]
fn of_words(rt: HostRuntime) {
    let id = FrontFault::from(CellFault::IdRefused);
    assert_reported(&rt, id, 10, None, None, "message id");
    let language = FrontFault::from(LangFault::TagEmpty);
    assert_reported(&rt, language, 1, None, None, "tag is empty");
    let language = FrontFault::from(LangFault::TagSubtag { offset: 3 });
    assert_reported(&rt, language, 3, Some(3), None, "subtag at 3");
    let language = FrontFault::from(LangFault::RangeSubtag { offset: 2 });
    assert_reported(&rt, language, 7, Some(2), None, "range subtag at 2");
    let field = FrontFault::from(NegoFault::FieldTooLong);
    assert_reported(&rt, field, 8, None, None, "field is over 65535 bytes");
    let field = FrontFault::from(MALFORMED);
    assert_reported(&rt, field, 9, Some(9), None, "field element at 9");
}

#[test]
fn of_documents(rt: HostRuntime) {
    let fault = of_document(DocCause::NotUtf8 { offset: 7 });
    assert_reported(&rt, fault, 18, Some(7), None, "not UTF-8 at 7");
    let fault = of_document(DocCause::NotJson);
    assert_reported(&rt, fault, 19, None, None, "not JSON");
    let fault = of_document(DocCause::Shape { spot: Spot::Row(2) });
    assert_reported(&rt, fault, 20, None, Some(2), "shape");
    let fault = of_document(DocCause::CellOrder { row: 4 });
    assert_reported(&rt, fault, 21, None, Some(4), "cell order");
    let language = FieldFault::Language(LangFault::TagSubtag { offset: 3 });
    let fault = of_document(DocCause::Field {
        row: 5,
        fault: language,
    });
    assert_reported(&rt, fault, 3, Some(3), Some(5), "subtag at 3");
    let field = FieldFault::Priorities(MALFORMED);
    let fault = of_document(DocCause::Field {
        row: 6,
        fault: field,
    });
    assert_reported(&rt, fault, 9, Some(9), Some(6), "field element at 9");
    let label = FieldFault::Cell(CellFault::LabelCount { count: 0 });
    let fault = of_document(DocCause::Field {
        row: 0,
        fault: label,
    });
    assert_reported(&rt, fault, 12, None, Some(0), "label has 0 texts");
    assert_eq!(rt; fault.count(), Some(0));
}

#[test]
fn out_of_memory_has_one_form(rt: HostRuntime) {
    for fault in [
        FrontFault::from(CellFault::NoMemory),
        FrontFault::from(LangFault::NoMemory),
        FrontFault::from(NegoFault::NoMemory),
        of_document(DocCause::NoMemory),
        FrontFault::from(std::alloc::AllocError),
    ] {
        assert_eq!(rt; fault, FrontFault::NoMemory);
        assert_reported(&rt, fault, 26, None, None, "out of memory");
    }
}
