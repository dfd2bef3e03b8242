//! The numbers and the lines of refusals.

use cata_core::{CataFault, PlayFault};
use docs_core::{DocCause, DocFault, FieldFault, Spot};
use nego_core::NegoFault;
use std::fmt::InlineText;

/// Whether the fault has this number and this line.
fn says(document: usize, cause: DocCause, number: u8, line: &str) -> bool {
    let fault = DocFault { document, cause };
    fault.number() == number && InlineText::<80>::of(&fault).as_str() == line
}

/// Of no document: of streams, of a site and of a step.
#[test]
fn of_no_document(rt: HostRuntime) {
    let rows = [
        (DocCause::WriteFault, 25, "refused 25: write fault"),
        (DocCause::NoMemory, 26, "refused 26: out of memory"),
        (
            DocCause::Site(CataFault::ClockSpent),
            14,
            "refused 14: clock is spent",
        ),
        (
            DocCause::Step(PlayFault::NoSuchSite { step: 3 }),
            16,
            "refused 16: step 3 names no site",
        ),
    ];
    for (cause, number, line) in rows {
        assert!(rt; says(0, cause, number, line), "{line}");
    }
}

/// Of a document, of a row and of a field in a row.
#[test]
fn of_documents(rt: HostRuntime) {
    let rows = [
        (
            DocCause::NotUtf8 { offset: 1 },
            18,
            "refused 18: not UTF-8 at 1 of document 1",
        ),
        (
            DocCause::Shape { spot: Spot::Row(0) },
            20,
            "refused 20: shape in row 0 of document 1",
        ),
        (
            DocCause::Field {
                row: 0,
                fault: FieldFault::Priorities(NegoFault::FieldMalformed { offset: 9 }),
            },
            9,
            "refused 9: field element at 9 in row 0 of document 1",
        ),
    ];
    for (cause, number, line) in rows {
        assert!(rt; says(1, cause, number, line), "{line}");
    }
}
