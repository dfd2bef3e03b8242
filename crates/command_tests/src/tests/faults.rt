//! The numbers, the texts and the lines of refusals.
use super::harness::Page;
use cata_core::PlayFault;
use cell_core::{CellFault, SiteName, Stamp};
use command_core::{refuse, refuse_words};
use docs_core::{DocCause, DocFault, Output};
use front_core::FrontFault;
use lang_core::LangFault;
use nego_core::NegoFault;
use std::alloc::Global;
use std::io;
use std::test::Fail;

/// Whether the refusal is this line, in one write, and gives this status.
fn is_reported(alloc: Global, fault: FrontFault, status: u8, line: &str) -> bool {
    let mut page = Page::new(alloc);
    let found = refuse(&mut Output::new(&mut page), fault);
    is_page(&page, line, found == status)
}

/// Whether the page has just this line, in one write, where the rest is so.
fn is_page(page: &Page, line: &str, is_so: bool) -> bool {
    is_so && page.bytes.as_slice() == line.as_bytes() && page.writes == 1
}

#[test]
fn question_faults(rt: HostRuntime) {
    let rows = [
        (
            FrontFault::Language(LangFault::TagSubtag { offset: 254 }),
            3,
            "refused 3: subtag at 254\n",
        ),
        (
            FrontFault::Field(NegoFault::FieldMalformed { offset: 65_534 }),
            9,
            "refused 9: field element at 65534\n",
        ),
        (
            FrontFault::Cell(CellFault::IdRefused),
            10,
            "refused 10: message id\n",
        ),
        (FrontFault::NoMemory, 26, "refused 26: out of memory\n"),
    ];
    for (fault, number, line) in rows {
        let status = if number == 26 { 5 } else { 3 };
        assert!(rt; fault.number() == number, "{line}");
        assert!(rt; is_reported(rt.alloc(), fault, status, line), "{line}");
    }
}

/// The longest line is one write, and none of its text is cut.
#[test]
fn the_longest_line(rt: HostRuntime) -> Result<(), Fail> {
    let stamp = Stamp {
        time: u64::MAX,
        site: SiteName::new("0123456789abcdef")?,
        count: u32::MAX,
    };
    let fault = FrontFault::from(DocFault::from(PlayFault::StampReused {
        step: usize::MAX,
        place: u128::MAX,
        stamp,
    }));
    let line =
        "refused 13: stamp 18446744073709551615 0123456789abcdef 4294967295 used twice, cell 340282366920938463463374607431768211455, step 18446744073709551615\n";
    assert!(rt; is_reported(rt.alloc(), fault, 3, line));
    Ok(())
}

/// A refusal of a document is printed as the fault itself says it, with LF. The row and the
/// document that are meant come after the text.
#[test]
fn document_faults(rt: HostRuntime) {
    let rows = [
        (0, DocCause::WriteFault, 4, "refused 25: write fault\n"),
        (0, DocCause::NoMemory, 5, "refused 26: out of memory\n"),
        (
            2,
            DocCause::TooLarge,
            3,
            "refused 23: document is over 67108864 bytes of document 2\n",
        ),
        (
            2,
            DocCause::RepeatedTag { row: 1 },
            3,
            "refused 22: language repeated in row 1 of document 2\n",
        ),
    ];
    for (document, cause, status, line) in rows {
        let fault = FrontFault::from(DocFault { document, cause });
        assert!(rt; is_reported(rt.alloc(), fault, status, line), "{line}");
    }
}

/// Whether a process without words ends so.
fn ends(alloc: Global, kind: io::ErrorKind, status: u8, line: &str) -> bool {
    let mut page = Page::new(alloc);
    let found = refuse_words(&mut Output::new(&mut page), &io::Error::from(kind));
    is_page(&page, line, found == status)
}

/// Why a process has no words: one is not UTF-8, or memory ran out.
#[test]
fn words_of_the_process(rt: HostRuntime) {
    let line = "error: a word is not UTF-8\n";
    assert!(rt; ends(rt.alloc(), io::ErrorKind::InvalidData, 2, line));
    let line = "refused 26: out of memory\n";
    assert!(rt; ends(rt.alloc(), io::ErrorKind::OutOfMemory, 5, line));
}
