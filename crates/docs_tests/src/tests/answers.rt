//! What a call answers: a document, its lines, or the line of its refusal.

use docs_core::{Checks, Doc, DocFault, OwnEdits};
use std::fmt::InlineText;

/// Checks of times alone, with this limit.
pub fn until(limit: u64) -> Checks {
    Checks {
        not_after: Some(limit),
        own_edits: OwnEdits::Unchecked,
    }
}

/// Checks of own edits, without a limit.
pub fn own_edits() -> Checks {
    Checks {
        not_after: None,
        own_edits: OwnEdits::Checked,
    }
}

/// Whether this text, and a line feed, is the document, or this line says why it is refused.
pub fn is_line(answer: Result<Doc, DocFault>, line: &str) -> bool {
    match answer {
        Ok(doc) => ends_so(doc.bytes(), line),
        Err(fault) => is_refusal(fault, line),
    }
}

/// The same of an answer that says too whether something was found.
pub fn is_found(answer: Result<(Doc, bool), DocFault>, line: &str) -> bool {
    match answer {
        Ok((doc, found)) => ends_so(doc.bytes(), line) && found != is_nothing(line),
        Err(fault) => is_refusal(fault, line),
    }
}

/// Whether these are the two documents, or the first line says why they are refused.
pub fn is_pair(answer: Result<(Doc, Doc), DocFault>, first: &str, second: &str) -> bool {
    match answer {
        Ok((one, other)) => end_so(one.bytes(), other.bytes(), first, second),
        Err(fault) => is_refusal(fault, first),
    }
}

pub fn is_refusal(fault: DocFault, line: &str) -> bool {
    InlineText::<80>::of(&fault).as_str() == line
}

fn end_so(one: &[u8], other: &[u8], first: &str, second: &str) -> bool {
    ends_so(one, first) && ends_so(other, second)
}

fn ends_so(bytes: &[u8], line: &str) -> bool {
    match bytes {
        [text @ .., b'\n'] => text == line.as_bytes(),
        _ => false,
    }
}

/// Whether an answer of this line has found nothing.
fn is_nothing(line: &str) -> bool {
    let nothing = ["{}", "nothing", "filter 0", "changes 0", "labels 0"];
    nothing.contains(&line)
}
