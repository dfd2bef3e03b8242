//! Reading a source to its end, and what stops it.

use docs_core::{DocCause, DocFault, Input, MAX_BYTES, Source, read_all};
use std::alloc::Global;
use std::io;
use std::io::Read;

/// Gives one byte a read, and fails at the read of the given number, counted from 1.
#[derive(Drop)]
struct Dripping<'t> {
    text: &'t [u8],
    reads: usize,
    fails_at: usize,
}

impl Read for Dripping<'_> {
    fn read(&mut self, buf: &mut [u8]) -> io::Result<usize> {
        self.reads = self.reads.saturating_add(1);
        if self.reads == self.fails_at {
            return Err(io::Error::from(io::ErrorKind::Interrupted));
        }
        match (self.text, buf) {
            ([first, rest @ ..], [slot, ..]) => {
                *slot = *first;
                self.text = rest;
                Ok(1)
            }
            _ => Ok(0),
        }
    }
}

fn of_no_document(cause: DocCause) -> DocFault {
    DocFault { document: 0, cause }
}

/// Whether a source of this text is read to its end, or fails at this read, if it is not 0.
fn is_dripped(alloc: Global, text: &[u8], fails_at: usize) -> bool {
    let mut source = Input::new(Dripping {
        text,
        reads: 0,
        fails_at,
    });
    let failed_before = source.failed();
    let read = read_all(alloc, &mut source);
    let has_failed = source.failed();
    let is_read = match read {
        Ok(doc) => doc.bytes() == text && fails_at == 0,
        Err(fault) => fault == of_no_document(DocCause::ReadFault) && fails_at > 0,
    };
    is_read && !failed_before && has_failed == (fails_at > 0)
}

#[test]
fn byte_by_byte(rt: HostRuntime) {
    assert!(rt; is_dripped(rt.alloc(), b"abc", 0));
    assert!(rt; is_dripped(rt.alloc(), b"", 0));
}

#[test]
fn second_read_fails(rt: HostRuntime) {
    assert!(rt; is_dripped(rt.alloc(), b"abc", 2));
}

/// Fills what it is given up to its end, and notes whether it was asked for too much.
#[derive(Drop)]
struct Meter {
    left: usize,
    given: usize,
    reads: usize,
    overasked: bool,
}

impl Read for Meter {
    fn read(&mut self, buf: &mut [u8]) -> io::Result<usize> {
        self.reads = self.reads.saturating_add(1);
        if self.given.saturating_add(buf.len()) > MAX_BYTES + 1 {
            self.overasked = true;
        }
        let count = buf.len().min(self.left);
        self.left -= count;
        self.given = self.given.saturating_add(count);
        Ok(count)
    }
}

/// Whether a source that so many bytes are left in is read to its end, or refused for its length,
/// and is not asked for more than that takes.
fn is_metered(alloc: Global, left: usize) -> bool {
    let mut meter = Meter {
        left,
        given: 0,
        reads: 0,
        overasked: false,
    };
    let mut source = Input::new(&mut meter);
    let read = read_all(alloc, &mut source);
    let has_failed = source.failed();
    let is_read = match read {
        Ok(doc) => doc.len() == left && left <= MAX_BYTES,
        Err(fault) => fault == of_no_document(DocCause::TooLarge) && left > MAX_BYTES,
    };
    // 65,536 bytes at once, 1,024 times, and one byte that is too many or not there.
    is_read && !has_failed && !meter.overasked && meter.reads <= 1025
}

#[test]
fn the_limit_itself_is_read(rt: HostRuntime) {
    assert!(rt; is_metered(rt.alloc(), MAX_BYTES));
}

#[test]
fn one_byte_more_is_refused(rt: HostRuntime) {
    assert!(rt; is_metered(rt.alloc(), MAX_BYTES + 1));
    assert!(rt; is_metered(rt.alloc(), usize::MAX));
}
