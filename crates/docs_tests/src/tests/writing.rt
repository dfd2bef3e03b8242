//! Writing out, to sinks that fail or take little.

use docs_core::{DocCause, DocFault, Output, Sink, write_out};
use std::alloc::Global;
use std::io;
use std::io::Write;

const LINES: &[u8] = b"cells 1\n[\"m\",\"en\",5,\"0000000002\",0,[\"two\"]]\n";

const WRITE_FAULT: DocFault = DocFault {
    document: 0,
    cause: DocCause::WriteFault,
};

/// Takes at most `step` bytes a write while there is room, and then fails, or takes none.
#[derive(Drop)]
struct Narrow {
    taken: Vec<u8>,
    room: usize,
    step: usize,
    stalls: bool,
}

impl Write for Narrow {
    fn write(&mut self, buf: &[u8]) -> io::Result<usize> {
        let count = buf.len().min(self.room).min(self.step);
        if count == 0 && !self.stalls {
            return Err(io::Error::from(io::ErrorKind::Interrupted));
        }
        self.taken.extend_from_slice(&buf[..count])?;
        self.room -= count;
        Ok(count)
    }

    fn flush(&mut self) -> io::Result<()> {
        Ok(())
    }
}

/// Whether a sink of this room takes of these bytes what it has room for, and fails where they are
/// more.
fn is_cut(alloc: Global, bytes: &[u8], room: usize, step: usize, stalls: bool) -> bool {
    let mut narrow = Narrow {
        taken: Vec::new(alloc),
        room,
        step,
        stalls,
    };
    let mut sink = Output::new(&mut narrow);
    let failed_before = sink.failed();
    let ended = write_out(&mut sink, bytes);
    let has_failed = sink.failed();
    let left = room.min(bytes.len());
    let wanted = if left < bytes.len() {
        Err(WRITE_FAULT)
    } else {
        Ok(())
    };
    let is_end = !failed_before && ended == wanted && has_failed == wanted.is_err();
    is_taken(&narrow, &bytes[..left], is_end)
}

/// Whether just these bytes were taken, where the rest is so.
fn is_taken(narrow: &Narrow, bytes: &[u8], is_so: bool) -> bool {
    is_so && narrow.taken.as_slice() == bytes
}

#[test]
fn every_room_and_step(rt: HostRuntime) {
    for room in 0..LINES.len() + 1 {
        assert!(rt; is_cut(rt.alloc(), LINES, room, 1, false), "{room}");
        assert!(rt; is_cut(rt.alloc(), LINES, room, 5, false), "{room}");
        assert!(rt; is_cut(rt.alloc(), LINES, room, 64, false), "{room}");
    }
}

/// A sink that takes no more bytes has failed, as one that says so.
#[test]
fn three_bytes_and_no_more(rt: HostRuntime) {
    assert!(rt; is_cut(rt.alloc(), LINES, 3, 3, true));
}

#[test]
fn nothing_needs_no_room(rt: HostRuntime) {
    assert!(rt; is_cut(rt.alloc(), b"", 0, 1, false));
    assert!(rt; is_cut(rt.alloc(), b"a", 0, 1, false));
}
