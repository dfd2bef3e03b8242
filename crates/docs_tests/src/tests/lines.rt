//! Scripts over streams: the lines that are written, and what ends a run.

use super::answers::is_refusal;
use docs_core::{Input, Output, replay};
use std::alloc::Global;
use std::io;
use std::io::{Read, Write};

const TWO_SITES: &str = concat!(
    r#"{"kind":"script","sites":2,"steps":[["edit",0,["m","en",5,1,0,["one"]]],"#,
    r#"["edit",1,["m","en",5,2,0,["two"]]],["edit",1,["m","en",5,2,0,["two"]]],["merge",0,1],"#,
    r#"["merge",1,0],["cells",0],["cells",1],["lookup",0,"m","en-GB",null]],"version":1}"#
);

const FIVE_LINES: &str = "cells 1\n[\"m\",\"en\",5,\"0000000002\",0,[\"two\"]]\ncells 1\n\
        [\"m\",\"en\",5,\"0000000002\",0,[\"two\"]]\nmatched en [\"two\"]\n";

/// Gives a text, so many bytes a read, and fails at the read of the given number, counted from 1.
#[derive(Drop)]
struct Tape<'t> {
    text: &'t [u8],
    most: usize,
    reads: usize,
    fails_at: usize,
}

impl Read for Tape<'_> {
    fn read(&mut self, buf: &mut [u8]) -> io::Result<usize> {
        self.reads = self.reads.saturating_add(1);
        if self.reads == self.fails_at {
            return Err(io::Error::from(io::ErrorKind::Interrupted));
        }
        let count = buf.len().min(self.text.len()).min(self.most);
        buf[..count].copy_from_slice(&self.text[..count]);
        self.text = &self.text[count..];
        Ok(count)
    }
}

/// All of a text at once.
fn whole(text: &str) -> Tape<'_> {
    Tape {
        text: text.as_bytes(),
        most: usize::MAX,
        reads: 0,
        fails_at: 0,
    }
}

/// The script of two sites byte by byte, with a fault at the read of the given number.
fn drip(fails_at: usize) -> Tape<'static> {
    Tape {
        most: 1,
        fails_at,
        ..whole(TWO_SITES)
    }
}

/// Takes so many bytes, and then none.
#[derive(Drop)]
struct Narrow {
    taken: Vec<u8>,
    left: usize,
}

impl Write for Narrow {
    fn write(&mut self, buf: &[u8]) -> io::Result<usize> {
        let count = buf.len().min(self.left);
        match self.taken.extend_from_slice(&buf[..count]) {
            Ok(()) => {
                self.left -= count;
                Ok(count)
            }
            Err(_) => Err(io::Error::from(io::ErrorKind::OutOfMemory)),
        }
    }

    fn flush(&mut self) -> io::Result<()> {
        Ok(())
    }
}

/// Whether the script of a stream writes these lines to a writer of so many bytes, and ends so:
/// well where there is no line, and else for this cause.
fn is_run(alloc: Global, stream: Tape<'_>, width: usize, lines: &[u8], end: &str) -> bool {
    let mut writer = Narrow {
        taken: Vec::new(alloc),
        left: width,
    };
    let mut reader = Input::new(stream);
    let ended = replay(alloc, &mut reader, &mut Output::new(&mut writer));
    let is_end = match ended {
        Ok(()) => end.is_empty(),
        Err(fault) => is_refusal(fault, end),
    };
    is_end && writer.taken.as_slice() == lines
}

#[test]
fn a_run(rt: HostRuntime) {
    let script = whole(TWO_SITES);
    assert!(rt; is_run(rt.alloc(), script, 10_000, FIVE_LINES.as_bytes(), ""));
}

#[test]
fn a_step_that_is_refused(rt: HostRuntime) {
    let script = r#"{"kind":"script","sites":2,"steps":[["merge",0,2]],"version":1}"#;
    let line = "refused 16: step 0 names no site";
    assert!(rt; is_run(rt.alloc(), whole(script), 10_000, b"", line));
}

#[test]
fn one_byte_a_read(rt: HostRuntime) {
    assert!(rt; is_run(rt.alloc(), drip(0), 10_000, FIVE_LINES.as_bytes(), ""));
}

#[test]
fn second_read_fails(rt: HostRuntime) {
    assert!(rt; is_run(rt.alloc(), drip(2), 10_000, b"", "refused 24: read fault"));
}

/// A writer that stops at any of the bytes has taken those before it.
#[test]
fn writers_that_stop(rt: HostRuntime) {
    let lines = FIVE_LINES.as_bytes();
    for width in 0..lines.len() {
        let script = whole(TWO_SITES);
        let is = is_run(
            rt.alloc(),
            script,
            width,
            &lines[..width],
            "refused 25: write fault",
        );
        assert!(rt; is, "{width}");
    }
}
