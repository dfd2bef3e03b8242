//! Streams in memory: the input that is passed in, one that is not there, and an output.
ghost use Rattle.std.specs.Prelude.{◌≡◌, [], false};
ghost use Rattle.command_c.specs.Memory.{byte_left, fails, has_failed, known, never, taken_by};
ghost use Rattle.command_c.specs.Memory.{took};

use docs_core::{Sink, Source};
use std::alloc::Global;
use std::io;
use std::io::ErrorKind;
use std::marker::Model;

/// An input that is passed in. No read of it fails.
#[derive(Drop)]
pub(crate) struct Given<'a> {
    left: &'a [u8],
}

/// It is seen as the bytes that are left.
impl<'a> Model for Given<'a> {
    ghost use Rattle.std.specs.Prelude.{ℕ, List};

    ghost Value = { List ℕ };

    ghost view = { λ given. given.left.now };
}

impl<'a> Given<'a> {
    /// The input of these bytes.
    pub(crate) fn new(bytes: &'a [u8]) -> Given<'a>
        ensures { result ≡ bytes.now }
    {
        Given { left: bytes }
    }
}

/// It gives its bytes in order, as many at a time as there is room for.
impl Source for Given<'_> {
    ghost remaining = { known };

    ghost failed = { never };

    fn read(&mut self, buf: &mut [u8]) -> io::Result<usize> {
        let count = self.left.len().min(buf.len());
        let (given, left) = self.left.split_at(count);
        buf[..count].copy_from_slice(given);
        self.left = left;
        Ok(count)
    }

    fn failed(&self) -> bool {
        false
    }
}

/// An input that is not there: each read of it fails.
#[derive(Drop)]
pub(crate) struct Absent {
    was_read: bool,
}

/// It is seen as whether it was read.
impl Model for Absent {
    ghost use Rattle.std.specs.Prelude.{Bool};

    ghost Value = { Bool };

    ghost view = { λ absent. absent.was_read };
}

impl Absent {
    /// An input that was not read yet.
    pub(crate) fn new() -> Absent
        ensures { result ≡ false }
    {
        Absent { was_read: false }
    }
}

/// It has a byte left, which no read gives.
impl Source for Absent {
    ghost remaining = { byte_left };

    ghost failed = { fails };

    fn read(&mut self, _buf: &mut [u8]) -> io::Result<usize> {
        self.was_read = true;
        Err(io::Error::from(ErrorKind::NotFound))
    }

    fn failed(&self) -> bool {
        self.was_read
    }
}

/// An output that keeps what was written to it. A write fails only where memory ends.
#[derive(Drop)]
pub(crate) struct Kept {
    bytes: Vec<u8>,
    failed: bool,
}

/// It is seen as the bytes that were written, and whether a write failed.
impl Model for Kept {
    ghost use Rattle.command_c.specs.Memory.{KeptBytes};

    ghost Value = { KeptBytes };

    ghost view = { λ kept. record { bytes = kept.bytes.items; failed = kept.failed } };
}

impl Kept {
    /// An output to which nothing was written.
    pub(crate) fn new(alloc: Global) -> Kept
        ensures { result ≡ took [] }
    {
        Kept {
            bytes: Vec::new(alloc),
            failed: false,
        }
    }

    /// What was written.
    pub(crate) fn into_bytes(self) -> Vec<u8>
        ensures { result.items ≡ self.bytes }
    {
        self.bytes
    }
}

/// It takes each write as a whole.
impl Sink for Kept {
    ghost contents = { taken_by };

    ghost failed = { has_failed };

    fn write(&mut self, buf: &[u8]) -> io::Result<usize> {
        if let Err(error) = self.bytes.extend_from_slice(buf) {
            self.failed = true;
            return Err(io::Error::from(error));
        }
        Ok(buf.len())
    }

    fn failed(&self) -> bool {
        self.failed
    }
}
