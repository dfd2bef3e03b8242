//! Sinks of bytes, and a whole text into one.
ghost use Rattle.std.specs.Prelude.{◌≡◌, ◌||◌, ℕ, List, Bool, Option, false, is_err, IfErr, OnOk};
ghost use Rattle.std.specs.Io.{WritesAtMost};
ghost use Rattle.std.specs.Io.KnownBytes.{Appends, WriteAppends};
ghost use Rattle.json_docs.specs.Faults.{of_no_document};
ghost use Rattle.json_docs.specs.Sinks.{AppendsFront, has_failed, stalls, writer_of};
ghost use Rattle.json_docs.specs.declared.fault.DocCause.TheVariants.{WriteFault};

use crate::fault::{DocCause, DocFault};
use std::io;
use std::io::Write;

/// Takes bytes as `std`'s `Write` does, and remembers whether a write failed. There is no flush.
pub trait Sink {
    /// The bytes that were written so far, where they are known.
    ghost contents: { Self → Option (List ℕ) };

    ghost failed: { Self → Bool };

    /// Takes a prefix of `buf`, and says how many bytes it took. An interrupted write is an error
    /// like any other.
    fn write(&mut self, buf: &[u8]) -> io::Result<usize>
        ensures bound { WritesAtMost result buf.now }
        ensures bytes { WriteAppends (contents self.old) (contents self.new) result buf.now }
        ensures failed { failed self.new ≡ (failed self.old || stalls result buf.now) };

    /// Whether a write gave an error, or took none of some bytes, since this was made.
    fn failed(&self) -> bool
        ensures { result ≡ failed self.now };
}

/// The sink over a writer.
#[derive(Drop)]
pub struct Output<W> {
    writer: W,
    failed: bool,
}

impl<W: Write> Output<W> {
    /// A sink that puts each byte into the writer. It has not failed.
    pub fn new(writer: W) -> Output<W>
        ensures bytes { W.contents (writer_of result) ≡ W.contents writer }
        ensures failed { has_failed result ≡ false }
    {
        Output {
            writer,
            failed: false,
        }
    }

    /// The writer, with what was written to it.
    pub fn into_inner(self) -> W
        ensures { result ≡ writer_of self }
    {
        self.writer
    }
}

/// The bytes that are taken are those that the writer is given, and a failed write is remembered.
impl<W: Write> Sink for Output<W> {
    ghost contents = { λ output. W.contents (writer_of output) };

    ghost failed = { λ output. has_failed output };

    fn write(&mut self, buf: &[u8]) -> io::Result<usize> {
        let taken = self.writer.write(buf);
        let stalled = match &taken {
            Ok(count) => *count == 0 && !buf.is_empty(),
            Err(_) => true,
        };
        if stalled {
            self.failed = true;
        }
        taken
    }

    fn failed(&self) -> bool {
        self.failed
    }
}

/// Writes all bytes to a sink that did not fail yet. It takes no memory.
///
/// Its one refusal is 25, where a write gave an error or took none of some bytes; a prefix of the
/// bytes was then written.
pub fn write_out<S: Sink>(writer: &mut S, bytes: &[u8]) -> Result<(), DocFault>
    requires { S.failed writer.old ≡ false }
    ensures ok { OnOk result (Appends (S.contents writer.old) (S.contents writer.new) bytes.now) }
    ensures err { AppendsFront (S.contents writer.old) (S.contents writer.new) bytes.now }
    ensures refused { IfErr result (λ fault. fault ≡ of_no_document WriteFault) }
    ensures failed { S.failed writer.new ≡ is_err result }
{
    let mut rest = bytes;
    while !rest.is_empty() {
        let Ok(count) = writer.write(rest) else {
            return Err(DocFault::of_no_document(DocCause::WriteFault));
        };
        if count == 0 {
            return Err(DocFault::of_no_document(DocCause::WriteFault));
        }
        rest = &rest[count..];
    }
    Ok(())
}
