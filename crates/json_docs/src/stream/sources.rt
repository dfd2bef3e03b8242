//! Sources of bytes, and a whole document from one.
ghost use Rattle.std.specs.Prelude.{◌≡◌, ◌||◌, ◌<◌, ◌≤◌, ◌+◌, ℕ, List, Bool, Option, false, take};
ghost use Rattle.std.specs.Prelude.{drop, vec_len, is_err, IfOk, MatchResult, OnOk};
ghost use Rattle.std.specs.Io.{ReadsAtMost};
ghost use Rattle.std.specs.Io.KnownBytes.{ReadConsumes};
ghost use Rattle.json_docs.specs.Sources.{IsReadFault, ReadsWhole, has_failed, reader_of};

use crate::doc::Doc;
use crate::fault::{DocCause, DocFault};
use std::alloc::{AllocError, Global};
use std::io;
use std::io::Read;

/// The most bytes that [`read_all`] accepts.
pub const MAX_BYTES: usize = 67_108_864;

/// How many bytes `read_all` asks for at once.
const READ_BYTES: usize = 65_536;

/// How many bytes of a buffer are filled with zeros at once.
const ZERO_BYTES: usize = 2048;

/// Gives bytes as `std`'s `Read` does, and remembers whether a read failed.
pub trait Source {
    /// The bytes that reads will give from here on, where they are known.
    ghost remaining: { Self → Option (List ℕ) };

    ghost failed: { Self → Bool };

    /// Puts bytes at the front of `buf`, and says how many; 0 is the end. An interrupted read is an
    /// error like any other.
    fn read(&mut self, buf: &mut [u8]) -> io::Result<usize>
        ensures bound { ReadsAtMost result buf.new }
        ensures bytes { ReadConsumes (remaining self.old) (remaining self.new) result buf.new }
        ensures failed { failed self.new ≡ (failed self.old || is_err result) };

    /// Whether a read gave an error since this was made.
    fn failed(&self) -> bool
        ensures { result ≡ failed self.now };
}

/// The source over a reader.
#[derive(Drop)]
pub struct Input<R> {
    reader: R,
    failed: bool,
}

impl<R: Read> Input<R> {
    /// A source of what the reader gives from here on. It has not failed.
    pub fn new(reader: R) -> Input<R>
        ensures bytes { R.remaining (reader_of result) ≡ R.remaining reader }
        ensures failed { has_failed result ≡ false }
    {
        Input {
            reader,
            failed: false,
        }
    }

    /// The reader, from where it was read to.
    pub fn into_inner(self) -> R
        ensures { result ≡ reader_of self }
    {
        self.reader
    }
}

/// The bytes that are given are those of the reader, and a failed read is remembered.
impl<R: Read> Source for Input<R> {
    ghost remaining = { λ input. R.remaining (reader_of input) };

    ghost failed = { λ input. has_failed input };

    fn read(&mut self, buf: &mut [u8]) -> io::Result<usize> {
        let given = self.reader.read(buf);
        if given.is_err() {
            self.failed = true;
        }
        given
    }

    fn failed(&self) -> bool {
        self.failed
    }
}

/// All bytes of a source that did not fail yet, up to its end.
///
/// Refusals, as they come: 23 where the source gave more than [`MAX_BYTES`] bytes, 24 where a read
/// gave an error, 26 where memory is refused. The source has failed with 24 and with no other
/// answer, and no read is given more room than what is left of `MAX_BYTES + 1`.
pub fn read_all<S: Source>(alloc: Global, reader: &mut S) -> Result<Doc, DocFault>
    requires { S.failed reader.old ≡ false }
    ensures { MatchResult result (ReadsWhole S.failed S.remaining reader.old reader.new)
        (IsReadFault S.failed S.remaining reader.old reader.new) }
{
    let mut buffer = Vec::new(alloc);
    let mut filled = 0;
    while filled <= MAX_BYTES {
        make_room(&mut buffer, filled)?;
        let Ok(count) = read_after(reader, &mut buffer, filled) else {
            return Err(DocFault::of_no_document(DocCause::ReadFault));
        };
        if count == 0 {
            buffer.truncate(filled);
            return Ok(Doc::from(buffer));
        }
        filled += count;
    }
    Err(DocFault::of_no_document(DocCause::TooLarge))
}

/// One read into the part of the buffer that is not filled yet.
fn read_after<S: Source>(reader: &mut S, buffer: &mut Vec<u8>, filled: usize) -> io::Result<usize>
    requires { filled ≤ vec_len buffer.old }
    ensures bound { IfOk result (λ count. filled + count ≤ vec_len buffer.new) }
    ensures len { vec_len buffer.new ≡ vec_len buffer.old }
    ensures bytes { ReadConsumes (S.remaining reader.old) (S.remaining reader.new) result
        (drop filled buffer.new.items) }
    ensures front { take filled buffer.new.items ≡ take filled buffer.old.items }
    ensures failed { S.failed reader.new ≡ (S.failed reader.old || is_err result) }
{
    reader.read(&mut buffer[filled..])
}

/// Makes room for one read after the filled part of the buffer, up to one byte past the limit.
///
/// What no read comes to is not touched. (glibc writes many zeros by an instruction of which
/// callgrind counts each byte, so they are written in pieces.)
fn make_room(buffer: &mut Vec<u8>, filled: usize) -> Result<(), AllocError>
    requires within { filled ≤ vec_len buffer.old }
    requires below { filled ≤ MAX_BYTES }
    requires limit { vec_len buffer.old ≤ MAX_BYTES + 1 }
    ensures ok { OnOk result (filled < vec_len buffer.new) }
    ensures limit { vec_len buffer.new ≤ MAX_BYTES + 1 }
    ensures front { take filled buffer.new.items ≡ take filled buffer.old.items }
{
    if filled < buffer.len() {
        return Ok(());
    }
    let wanted = (filled + READ_BYTES).min(MAX_BYTES + 1);
    if wanted > buffer.capacity() {
        buffer.reserve_exact((2 * filled).clamp(wanted, MAX_BYTES + 1) - filled)?;
    }
    while buffer.len() < wanted {
        let len = (buffer.len() + ZERO_BYTES).min(wanted);
        buffer.resize(len, 0)?;
    }
    Ok(())
}
