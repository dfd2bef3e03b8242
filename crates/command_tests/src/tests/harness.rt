//! Runs of the whole program over streams in memory.
use command_core::run;
use docs_core::{Input, Output};
use std::alloc::{AllocError, Global};
use std::io;
use std::io::{Read, Write};
use std::process::Abort;
use std::test::Fail;

/// A writer that keeps what it took, takes no more than it has room for, and counts its writes.
#[derive(Drop)]
pub struct Page {
    pub bytes: Vec<u8>,
    pub writes: usize,
    room: usize,
}

impl Page {
    pub fn new(alloc: Global) -> Page {
        Page::with_room(alloc, usize::MAX)
    }

    /// It takes so many bytes, and then fails.
    pub fn with_room(alloc: Global, room: usize) -> Page {
        Page {
            bytes: Vec::new(alloc),
            writes: 0,
            room,
        }
    }
}

impl Write for Page {
    fn write(&mut self, buf: &[u8]) -> io::Result<usize> {
        self.writes = self.writes.saturating_add(1);
        let count = buf.len().min(self.room);
        if count == 0 && !buf.is_empty() {
            return Err(io::Error::from(io::ErrorKind::StorageFull));
        }
        self.bytes.extend_from_slice(&buf[..count])?;
        self.room = self.room.saturating_sub(count);
        Ok(count)
    }

    fn flush(&mut self) -> io::Result<()> {
        Ok(())
    }
}

/// A reader that gives a text, and fails at one of its reads, counted from 0.
#[derive(Drop)]
pub struct Tape<'a> {
    text: &'a [u8],
    given: usize,
    reads: usize,
    most: usize,
    fails_at: usize,
    is_endless: bool,
}

impl<'a> Tape<'a> {
    /// All of the text, as much of it at a read as there is room for.
    pub fn of(text: &'a str) -> Tape<'a> {
        Tape {
            text: text.as_bytes(),
            given: 0,
            reads: 0,
            most: usize::MAX,
            fails_at: usize::MAX,
            is_endless: false,
        }
    }

    /// Blanks without an end.
    pub fn endless() -> Tape<'a> {
        Tape {
            text: &[],
            given: 0,
            reads: 0,
            most: usize::MAX,
            fails_at: usize::MAX,
            is_endless: true,
        }
    }

    /// The text by pieces of so many bytes, up to the read that fails.
    pub fn failing(text: &'a str, most: usize, fails_at: usize) -> Tape<'a> {
        Tape {
            text: text.as_bytes(),
            given: 0,
            reads: 0,
            most,
            fails_at,
            is_endless: false,
        }
    }
}

impl Read for Tape<'_> {
    fn read(&mut self, buf: &mut [u8]) -> io::Result<usize> {
        if self.reads >= self.fails_at {
            self.reads = self.reads.saturating_add(1);
            return Err(io::Error::from(io::ErrorKind::Other));
        }
        self.reads = self.reads.saturating_add(1);
        if self.is_endless {
            buf.fill(b' ');
            return Ok(buf.len());
        }
        let left = self.text.get(self.given..).unwrap_or(&[]);
        let count = left.len().min(buf.len()).min(self.most);
        buf[..count].copy_from_slice(&left[..count]);
        self.given = self.given.saturating_add(count);
        Ok(count)
    }
}

/// What a run ended with, and what it wrote.
#[derive(Drop)]
pub struct Ran {
    pub status: u8,
    pub output: Vec<u8>,
    pub faults: Vec<u8>,
    pub is_read: bool,
}

/// The words of a line: those in single quotes as they are, and the others between blanks.
fn words_of(alloc: Global, line: &str) -> Result<Vec<String>, AllocError> {
    let mut words = Vec::new(alloc);
    let mut is_quoted = false;
    for part in line.split("'") {
        push_words(alloc, &mut words, part, is_quoted)?;
        is_quoted = !is_quoted;
    }
    Ok(words)
}

fn push_words(
    alloc: Global,
    words: &mut Vec<String>,
    part: &str,
    is_quoted: bool,
) -> Result<(), AllocError> {
    if is_quoted {
        words.push(String::from_str(alloc, part)?)?;
        return Ok(());
    }
    for word in part.split_whitespace() {
        words.push(String::from_str(alloc, word)?)?;
    }
    Ok(())
}

/// A run of a line over an input, with an output of this room, and faults of that.
pub fn run_over(
    alloc: Global,
    line: &str,
    input: Tape<'_>,
    room: usize,
    fault_room: usize,
) -> Result<Ran, AllocError> {
    let words = words_of(alloc, line)?;
    let mut reader = input;
    let mut writer = Page::with_room(alloc, room);
    let mut faults = Page::with_room(alloc, fault_room);
    let status = run(
        alloc,
        &words,
        &mut Input::new(&mut reader),
        &mut Output::new(&mut writer),
        &mut Output::new(&mut faults),
    );
    Ok(Ran {
        status,
        output: writer.bytes,
        faults: faults.bytes,
        is_read: reader.reads > 0,
    })
}

/// Whether the text is somewhere in the bytes.
fn has_text(bytes: &[u8], text: &str) -> bool {
    match std::str::from_utf8(bytes) {
        Ok(all) => all.contains(text),
        Err(_) => false,
    }
}

/// Whether the bytes are just these lines, which have slashes between them.
fn is_lines(bytes: &[u8], lines: &str) -> bool {
    if lines.is_empty() {
        return bytes.is_empty();
    }
    let mut left = bytes;
    for line in lines.split(" / ") {
        match left.strip_prefix(line.as_bytes()) {
            Some([b'\n', rest @ ..]) => left = rest,
            _ => return false,
        }
    }
    left.is_empty()
}

/// Whether a run ended so: with these lines, or where they begin with `~` with this part, of the
/// output where it was answered, and of the faults where it was not; the other is empty.
pub fn is_ended(ran: &Ran, status: u8, lines: &str) -> bool {
    let (text, other) = if status < 2 {
        (ran.output.as_slice(), ran.faults.as_slice())
    } else {
        (ran.faults.as_slice(), ran.output.as_slice())
    };
    let is_text = match lines.strip_prefix("~") {
        Some(part) => has_text(text, part),
        None => is_lines(text, lines),
    };
    is_text && ran.status == status && other.is_empty()
}

/// Whether just this was written to the output and to the faults, with this status.
pub fn has_left(ran: &Ran, status: u8, output: &[u8], faults: &[u8]) -> bool {
    ran.status == status && ran.output.as_slice() == output && ran.faults.as_slice() == faults
}

/// Whether a line ends so, where each read fails, and none is made where the status is not 4.
fn ends_so(alloc: Global, line: &str, status: u8, lines: &str) -> Result<bool, AllocError> {
    let input = Tape::failing("", 0, 0);
    let ran = run_over(alloc, line, input, usize::MAX, usize::MAX)?;
    Ok(is_ended_by(&ran, status, lines))
}

/// Whether a run ended so, and read where its status is 4.
fn is_ended_by(ran: &Ran, status: u8, lines: &str) -> bool {
    is_ended(ran, status, lines) && ran.is_read == (status == 4)
}

/// Whether a line ends so on this input.
fn ends_on(
    alloc: Global,
    line: &str,
    input: &str,
    status: u8,
    lines: &str,
) -> Result<bool, AllocError> {
    let text = input.replace(alloc, " / ", "\n")?;
    let ran = run_over(alloc, line, Tape::of(&text), usize::MAX, usize::MAX)?;
    Ok(is_ended(&ran, status, lines))
}

/// Whether the line of a row ends as it says, on its input; of the input `-` each read fails.
fn is_row(alloc: Global, row: &str) -> Result<bool, AllocError> {
    let (status, rest) = row.split_once("|").unwrap_or((row, ""));
    let (line, rest) = rest.split_once("|").unwrap_or((rest, ""));
    let (input, lines) = rest.split_once("|").unwrap_or((rest, ""));
    let status = status.parse::<u8>().unwrap_or(99);
    if input == "-" {
        ends_so(alloc, line, status, lines)
    } else {
        ends_on(alloc, line, input, status, lines)
    }
}

/// Each row of `STATUS|WORDS|INPUT|LINES` ends as it says. The documents of an input and the lines
/// of an answer have slashes between them.
pub fn all_end(rt: &(impl Abort + AllocGlobal), rows: &str) -> Result<(), Fail> {
    for row in rows.lines() {
        assert!(rt; is_row(rt.alloc(), row)?, "{row}");
    }
    Ok(())
}
