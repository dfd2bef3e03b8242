//! The line that reports a refusal, and the status that goes with it. The line takes no memory, it
//! is one write, and where its writer fails the rest of it is left out.
ghost use Rattle.std.specs.Prelude.{◌≡◌, ◌+◌, ◌≤◌, ◌++◌, false, length};
ghost use Rattle.std_io.specs.IoError.{error_kind};
ghost use Rattle.arrayvec.specs.ArrayString.{array_string_len};
ghost use Rattle.front_core.specs.Fault.{number_of};
ghost use Rattle.front_core.specs.declared.fault.FrontFault.TheVariants.{NoMemory};
ghost use Rattle.command_core.specs.OutputEndings.{LacksWords, ReportsUsage, usage_line};
ghost use Rattle.command_core.specs.FaultLine.{PrintsFault, PrintsRefusal, counted, document_meant};
ghost use Rattle.command_core.specs.FaultLine.{fault_line};
ghost use Rattle.command_core.specs.Status.{status_of};
ghost use Rattle.command_core.specs.OutputStreams.{writes};

use crate::status;
use arrayvec::ArrayString;
use docs_core::{Sink, write_out};
use front_core::FrontFault;
use itoa::Buffer;
use std::fmt::{Display, InlineText};
use std::io;

/// How many bytes of its text a line has at most. No text of a refusal has more.
const TEXT_BYTES: usize = 160;

/// Room for the text and for all that surrounds it.
const LINE_BYTES: usize = 320;

/// Reports a refusal, and gives its status: `refused N: TEXT`, then ` in row R` and ` of document
/// D` where they are named. A text of more than 160 bytes would be cut and end in dots.
pub fn refuse<S: Sink>(faults: &mut S, fault: FrontFault) -> u8
    ensures status { result ≡ status_of (number_of fault) }
    ensures reported { PrintsRefusal fault (writes S.contents S.failed faults.old faults.new) }
{
    let number = fault.number();
    report(faults, number, &fault, fault.row(), fault.document());
    status::of_refusal(number)
}

/// Reports why the arguments of a process can't be read, and gives the status: lack of memory is
/// refusal 26 with status 5, and any other error `error: a word is not UTF-8` with status 2.
pub fn refuse_words<S: Sink>(faults: &mut S, error: &io::Error) -> u8
    requires { S.failed faults.old ≡ false }
    ensures { LacksWords (error_kind error.now)
        (writes S.contents S.failed faults.old faults.new) result }
{
    if error.kind() == io::ErrorKind::OutOfMemory {
        return refuse_for_memory(faults);
    }
    write_usage(faults, b"error: a word is not UTF-8\n")
}

/// Reports that no command takes the arguments, and gives the status.
pub(crate) fn refuse_arguments<S: Sink>(faults: &mut S) -> u8
    requires { S.failed faults.old ≡ false }
    ensures { ReportsUsage usage_line (writes S.contents S.failed faults.old faults.new) result }
{
    write_usage(
        faults,
        b"error: no command takes these arguments together\n\nFor more information, try '--help'.\n",
    )
}

/// Reports that memory ended, and gives the status.
pub(crate) fn refuse_for_memory<S: Sink>(faults: &mut S) -> u8
    ensures status { result ≡ 5 }
    ensures reported { PrintsRefusal NoMemory (writes S.contents S.failed faults.old faults.new) }
{
    refuse(faults, FrontFault::NoMemory)
}

/// Writes what is wrong with the arguments, and gives the status.
fn write_usage<S: Sink>(faults: &mut S, line: &[u8]) -> u8
    requires { S.failed faults.old ≡ false }
    ensures { ReportsUsage line.now (writes S.contents S.failed faults.old faults.new) result }
{
    let _ = write_out(faults, line);
    status::USAGE
}

/// Writes the line at once, so that the line of another process can't come between.
fn report<S: Sink, T: Display>(
    faults: &mut S,
    number: u8,
    text: &T,
    row: Option<usize>,
    document: usize,
)
    ensures { PrintsFault number (T.output text.now) row document
        (writes S.contents S.failed faults.old faults.new) }
{
    if !faults.failed() {
        let text = InlineText::<TEXT_BYTES>::of(text);
        let line = line_of(number, text.as_str(), row, document);
        let _ = write_out(faults, line.as_str().as_bytes());
    }
}

/// The line of a refusal, with its line feed.
fn line_of(number: u8, text: &str, row: Option<usize>, document: usize) -> ArrayString<LINE_BYTES>
    requires { length text.now ≤ 160 }
    ensures { result.bytes ≡ fault_line number text.now row document }
{
    let mut line = ArrayString::new();
    push_number(&mut line, "refused ", Some(number as usize));
    line.push_str(": ");
    line.push_str(text);
    push_number(&mut line, " in row ", row);
    push_number(&mut line, " of document ", document_meant(document));
    line.push_str("\n");
    line
}

/// Appends the word and the number, where there is one.
fn push_number(line: &mut ArrayString<LINE_BYTES>, word: &str, number: Option<usize>)
    requires { array_string_len line.old + length word.now + 40 ≤ 320 }
    ensures bytes { line.new.bytes ≡ line.old.bytes ++ counted word.now number }
    ensures len { array_string_len line.new ≤ array_string_len line.old + length word.now + 40 }
{
    if let Some(number) = number {
        line.push_str(word);
        line.push_str(Buffer::new().format(number));
    }
}

/// The document that is named, where it is one.
fn document_meant(document: usize) -> Option<usize>
    ensures { result ≡ document_meant document }
{
    match document {
        0 => None,
        _ => Some(document),
    }
}
