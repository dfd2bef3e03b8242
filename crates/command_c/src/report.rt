//! What the command answers, reported to C.
ghost use Rattle.std.specs.Prelude.{◌≡◌, ◌≤◌, ◌++◌, length, drop, unwrap_or};
ghost use Rattle.command_c.specs.Answer.{out_of_memory};
ghost use Rattle.command_c.specs.inner.Answer.{is_read};
ghost use Rattle.command_c.specs.Report.{IsWrittenTo, Reports, read_number};
ghost use Rattle.command_c.specs.inner.Report.{texts_now};

use crate::answer::{Answer, Ended, Reading};
use command_core::status;

/// The line that reports that memory ended.
const OUT_OF_MEMORY_LINE: &[u8] = b"refused 26: out of memory\n";

/// What the call reports beside its status.
#[repr(C)]
#[derive(Clone, Copy, Debug, PartialEq, Eq)]
pub struct CommandTold {
    /// The bytes of the output, also where `out` has no room for them.
    pub out_len: usize,
    /// The bytes of the report, also where `err` has no room for them.
    pub err_len: usize,
    /// 1 where the command reads its input, else 0.
    pub input_read: u32,
}

/// Reports what the command answers, and gives its status.
pub(crate) fn report(answer: &Answer, out: &mut [u8], err: &mut [u8], told: &mut CommandTold) -> i32
    ensures { Reports (unwrap_or answer.now.ended out_of_memory) (is_read answer.now.reading)
        out.old out.new err.old err.new told.new result }
{
    let texts = texts_of(&answer.ended);
    write_to(texts.output, out);
    write_to(texts.errors, err);
    *told = CommandTold {
        out_len: texts.output.len(),
        err_len: texts.errors.len(),
        input_read: read_number(answer.reading),
    };
    i32::from(texts.status)
}

/// What the command leaves, borrowed.
#[derive(Clone, Copy)]
struct Texts<'a> {
    status: u8,
    output: &'a [u8],
    errors: &'a [u8],
}

/// What the command leaves; where memory ended, what it would then.
fn texts_of(ended: &Option<Ended>) -> Texts<'_>
    ensures { texts_now result ≡ unwrap_or ended.now out_of_memory }
{
    match ended {
        Some(ended) => Texts {
            status: ended.status,
            output: ended.output.as_slice(),
            errors: ended.errors.as_slice(),
        },
        None => Texts {
            status: status::OUT_OF_MEMORY,
            output: &[],
            errors: OUT_OF_MEMORY_LINE,
        },
    }
}

/// 1 where the input is read, else 0.
fn read_number(reading: Reading) -> u32
    ensures { result ≡ read_number (is_read reading) }
{
    match reading {
        Reading::Unread => 0,
        Reading::Read => 1,
    }
}

/// Writes a text to the start of the buffer, where there is room for all of it.
fn write_to(text: &[u8], out: &mut [u8])
    ensures { IsWrittenTo text.now out.old out.new }
{
    if text.len() <= out.len() {
        copy_to_front(text, out);
    }
}

/// Copies a text to the start of the buffer, which has room for it.
fn copy_to_front(text: &[u8], out: &mut [u8])
    requires { length text.now ≤ length out.old }
    ensures { out.new ≡ text.now ++ drop (length text.now) out.old }
{
    out[..text.len()].copy_from_slice(text);
}
