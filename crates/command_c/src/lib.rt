//! The library for C that has the whole command `lexicat` in one call, [`sw_command`], which
//! `silkwaram_command.h` declares.
//!
//! It is [`run`](command_core::run) over streams in memory. What is put into the two buffers, and
//! the status, are those that the command ends with on the same arguments and the same input. The
//! call prints nothing, waits for nothing, and opens no file.
//!
//! ```text
//! pick 'da, en' en fr            out: matched en, status 0, the input is not read
//! status, over an empty input    err: refused 19: not JSON of document 1, status 3
//! ```
#![tactic(auto)]

ghost use Rattle.std.specs.Prelude.{map};
ghost use Rattle.command_c.specs.Report.{ReportsCommand};

mod answer;
pub mod laws;
mod memory;
mod report;
mod words;

use crate::answer::answer_to;
use crate::report::report;
pub use report::CommandTold;
use std::alloc::Global;
pub use words::Word;

/// Runs the command on the arguments after its name, and gives its status, 0 to 5. What it writes
/// to standard output goes to `out`, and what it reports, usage or the line of a refusal, to `err`.
///
/// An argument that is not UTF-8 is a usage error, as in a process. Where memory ends the status is
/// 5, and `err` has the line of refusal 26. No read and no write fails, so there is no status 4.
///
/// A buffer that has no room for its text is left as it was; the reported length is that of the
/// text, and the status is as with room. It is reported whether the command reads its input: where
/// it does not, the answer is that of any input ([`laws::an_unread_input_has_no_part`]).
#[unsafe(no_mangle)]
pub extern "C" fn sw_command(
    alloc: Global,
    words: &[Word<'_>],
    input: &[u8],
    out: &mut [u8],
    err: &mut [u8],
    told: &mut CommandTold,
) -> i32
    ensures { ReportsCommand (map (λ word. word.text.now) words.now) input.now out.old out.new
        err.old err.new told.new result }
{
    report(&answer_to(alloc, words, input), out, err, told)
}
