//! What a command answers, and how it ends: the answer is written, or the refusal reported.
ghost use Rattle.std.specs.Prelude.{◌≡◌, ◌++◌, false, is_err, IfErr, MatchResult, OnOk};
ghost use Rattle.std.specs.Io.KnownBytes.{Appends};
ghost use Rattle.json_docs.specs.Faults.{of_no_document};
ghost use Rattle.json_docs.specs.Sinks.{AppendsFront};
ghost use Rattle.json_docs.specs.declared.fault.DocCause.TheVariants.{WriteFault};
ghost use Rattle.command_core.specs.OutputEndings.{EndsRefused, Writes};
ghost use Rattle.command_core.specs.Status.{answer_status};
ghost use Rattle.command_core.specs.OutputStreams.{writes};

use crate::fault_line::refuse;
use crate::status;
use docs_core::{Doc, DocFault, Sink, write_out};
use front_core::{Answer, FrontFault, Outcome};

/// What a command answers, or why it is refused.
pub(crate) type Answered = Result<Answer, FrontFault>;

/// Writes the answer or reports the refusal, and gives the status.
pub(crate) fn finish<W: Sink, F: Sink>(answered: Answered, writer: &mut W, faults: &mut F) -> u8
    requires { W.failed writer.old ≡ false }
    ensures ends { MatchResult answered
        (λ answer. Writes answer.text (answer_status answer.outcome)
        (writes W.contents W.failed writer.old writer.new)
        (writes F.contents F.failed faults.old faults.new) result)
        (λ fault. EndsRefused fault
        (writes W.contents W.failed writer.old writer.new)
        (writes F.contents F.failed faults.old faults.new) result) }
{
    match answered {
        Ok(answer) => print(&answer, writer, faults),
        Err(fault) => refuse(faults, fault),
    }
}

/// Writes both texts in order; the status is 0.
pub(crate) fn print_both<W: Sink, F: Sink>(
    first: &Doc,
    second: &Doc,
    writer: &mut W,
    faults: &mut F,
) -> u8
    requires { W.failed writer.old ≡ false }
    ensures written { Writes (first.now ++ second.now) 0
        (writes W.contents W.failed writer.old writer.new)
        (writes F.contents F.failed faults.old faults.new) result }
{
    match write_both(first, second, writer) {
        Ok(()) => status::ANSWERED,
        Err(fault) => refuse(faults, FrontFault::from(fault)),
    }
}

/// Writes the whole text and gives the status of its outcome, or that of the fault of the output.
fn print<W: Sink, F: Sink>(answer: &Answer, writer: &mut W, faults: &mut F) -> u8
    requires { W.failed writer.old ≡ false }
    ensures written { Writes answer.now.text (answer_status answer.now.outcome)
        (writes W.contents W.failed writer.old writer.new)
        (writes F.contents F.failed faults.old faults.new) result }
{
    let status = answer_status(answer.outcome);
    match write_out(writer, answer.text.bytes()) {
        Ok(()) => status,
        Err(fault) => refuse(faults, FrontFault::from(fault)),
    }
}

/// The status of an answer with this outcome.
fn answer_status(outcome: Outcome) -> u8
    ensures { result ≡ answer_status outcome }
{
    match outcome {
        Outcome::Found => status::ANSWERED,
        Outcome::Nothing => status::NOTHING,
    }
}

/// Writes both texts in order.
fn write_both<W: Sink>(first: &Doc, second: &Doc, writer: &mut W) -> Result<(), DocFault>
    requires { W.failed writer.old ≡ false }
    ensures ok { OnOk result
        (Appends (W.contents writer.old) (W.contents writer.new) (first.now ++ second.now)) }
    ensures front { AppendsFront (W.contents writer.old) (W.contents writer.new)
        (first.now ++ second.now) }
    ensures refused { IfErr result (λ fault. fault ≡ of_no_document WriteFault) }
    ensures failed { W.failed writer.new ≡ is_err result }
{
    write_out(writer, first.bytes())?;
    write_out(writer, second.bytes())
}
