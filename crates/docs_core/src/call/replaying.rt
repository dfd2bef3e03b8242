//! Scripts from a reader to a writer.
ghost use Rattle.std.specs.Prelude.{◌≡◌, ◌⊎◌, ℕ, List, true, false, IfErr, MatchResult, OnOk};
ghost use Rattle.std.specs.Io.KnownBytes.{Appends};
ghost use Rattle.cata_core.specs.declared.play_fault.PlayFault.TheVariants.{NoMemory};
ghost use Rattle.json_docs.specs.FaultChecks.{OrMemory};
ghost use Rattle.json_docs.specs.Faults.{of_no_document};
ghost use Rattle.json_docs.specs.Sinks.{AppendsFront};
ghost use Rattle.json_docs.specs.Sources.{IsReadFault, ReadsWhole};
ghost use Rattle.json_docs.specs.declared.fault.DocCause.TheVariants.{WriteFault};
ghost use Rattle.row_docs.specs.Reading.{IsOfDocument, no_memory};
ghost use Rattle.script_docs.specs.Reading.{ReadsAsScript, RefusesScript};
ghost use Rattle.query_docs.specs.Lines.{lines};
ghost use Rattle.docs_core.specs.Replaying.{IsPlayed, RefusesReplay, RefusesRun, Replays};

use cata_core::{Answers, PlayFault, play};
use json_docs::{Doc, DocFault, Sink, Source, read_all, write_out};
use query_docs::answer_lines;
use script_docs::{Script, read_script};
use std::alloc::Global;

/// Reads a script from a source that did not fail yet, runs it, and writes the lines of its answers
/// to a sink that did not fail yet.
///
/// Refusals are those of [`read_all`] (23, 24, 26), of [`read_script`], of the run (16, 17, 13), of
/// [`answer_lines`] (26) and of [`write_out`] (25), in this order. Nothing is written with any of
/// them but 25, and with 25 a prefix of the lines.
pub fn replay<R: Source, W: Sink>(
    alloc: Global,
    reader: &mut R,
    writer: &mut W,
) -> Result<(), DocFault>
    requires reads { R.failed reader.old ≡ false }
    requires writes { W.failed writer.old ≡ false }
    ensures ok { OnOk result
        ((bytes text : List ℕ) × ReadsWhole R.failed R.remaining reader.old reader.new bytes
        × Replays bytes text
        × Appends (W.contents writer.old) (W.contents writer.new) text
        × (W.failed writer.new ≡ false)) }
    // Of the first stage that refuses: reading, the script with its run and its lines, or writing.
    ensures err { IfErr result (λ fault.
        (IsReadFault R.failed R.remaining reader.old reader.new fault × (writer.new ≡ writer.old))
        ⊎ ((bytes : List ℕ) × ReadsWhole R.failed R.remaining reader.old reader.new bytes
        × OrMemory no_memory (RefusesReplay bytes) fault × (writer.new ≡ writer.old))
        ⊎ ((bytes text : List ℕ) × ReadsWhole R.failed R.remaining reader.old reader.new bytes
        × Replays bytes text
        × (fault ≡ of_no_document WriteFault) × (W.failed writer.new ≡ true)
        × AppendsFront (W.contents writer.old) (W.contents writer.new) text)) }
{
    let lines = read_and_play(alloc, reader)?;
    write_out(writer, lines.bytes())
}

/// The lines of the script that the source gives.
fn read_and_play<R: Source>(alloc: Global, reader: &mut R) -> Result<Doc, DocFault>
    requires { R.failed reader.old ≡ false }
    ensures { MatchResult result
        (λ text. (bytes : List ℕ) × ReadsWhole R.failed R.remaining reader.old reader.new bytes
        × Replays bytes text)
        (λ fault. IsReadFault R.failed R.remaining reader.old reader.new fault
        ⊎ ((bytes : List ℕ) × ReadsWhole R.failed R.remaining reader.old reader.new bytes
        × OrMemory no_memory (RefusesReplay bytes) fault)) }
{
    let bytes = read_all(alloc, reader)?;
    play_script(alloc, bytes)
}

/// The lines of a script. The bytes are given back before it runs.
fn play_script(alloc: Global, bytes: Doc) -> Result<Doc, DocFault>
    ensures { MatchResult result (Replays bytes) (OrMemory no_memory (RefusesReplay bytes)) }
{
    let script = script_in(alloc, bytes)?;
    let answers = answers_of(alloc, &script)?;
    let lines = answer_lines(alloc, &answers)?;
    Ok(lines)
}

/// The script of a document, whose bytes are given back.
fn script_in(alloc: Global, bytes: Doc) -> Result<Script, DocFault>
    ensures { MatchResult result (ReadsAsScript bytes)
        (OrMemory no_memory (IsOfDocument 1 (RefusesScript bytes))) }
{
    read_script(alloc, bytes.bytes())
}

/// The answers of the run of a script.
fn answers_of(alloc: Global, script: &Script) -> Result<Answers, PlayFault>
    ensures { MatchResult result (IsPlayed script.now) (OrMemory NoMemory (RefusesRun script.now)) }
{
    play(alloc, script.sites(), script.steps())
}
