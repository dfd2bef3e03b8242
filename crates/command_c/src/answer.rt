//! The command over streams in memory.
ghost use Rattle.std.specs.Prelude.{◌≡◌, false, map, string_bytes, unwrap_or, IfSome, MatchOption};
ghost use Rattle.std_io.specs.IoError.{error_kind};
ghost use Rattle.command_core.specs.OutputStreams.{reads};
ghost use Rattle.command_c.specs.Answer.{Answers, AnswersTexts, IsRefused, Runs, out_of_memory};
ghost use Rattle.command_c.specs.inner.Answer.{is_read};
ghost use Rattle.command_c.specs.Memory.{took};

use crate::memory::{Absent, Given, Kept};
use crate::words::{Word, texts_of};
use command_core::{refuse_words, run};
use docs_core::{Sink, Source};
use std::alloc::Global;
use std::io;
use std::marker::Model;

/// What the command leaves.
#[derive(Drop)]
pub(crate) struct Ended {
    /// The status.
    pub status: u8,
    /// What it wrote to its output.
    pub output: Vec<u8>,
    /// What it reported.
    pub errors: Vec<u8>,
}

/// It is seen as the status and the two texts.
impl Model for Ended {
    ghost use Rattle.command_c.specs.Answer.{Ended as Texts};

    ghost Value = { Texts };

    ghost view = { λ ended. record {
      status = ended.status;
      output = ended.output.items;
      errors = ended.errors.items;
    } };
}

/// Whether the command reads its input.
#[derive(Clone, Copy, Debug, PartialEq, Eq)]
pub(crate) enum Reading {
    /// It does not: the answer is that of any input.
    Unread,
    /// It does.
    Read,
}

/// What the command answers.
#[derive(Drop)]
pub(crate) struct Answer {
    /// What it leaves, or none where memory ended.
    pub ended: Option<Ended>,
    /// Whether it reads its input.
    pub reading: Reading,
}

/// Runs the command on the arguments over an input: first over none, and where that is read over
/// the one that is there.
pub(crate) fn answer_to(alloc: Global, words: &[Word<'_>], input: &[u8]) -> Answer
    ensures { Answers (map (λ word. word.text.now) words.now) input.now (is_read result.reading)
        (unwrap_or result.ended out_of_memory) }
{
    match texts_of(alloc, words) {
        Ok(texts) => answer_to_texts(alloc, &texts, input),
        Err(error) => Answer {
            ended: refuse_over(alloc, &error),
            reading: Reading::Unread,
        },
    }
}

/// The same of arguments that are texts.
fn answer_to_texts(alloc: Global, words: &[String], input: &[u8]) -> Answer
    ensures { AnswersTexts (map string_bytes words.now) input.now (is_read result.reading)
        (unwrap_or result.ended out_of_memory) }
{
    let mut absent = Absent::new();
    match run_over(alloc, words, &mut absent) {
        Some(_) if absent.failed() => Answer {
            ended: run_over(alloc, words, &mut Given::new(input)),
            reading: Reading::Read,
        },
        ended => Answer {
            ended,
            reading: Reading::Unread,
        },
    }
}

/// What a run leaves, or none where there is no memory to keep it.
fn run_over<R: Source>(alloc: Global, words: &[String], reader: &mut R) -> Option<Ended>
    requires { R.failed reader.old ≡ false }
    ensures { IfSome result (Runs (map string_bytes words.now)
        (reads R.remaining R.failed reader.old reader.new)) }
{
    let mut writer = Kept::new(alloc);
    let mut faults = Kept::new(alloc);
    let status = run(alloc, words, reader, &mut writer, &mut faults);
    kept_by(status, writer, faults)
}

/// What is left where the arguments are no texts, or none where there is no memory to keep it.
fn refuse_over(alloc: Global, error: &io::Error) -> Option<Ended>
    ensures { IfSome result (IsRefused (error_kind error.now)) }
{
    let mut faults = Kept::new(alloc);
    let status = refuse_words(&mut faults, error);
    kept_by(status, Kept::new(alloc), faults)
}

/// What was kept with this status, or none where a write failed.
fn kept_by(status: u8, writer: Kept, faults: Kept) -> Option<Ended>
    ensures { IfSome result (λ ended. (ended.status ≡ status) × (writer ≡ took ended.output)
        × (faults ≡ took ended.errors)) }
{
    if writer.failed() || faults.failed() {
        return None;
    }
    Some(Ended {
        status,
        output: writer.into_bytes(),
        errors: faults.into_bytes(),
    })
}
