//! The commands that question the site of the input.
ghost use Rattle.std.specs.Prelude.{◌≡◌, Err, Ok, false};
ghost use Rattle.command_core.specs.inner.TaskActs.{Asks};
ghost use Rattle.command_core.specs.OutputStreams.{reads};

use crate::output::Answered;
use docs_core::{Source, read_all};
use front_core::{FrontFault, Question, SiteIn};
use std::alloc::Global;

/// The answer to a question over the site of the input, which is read where the question was.
pub(crate) fn ask<Q: Question, R: Source>(
    alloc: Global,
    question: Result<Q, FrontFault>,
    reader: &mut R,
) -> Answered
    requires { R.failed reader.old ≡ false }
    ensures { Asks (λ asked. question ≡ Ok asked) (λ fault. question ≡ Err fault) Q.Answers
        (reads R.remaining R.failed reader.old reader.new) result }
{
    let asked = question?;
    let input = read_all(alloc, reader)?;
    asked.answer(alloc, SiteIn::Document(input.bytes()))
}
