//! The commands `new` and `sync`.
ghost use Rattle.std.specs.Prelude.{◌≡◌, ◌++◌, false, MatchResult};
ghost use Rattle.command_core.specs.TaskActs.{RefusesNew, IsNew, IsSync, RefusesSync, Treats};
ghost use Rattle.command_core.specs.TaskReading.{NoWords, RefusesNothing, AnswersInput};
ghost use Rattle.command_core.specs.TaskReading.{RefusesInput};
ghost use Rattle.command_core.specs.Status.{answer_status};
ghost use Rattle.command_core.specs.OutputStreams.{reads, streams, writes};
ghost use Rattle.command_core.specs.TaskWords.{Sync};

use crate::fault_line::refuse;
use crate::output::{Answered, print_both};
use cata_core::Site;
use cell_core::SiteName;
use docs_core::{Checks, Doc, Sink, Source, read_all, sync_documents, two_documents, write_site};
use front_core::{Answer, FrontFault, Outcome};
use std::alloc::Global;

/// The document of the empty site of this name.
pub(crate) fn new_site(alloc: Global, name: &str) -> Answered
    ensures { MatchResult result
        (λ answer. IsNew name.now answer.text (answer_status answer.outcome))
        (RefusesNew name.now) }
{
    let name = SiteName::new(name)?;
    let text = write_site(alloc, &Site::new(alloc, name))?;
    Ok(Answer::new(text, Outcome::Found))
}

/// Prints both sites of the input after their sync, or reports the refusal.
pub(crate) fn sync<R: Source, W: Sink, F: Sink>(
    alloc: Global,
    checks: Checks,
    reader: &mut R,
    writer: &mut W,
    faults: &mut F,
) -> u8
    requires reads { R.failed reader.old ≡ false }
    requires writes { W.failed writer.old ≡ false }
    ensures acts { Treats (Sync checks) (streams
        (reads R.remaining R.failed reader.old reader.new)
        (writes W.contents W.failed writer.old writer.new)
        (writes F.contents F.failed faults.old faults.new)) result }
{
    match synced(alloc, checks, reader) {
        Ok((first, second)) => print_both(&first, &second, writer, faults),
        Err(fault) => refuse(faults, fault),
    }
}

/// Both sites of the input after their sync.
fn synced<R: Source>(
    alloc: Global,
    checks: Checks,
    reader: &mut R,
) -> Result<(Doc, Doc), FrontFault>
    requires { R.failed reader.old ≡ false }
    ensures { MatchResult result
        (λ texts. AnswersInput (IsSync checks)
        (reads R.remaining R.failed reader.old reader.new) (texts.0 ++ texts.1) 0)
        (RefusesInput NoWords RefusesNothing (RefusesSync checks)
        (reads R.remaining R.failed reader.old reader.new)) }
{
    let input = read_all(alloc, reader)?;
    let (first, second) = two_documents(input.bytes());
    let texts = sync_documents(alloc, first, second, checks)?;
    Ok(texts)
}
