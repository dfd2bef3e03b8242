//! The commands of several documents, with a moment, `--now`, or with what they test of what comes
//! in.
ghost use Rattle.std.specs.Prelude.{◌≡◌, false, MatchResult};
ghost use Rattle.json_docs.specs.FaultChecks.{OrMemory};
ghost use Rattle.row_docs.specs.Reading.{no_memory};
ghost use Rattle.command_core.specs.inner.TaskActs.{Performs};
ghost use Rattle.command_core.specs.Documents.{AreChangesOf, IsDocument, RefusesChanges};
ghost use Rattle.command_core.specs.Documents.{RefusesDocuments};
ghost use Rattle.command_core.specs.OutputStreams.{reads};
ghost use Rattle.command_core.specs.TaskWords.{Changes, Document};

use crate::output::Answered;
use docs_core::{
    Checks, Doc, DocFault, Source, changes_document, delta_document, import_document,
    merge_documents, read_all, take_document, two_documents, update_document,
};
use front_core::{Answer, Outcome};
use std::alloc::Global;

/// A command that reads several documents, with its moment where it edits, and with what it tests
/// where it joins.
#[derive(Clone, Copy)]
pub(crate) enum DocumentTask {
    Import(u64),
    Update(u64),
    Delta,
    Take(Checks),
    Merge(Checks),
}

/// What answers the documents of the input.
pub(crate) fn answer_of<R: Source>(alloc: Global, task: DocumentTask, reader: &mut R) -> Answered
    requires { R.failed reader.old ≡ false }
    ensures { Performs (Document task)
        (reads R.remaining R.failed reader.old reader.new) result }
{
    let input = read_all(alloc, reader)?;
    let text = document_of(alloc, task, input.bytes())?;
    Ok(Answer::new(text, Outcome::Found))
}

/// How the cells of the two sites of the input differ.
pub(crate) fn changes<R: Source>(alloc: Global, reader: &mut R) -> Answered
    requires { R.failed reader.old ≡ false }
    ensures { Performs Changes (reads R.remaining R.failed reader.old reader.new) result }
{
    let sites = read_all(alloc, reader)?;
    let (text, is_changed) = changes_of(alloc, sites.bytes())?;
    Ok(Answer::new(text, Outcome::of(is_changed)))
}

/// How the cells of the two sites of these bytes differ, and whether they do.
fn changes_of(alloc: Global, input: &[u8]) -> Result<(Doc, bool), DocFault>
    ensures { MatchResult result (λ found. AreChangesOf input.now found.0 found.1)
        (OrMemory no_memory (RefusesChanges input.now)) }
{
    let (before, after) = two_documents(input);
    changes_document(alloc, before, after)
}

/// What answers the documents of these bytes.
fn document_of(alloc: Global, task: DocumentTask, input: &[u8]) -> Result<Doc, DocFault>
    ensures { MatchResult result (IsDocument task input.now)
        (OrMemory no_memory (RefusesDocuments task input.now)) }
{
    match task {
        DocumentTask::Import(now) => {
            let (site, maps) = two_documents(input);
            import_document(alloc, site, now, maps)
        }
        DocumentTask::Update(now) => {
            let (site, maps) = two_documents(input);
            let (old, new) = two_documents(maps);
            update_document(alloc, site, now, old, new)
        }
        DocumentTask::Delta => {
            let (site, summary) = two_documents(input);
            delta_document(alloc, site, summary)
        }
        DocumentTask::Take(checks) => {
            let (site, delta) = two_documents(input);
            take_document(alloc, site, delta, checks)
        }
        DocumentTask::Merge(checks) => merge_documents(alloc, input, checks),
    }
}
