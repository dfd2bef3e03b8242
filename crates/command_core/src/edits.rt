//! The commands `put` and `delete`.
ghost use Rattle.std.specs.Prelude.{◌≡◌, false, MatchResult};
ghost use Rattle.command_core.specs.TaskActs.{IsChangeOf, RefusesChangeOf};
ghost use Rattle.command_core.specs.inner.TaskActs.{Performs};
ghost use Rattle.command_core.specs.OutputStreams.{reads};
ghost use Rattle.command_core.specs.TaskWords.{Edit};
ghost use Rattle.command_core.specs.inner.TaskValues.{edit_values};

use crate::output::Answered;
use docs_core::{Source, read_all};
use front_core::{Answer, Change, FrontFault, Outcome};
use std::alloc::Global;

/// The values of an edit: it puts a label, or without texts deletes it.
#[derive(Clone, Copy)]
pub(crate) struct EditValues<'m, 'a> {
    /// The moment, `--now`.
    pub now: u64,
    /// The message, `--id`.
    pub id: &'a str,
    /// The language, `--lang`.
    pub lang: &'a str,
    /// The texts of the label; none for a deletion.
    pub texts: Option<&'m [&'a str]>,
}

/// The site of the input with the edit made.
pub(crate) fn answer_of<R: Source>(
    alloc: Global,
    values: EditValues<'_, '_>,
    reader: &mut R,
) -> Answered
    requires { R.failed reader.old ≡ false }
    ensures { Performs (Edit (edit_values values.entry))
        (reads R.remaining R.failed reader.old reader.new) result }
{
    let change = change_of(alloc, values)?;
    let site = read_all(alloc, reader)?;
    let text = change.make_in_document(alloc, site.bytes(), values.now)?;
    Ok(Answer::new(text, Outcome::Found))
}

/// The change that the values name.
fn change_of(alloc: Global, values: EditValues<'_, '_>) -> Result<Change, FrontFault>
    ensures { MatchResult result (IsChangeOf (edit_values values.entry))
        (RefusesChangeOf (edit_values values.entry)) }
{
    let (id, lang) = (values.id.as_bytes(), values.lang.as_bytes());
    match values.texts {
        Some(texts) => Change::put_texts(alloc, id, lang, texts),
        None => Change::delete(alloc, id, lang),
    }
}
