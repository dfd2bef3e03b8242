//! What follows clap: the values of the arguments, the task that they name, and how it is done.
ghost use Rattle.std.specs.Prelude.{◌≡◌, false, map, option_map};
ghost use Rattle.std.specs.Option.{option_copied};
ghost use Rattle.clap.specs.Words.{all_of, first_of, found_of, rows_of, subcommand_rows_of};
ghost use Rattle.front_core.specs.Offering.{offers_of};
ghost use Rattle.front_core.specs.Preferences.{field_text};
ghost use Rattle.command_core.specs.TaskActs.{ActsBy, Treats};
ghost use Rattle.command_core.specs.TaskEditWords.{edit_words};
ghost use Rattle.command_core.specs.TaskFieldWords as spec;
ghost use Rattle.command_core.specs.OutputStreams.{reads, streams, writes};
ghost use Rattle.command_core.specs.TaskWords.{Edit, GivesNumber, GivesNumbers, GivesTask};
ghost use Rattle.command_core.specs.TaskWords.{Replay, checks_words, own_edits_of, pick_task};
ghost use Rattle.command_core.specs.TaskWords.{shows_of};
ghost use Rattle.command_core.specs.inner.TaskValues.{preference_values, reader_values};
ghost use Rattle.command_core.specs.inner.TaskValues.{task_values};

use crate::documents::DocumentTask;
use crate::edits::EditValues;
use crate::explaining::{Explained, number_named, refusal_of};
use crate::fault_line::{refuse, refuse_arguments};
use crate::output::finish;
use crate::questions::ask;
use crate::{documents, edits, explaining, sites, status};
use clap::ArgMatches;
use docs_core::{Checks, OwnEdits, Shows, Sink, Source};
use front_core::words::{filter_answer, pick_answer};
use front_core::{Field, Filter, FrontFault, Lookup, Missing, Offering, Outdated, Reader, View};
use nego_core::{Malformed, Offer, Scheme, Widening};
use std::alloc::Global;

/// Does what the matches say, and gives the status: what is written is the text that the call of
/// `docs_core`, or of `front_core` for a question, gives for these arguments and this input.
///
/// The arguments are processed in their order, before the input: one that is refused leaves the
/// input unread, and `pick`, `new` and `explain` never read. Then the whole input is read, at most
/// 67,108,864 bytes of it. Of two documents the first ends at the first LF, and of three the second
/// at the second; of the sites of `merge` each is one line. A refusal has the status of its number;
/// with 25 a prefix of the text is written, and with any other nothing.
///
/// Matches without a command of the program, without an argument that the command needs, or with
/// two that do not go together (`pick --all` with `--default`, `--widen` or `--fallbacks`), are a
/// usage fault: status 2, and nothing is read or written.
pub fn act<R: Source, W: Sink, F: Sink>(
    alloc: Global,
    matches: &ArgMatches<'_>,
    reader: &mut R,
    writer: &mut W,
    faults: &mut F,
) -> u8
    requires reads { R.failed reader.old ≡ false }
    requires writes { W.failed writer.old ≡ false }
    requires reports { F.failed faults.old ≡ false }
    ensures acts { ActsBy (subcommand_rows_of matches.now) (streams
        (reads R.remaining R.failed reader.old reader.new)
        (writes W.contents W.failed writer.old writer.new)
        (writes F.contents F.failed faults.old faults.new)) result }
{
    match read(matches) {
        Some(task) => perform(alloc, task, reader, writer, faults),
        None => refuse_arguments(faults),
    }
}

/// A command of the program, with the values of its arguments.
#[derive(Drop)]
enum Task<'m, 'a> {
    Pick(PreferenceValues<'a>, &'m [&'a str]),
    PickAll(Field<'a>, &'m [&'a str]),
    New(&'a str),
    Edit(EditValues<'m, 'a>),
    Document(DocumentTask),
    View(View),
    Missing(&'a [u8]),
    Outdated(&'a [u8], &'a [u8]),
    Changes,
    Filter(&'a [u8], Offering<'a>, Field<'a>),
    Lookup(&'a [u8], ReaderValues<'a>),
    Bundle(ReaderValues<'a>),
    Sync(Checks),
    Replay,
    Explain(Explained),
}

/// What a reader prefers: a field, and a default where there is one.
#[derive(Clone, Copy)]
struct PreferenceValues<'a> {
    /// The ranges, and how they are read.
    field: Field<'a>,
    /// The language of `--default`.
    default: Option<&'a [u8]>,
}

/// A reader of a site.
#[derive(Clone, Copy)]
struct ReaderValues<'a> {
    /// What is offered, by `--offer`.
    offering: Offering<'a>,
    /// What it prefers of that.
    preferences: PreferenceValues<'a>,
}

/// The numbers among the arguments.
#[derive(Clone, Copy)]
struct Numbers {
    /// The moment, `--now`.
    now: Option<u64>,
    /// The latest time that is taken, `--not-after`.
    not_after: Option<u64>,
    /// The number of a refusal, which is given or has the word that is.
    error: Option<u64>,
}

/// The task of clap's matches, where they name a command of the program, no argument is missing,
/// and all go together.
fn read<'m, 'a>(matches: &'m ArgMatches<'a>) -> Option<Task<'m, 'a>>
    ensures { GivesTask (subcommand_rows_of matches.now) (option_map task_values result) }
{
    let (name, arguments) = matches.subcommand()?;
    task_of(name, arguments)
}

/// The task of the command of this name, with these arguments.
fn task_of<'m, 'a>(name: &str, matches: &'m ArgMatches<'a>) -> Option<Task<'m, 'a>>
    ensures { GivesTask (Some (name.now, rows_of (found_of matches.now)))
        (option_map task_values result) }
{
    let numbers = numbers_of(matches);
    match name {
        "pick" => pick_of(matches),
        "new" => Some(Task::New(text_of(matches, "site")?)),
        "put" => edit_of(numbers.now, Some(texts_of(matches, "texts")?), matches),
        "delete" => edit_of(numbers.now, None, matches),
        "status" => Some(Task::View(View::Status)),
        "import" => Some(Task::Document(DocumentTask::Import(numbers.now?))),
        "update" => Some(Task::Document(DocumentTask::Update(numbers.now?))),
        "export" => Some(Task::View(View::Export)),
        "missing" => Some(Task::Missing(text_bytes(matches, "lang")?)),
        "outdated" => Some(Task::Outdated(
            text_bytes(matches, "lang")?,
            text_bytes(matches, "source")?,
        )),
        "changes" => Some(Task::Changes),
        "labels" => Some(Task::View(View::Labels)),
        "filter" => Some(Task::Filter(
            text_bytes(matches, "id")?,
            offering_of(matches),
            field_of(matches, "field")?,
        )),
        "lookup" => Some(Task::Lookup(text_bytes(matches, "id")?, reader_of(matches)?)),
        "bundle" => Some(Task::Bundle(reader_of(matches)?)),
        "summary" => Some(Task::View(View::Summary(shows_of(is_given(matches, "labels"))))),
        "delta" => Some(Task::Document(DocumentTask::Delta)),
        "take" => Some(Task::Document(DocumentTask::Take(checks_of(numbers.not_after, matches)))),
        "sync" => Some(Task::Sync(checks_of(numbers.not_after, matches))),
        "merge" => Some(Task::Document(DocumentTask::Merge(checks_of(numbers.not_after, matches)))),
        "replay" => Some(Task::Replay),
        "explain" => Some(Task::Explain(refusal_of(numbers.error)?)),
        _ => None,
    }
}

/// The pick of the arguments: of all tags that fit with `--all`, which goes with no widening, no
/// table of fallbacks and no default.
fn pick_of<'m, 'a>(matches: &'m ArgMatches<'a>) -> Option<Task<'m, 'a>>
    ensures { option_map task_values result ≡ pick_task (rows_of (found_of matches.now)) }
{
    let preferences = preferences_of(matches, "ranges")?;
    let tags = texts_of(matches, "tags")?;
    if !is_given(matches, "all") {
        return Some(Task::Pick(preferences, tags));
    }
    let field = preferences.field;
    match (field.widening, field.fallbacks, preferences.default) {
        (Widening::By(_), _, _) => None,
        (Widening::Off, [_, ..], _) => None,
        (Widening::Off, [], Some(_)) => None,
        (Widening::Off, [], None) => Some(Task::PickAll(field, tags)),
    }
}

/// The edit of the arguments, with these texts.
fn edit_of<'m, 'a>(
    now: Option<u64>,
    texts: Option<&'m [&'a str]>,
    matches: &ArgMatches<'a>,
) -> Option<Task<'m, 'a>>
    ensures { option_map task_values result
        ≡ option_map Edit
        (edit_words now (option_map (λ s. map (λ v. v.now) s.now) texts.entry)
        (rows_of (found_of matches.now))) }
{
    Some(Task::Edit(EditValues {
        now: now?,
        id: text_of(matches, "id")?,
        lang: text_of(matches, "lang")?,
        texts,
    }))
}

/// The first text of an argument.
fn text_of<'a>(matches: &ArgMatches<'a>, id: &str) -> Option<&'a str>
    ensures { option_map (λ s. s.now) result ≡ first_of id.now (rows_of (found_of matches.now)) }
{
    matches.get_str(id)
}

/// All texts of an argument.
fn texts_of<'m, 'a>(matches: &'m ArgMatches<'a>, id: &str) -> Option<&'m [&'a str]>
    ensures { option_map (λ s. map (λ v. v.now) s.now) result
        ≡ all_of id.now (rows_of (found_of matches.now)) }
{
    matches.get_strs(id)
}

/// The numbers that the arguments give.
fn numbers_of(matches: &ArgMatches<'_>) -> Numbers
    ensures { GivesNumbers (rows_of (found_of matches.now)) result }
{
    Numbers {
        now: number_of(matches, "now"),
        not_after: number_of(matches, "not-after"),
        error: number_named(number_of(matches, "error"), text_of(matches, "error")),
    }
}

/// What an exchange tests, by the limit on times and `--check-own`.
fn checks_of(not_after: Option<u64>, matches: &ArgMatches<'_>) -> Checks
    ensures { result ≡ checks_words not_after (rows_of (found_of matches.now)) }
{
    let own_edits = own_edits_of(is_given(matches, "check-own"));
    Checks {
        not_after,
        own_edits,
    }
}

/// The field of an argument, read as `--scheme`, `--lenient`, `--widen` and `--fallbacks` say.
fn field_of<'a>(matches: &ArgMatches<'a>, id: &str) -> Option<Field<'a>>
    ensures { option_map field_text result ≡ spec.field_of id.now (rows_of (found_of matches.now)) }
{
    let text = text_of(matches, id)?;
    let scheme = scheme_of(text_of(matches, "scheme"));
    let malformed = malformed_of(is_given(matches, "lenient"));
    let widening = widening_of(is_given(matches, "widen"), scheme);
    Some(Field {
        scheme,
        malformed,
        widening,
        fallbacks: fallbacks_of(text_bytes(matches, "fallbacks")),
        text: text.as_bytes(),
    })
}

/// The table of fallbacks that is given; where there is none, one without bytes.
fn fallbacks_of(text: Option<&[u8]>) -> &[u8]
    ensures { result.now ≡ spec.fallbacks_of (option_map (λ s. s.now) text.entry) }
{
    match text {
        None => &[],
        Some(text) => text,
    }
}

/// The preferences whose field is this argument.
fn preferences_of<'a>(matches: &ArgMatches<'a>, id: &str) -> Option<PreferenceValues<'a>>
    ensures { option_map preference_values result
        ≡ spec.preference_words id.now (rows_of (found_of matches.now)) }
{
    let field = field_of(matches, id)?;
    let default = text_bytes(matches, "default");
    Some(PreferenceValues { field, default })
}

/// The reader whose field is the argument `field`.
fn reader_of<'a>(matches: &ArgMatches<'a>) -> Option<ReaderValues<'a>>
    ensures { option_map reader_values result
        ≡ spec.reader_words (rows_of (found_of matches.now)) }
{
    let preferences = preferences_of(matches, "field")?;
    let offering = offering_of(matches);
    Some(ReaderValues {
        offering,
        preferences,
    })
}

/// What is offered, by `--offer`; all languages where it is not given.
fn offering_of<'a>(matches: &ArgMatches<'a>) -> Offering<'a>
    ensures { offers_of result ≡ spec.offer_words (rows_of (found_of matches.now)) }
{
    match text_bytes(matches, "offer") {
        None => Offering::Given(Offer::All),
        Some(text) => Offering::Field(text),
    }
}

/// The bytes of an argument's first text.
fn text_bytes<'a>(matches: &ArgMatches<'a>, id: &str) -> Option<&'a [u8]>
    ensures { option_map (λ s. s.now) result ≡ first_of id.now (rows_of (found_of matches.now)) }
{
    match text_of(matches, id) {
        None => None,
        Some(text) => Some(text.as_bytes()),
    }
}

/// Whether an option without a value is given.
fn is_given(matches: &ArgMatches<'_>, id: &str) -> bool
    ensures { result ≡ spec.is_given (first_of id.now (rows_of (found_of matches.now))) }
{
    is_true(text_of(matches, id))
}

/// The number that an argument gives.
fn number_of(matches: &ArgMatches<'_>, id: &str) -> Option<u64>
    ensures { GivesNumber id.now (rows_of (found_of matches.now)) result }
{
    matches.get_one::<u64>(id)
}

/// The scheme of an argument; where there is none, the basic one.
fn scheme_of(word: Option<&str>) -> Scheme
    ensures { result ≡ spec.scheme_of (option_copied word.entry) }
{
    match word {
        Some("extended") => Scheme::Extended,
        _ => Scheme::Basic,
    }
}

/// Whether an option has the text that clap gives it where it is present; else it has "false".
fn is_true(word: Option<&str>) -> bool
    ensures { result ≡ spec.is_given (option_copied word.entry) }
{
    match word {
        Some("true") => true,
        _ => false,
    }
}

/// Whether ranges find what they match by the scheme.
fn widening_of(widens: bool, scheme: Scheme) -> Widening
    ensures { result ≡ spec.widening_of widens scheme }
{
    if widens {
        Widening::By(scheme)
    } else {
        Widening::Off
    }
}

/// What becomes of malformed elements.
fn malformed_of(is_lenient: bool) -> Malformed
    ensures { result ≡ spec.malformed_of is_lenient }
{
    if is_lenient {
        Malformed::PassedOver
    } else {
        Malformed::Refused
    }
}

/// Whether edits of the site's own are looked for.
fn own_edits_of(is_checked: bool) -> OwnEdits
    ensures { result ≡ own_edits_of is_checked }
{
    if is_checked {
        OwnEdits::Checked
    } else {
        OwnEdits::Unchecked
    }
}

/// What a summary shows.
fn shows_of(shows_labels: bool) -> Shows
    ensures { result ≡ shows_of shows_labels }
{
    if shows_labels {
        Shows::Labels
    } else {
        Shows::Stamps
    }
}

/// Does the task, and gives the status.
fn perform<R: Source, W: Sink, F: Sink>(
    alloc: Global,
    task: Task<'_, '_>,
    reader: &mut R,
    writer: &mut W,
    faults: &mut F,
) -> u8
    requires reads { R.failed reader.old ≡ false }
    requires writes { W.failed writer.old ≡ false }
    ensures acts { Treats (task_values task.entry) (streams
        (reads R.remaining R.failed reader.old reader.new)
        (writes W.contents W.failed writer.old writer.new)
        (writes F.contents F.failed faults.old faults.new)) result }
{
    let answered = match task {
        Task::Pick(preferences, tags) => {
            pick_answer(alloc, preferences.field, preferences.default, tags)
        }
        Task::PickAll(field, tags) => filter_answer(alloc, field, tags),
        Task::New(name) => sites::new_site(alloc, name),
        Task::Edit(values) => edits::answer_of(alloc, values, reader),
        Task::Document(task) => documents::answer_of(alloc, task, reader),
        Task::View(view) => ask(alloc, Ok(view), reader),
        Task::Missing(lang) => ask(alloc, Missing::read(alloc, lang), reader),
        Task::Outdated(lang, source) => ask(alloc, Outdated::read(alloc, lang, source), reader),
        Task::Changes => documents::changes(alloc, reader),
        Task::Filter(id, offering, field) => {
            ask(alloc, Filter::read(alloc, id, offering, field), reader)
        }
        Task::Lookup(id, values) => {
            let preferences = values.preferences;
            let asked = Lookup::read(
                alloc,
                id,
                values.offering,
                preferences.field,
                preferences.default,
            );
            ask(alloc, asked, reader)
        }
        Task::Bundle(values) => {
            let preferences = values.preferences;
            let asked = Reader::read(
                alloc,
                values.offering,
                preferences.field,
                preferences.default,
            );
            ask(alloc, asked, reader)
        }
        Task::Sync(checks) => return sites::sync(alloc, checks, reader, writer, faults),
        Task::Replay => return replay(alloc, reader, writer, faults),
        Task::Explain(it) => explaining::answer_of(alloc, it),
    };
    finish(answered, writer, faults)
}

/// Replays the script of the input, or reports the refusal.
fn replay<R: Source, W: Sink, F: Sink>(
    alloc: Global,
    reader: &mut R,
    writer: &mut W,
    faults: &mut F,
) -> u8
    requires reads { R.failed reader.old ≡ false }
    requires writes { W.failed writer.old ≡ false }
    ensures acts { Treats Replay (streams
        (reads R.remaining R.failed reader.old reader.new)
        (writes W.contents W.failed writer.old writer.new)
        (writes F.contents F.failed faults.old faults.new)) result }
{
    match docs_core::replay(alloc, reader, writer) {
        Ok(()) => status::ANSWERED,
        Err(fault) => refuse(faults, FrontFault::from(fault)),
    }
}
