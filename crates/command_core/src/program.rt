//! The whole program, over any streams.
ghost use Rattle.std.specs.Prelude.{◌≡◌, false, codes, map, string_bytes, IfOk, IfSome};
ghost use Rattle.clap.specs.Words.{app_of, kind_of, fault_of, subcommand_of, subcommand_rows_of};
ghost use Rattle.clap.specs.Words.{FailsBy};
ghost use Rattle.command_core.specs.ProgramHelp.{words_meant};
ghost use Rattle.command_core.specs.Program.{RunsBy};
ghost use Rattle.command_core.specs.inner.Program.{MatchesBy, ReportsBy};
ghost use Rattle.command_core.specs.OutputStreams.{reads, streams, writes};
ghost use Rattle.command_core.specs.ArgumentsWords.{bare_app, lexicat_app};

use crate::commands::{with_exchange, with_labels, with_questions, with_sites};
use crate::fault_line::refuse_for_memory;
use crate::status;
use crate::task::act;
use clap::error::ErrorKind;
use clap::{ArgMatches, Command, Error};
use docs_core::{Sink, Source, write_out};
use front_core::VERSION;
use std::alloc::{AllocError, Global};
use std::convert::AsStr;

/// The names of the schemes that `--scheme` takes.
static SCHEMES: [&str; 2] = ["basic", "extended"];

/// What `explain` takes: the numbers of errors, then their words.
static ERRORS: [&str; 62] = [
    "1",
    "2",
    "3",
    "4",
    "5",
    "6",
    "7",
    "8",
    "9",
    "10",
    "11",
    "12",
    "13",
    "14",
    "15",
    "16",
    "17",
    "18",
    "19",
    "20",
    "21",
    "22",
    "23",
    "24",
    "25",
    "26",
    "27",
    "28",
    "29",
    "30",
    "31",
    "tag-empty",
    "tag-too-long",
    "subtag-malformed",
    "tag-malformed",
    "range-empty",
    "range-too-long",
    "range-malformed",
    "field-too-long",
    "field-malformed",
    "id-invalid",
    "text-too-long",
    "text-count",
    "duplicate-timestamp",
    "clock-exhausted",
    "wrong-addressee",
    "unknown-site",
    "unknown-post",
    "not-utf8",
    "not-json",
    "wrong-shape",
    "wrong-order",
    "repeated-language",
    "too-large",
    "read-error",
    "write-error",
    "out-of-memory",
    "site-name-invalid",
    "unknown-version",
    "clock-ahead",
    "own-edit-missing",
    "fallback-malformed",
];

/// Runs the program on the arguments after its name, and gives its status. `help` is `--help`, and
/// `help COMMAND` is `COMMAND --help`.
///
/// Which arguments are usage errors is in the contract, for the whole program. Help and the version
/// go to the output. After any of these nothing is read, and the status is 0, 2 or 5.
///
/// Nothing is written to `faults` with status 0 or 1. A refusal is reported there by one line,
/// `refused N: TEXT` with its row and document, or by a prefix of it where that writer failed.
pub fn run<R: Source, W: Sink, F: Sink>(
    alloc: Global,
    words: &[String],
    reader: &mut R,
    writer: &mut W,
    faults: &mut F,
) -> u8
    requires reads { R.failed reader.old ≡ false }
    requires writes { W.failed writer.old ≡ false }
    requires reports { F.failed faults.old ≡ false }
    ensures runs { RunsBy (words_meant (map string_bytes words.now)) (streams
        (reads R.remaining R.failed reader.old reader.new)
        (writes W.contents W.failed writer.old writer.new)
        (writes F.contents F.failed faults.old faults.new)) result }
{
    match words {
        [help] if help.as_str() == "help" => {
            answer_words(alloc, &["--help"], reader, writer, faults)
        }
        [help, command] if help.as_str() == "help" => {
            answer_words(alloc, &[command.as_str(), "--help"], reader, writer, faults)
        }
        _ => answer_words(alloc, words, reader, writer, faults),
    }
}

/// Does what clap reads in the arguments.
fn answer_words<S: AsStr, R: Source, W: Sink, F: Sink>(
    alloc: Global,
    words: &[S],
    reader: &mut R,
    writer: &mut W,
    faults: &mut F,
) -> u8
    requires reads { R.failed reader.old ≡ false }
    requires writes { W.failed writer.old ≡ false }
    requires reports { F.failed faults.old ≡ false }
    ensures runs { RunsBy (map S.text words.now) (streams
        (reads R.remaining R.failed reader.old reader.new)
        (writes W.contents W.failed writer.old writer.new)
        (writes F.contents F.failed faults.old faults.new)) result }
{
    match matches_of(alloc, words) {
        Ok(matches) => act(alloc, &matches, reader, writer, faults),
        Err(error) => report(alloc, &error, writer, faults),
    }
}

/// What clap reads in the arguments.
fn matches_of<S: AsStr>(alloc: Global, words: &[S]) -> Result<ArgMatches<'_>, Error>
    ensures { MatchesBy (map S.text words.now) result }
{
    lexicat(alloc, SCHEMES.as_slice(), ERRORS.as_slice())?.try_get_matches_from(words)
}

/// The program and all its commands, in the order in which the help shows them.
fn lexicat<'a>(
    alloc: Global,
    schemes: &'a [&'a str],
    errors: &'a [&'a str],
) -> Result<Command<'a>, AllocError>
    ensures { IfOk result (λ c. app_of c ≡ lexicat_app schemes.entry errors.entry) }
{
    let sites = with_sites(alloc, bare(alloc)?)?;
    let labels = with_labels(alloc, sites)?;
    let questions = with_questions(alloc, labels, schemes)?;
    with_exchange(alloc, questions, errors)
}

/// The program without its commands.
fn bare<'a>(alloc: Global) -> Result<Command<'a>, AllocError>
    ensures { IfOk result (λ c. app_of c ≡ bare_app) }
{
    Command::new(alloc, "lexicat")
        .about(
            "Keeps labels in many languages at several sites, and picks the one that a reader \
                wants",
        )
        .after_help(
            "lexicat reads standard input and writes standard output. 'lexicat help COMMAND' has \
                an example of each command. The examples run one after another, in the order \
                above.\n\
                lexicat-file works on a file in place, and lexicat-edit opens its labels in your \
                editor. lexicat-po, lexicat-convert and lexicat-check are for other formats, and \
                lexicat-exchange is for a server.\n\
                'lexicat explain N' says what causes an error 'refused N: TEXT', and what to do.",
        )
        .version(VERSION)
        .no_binary_name(true)
        .subcommand_required(true)
        .disable_help_subcommand(true)
        .bin_name("lexicat")
}

/// Writes the help, the version or the usage.
fn report<W: Sink, F: Sink>(alloc: Global, error: &Error, writer: &mut W, faults: &mut F) -> u8
    requires writes { W.failed writer.old ≡ false }
    requires reports { F.failed faults.old ≡ false }
    ensures reports { ReportsBy (kind_of error.now)
        (writes W.contents W.failed writer.old writer.new)
        (writes F.contents F.failed faults.old faults.new) result }
{
    if error.kind() == ErrorKind::OutOfMemory {
        return refuse_for_memory(faults);
    }
    let Ok(text) = error.to_string(alloc) else {
        return refuse_for_memory(faults);
    };
    if error.use_stderr() {
        let _ = write_out(faults, text.as_bytes());
        status::USAGE
    } else {
        let _ = write_out(writer, text.as_bytes());
        status::ANSWERED
    }
}
