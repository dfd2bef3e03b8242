//! What commands are made of: what the help says of them, and their arguments, each with its rule.
ghost use Rattle.std.specs.Prelude.{◌≡◌, false, codes, IfOk};
ghost use Rattle.clap.specs.Words.{app_of, new_app};
ghost use Rattle.clap.specs.declared.builder.command.Command.TheViews.{out-Command};
ghost use Rattle.command_core.specs.ArgumentsWords.{default_rule, checks_app, edit_app};
ghost use Rattle.command_core.specs.ArgumentsWords.{fallbacks_rule, field_rule, flag_rule, id_rule};
ghost use Rattle.command_core.specs.ArgumentsWords.{lang_rule, error_rule, not_after_rule};
ghost use Rattle.command_core.specs.ArgumentsWords.{now_rule, preferences_app, offer_rule};
ghost use Rattle.command_core.specs.ArgumentsWords.{required_rule, scheme_rule, site_rule};
ghost use Rattle.command_core.specs.ArgumentsWords.{source_rule, words_rule};
ghost use Rattle.command_core.specs.inner.ArgumentsWords.{IsArgument, IsCommand, Joins};

use clap::{Arg, ArgAction, Command, value_parser};
use std::alloc::{AllocError, Global};

/// The program with one more command under it, where there was memory for both.
pub(crate) fn with_command<'a>(
    program: Result<Command<'a>, AllocError>,
    command: Result<Command<'a>, AllocError>,
) -> Result<Command<'a>, AllocError>
    ensures { IfOk result (Joins program.entry command.entry) }
{
    program?.subcommand(command?)
}

/// A command of this name without arguments: what the program's help says of it, and what its own
/// help ends with.
pub(crate) fn described<'a>(
    alloc: Global,
    name: &'a str,
    about: &'a str,
    after_help: &'a str,
) -> Command<'a>
    ensures { IsCommand (new_app name.entry.now) result }
{
    Command::new(alloc, name)
        .about(about)
        .after_help(after_help)
}

/// The same of a command that reads documents, with a usage line that shows them. (Of its own clap
/// would leave out standard input.)
pub(crate) fn reading<'a>(
    alloc: Global,
    name: &'a str,
    usage: &'a str,
    about: &'a str,
    after_help: &'a str,
) -> Command<'a>
    ensures { IsCommand (new_app name.entry.now) result }
{
    described(alloc, name, about, after_help).override_usage(usage)
}

/// `--scheme`, the name of one of the schemes.
pub(crate) fn scheme<'a>(alloc: Global, schemes: &'a [&'a str]) -> Arg<'a>
    ensures { IsArgument (scheme_rule schemes.entry) result }
{
    Arg::new(alloc, "scheme")
        .long("scheme")
        .value_name("SCHEME")
        .help("How the ranges are read: with weights (basic), or with * anywhere (extended)")
        .value_parser(schemes)
}

/// `--lenient`, which takes no value.
pub(crate) fn lenient<'a>(alloc: Global) -> Arg<'a>
    ensures { IsArgument (flag_rule (codes "lenient")) result }
{
    flag(
        alloc,
        "lenient",
        "Skip malformed elements of the ranges, even one that would exclude a language, such as \
            de;q=0.0000",
    )
}

/// `--widen`, which takes no value.
pub(crate) fn widen<'a>(alloc: Global) -> Arg<'a>
    ensures { IsArgument (flag_rule (codes "widen")) result }
{
    flag(
        alloc,
        "widen",
        "Let a range also find longer tags that it matches, as en finds en-us; RFC 4647 has no \
            such lookup",
    )
}

/// `--fallbacks`, the table of fallbacks by which a lookup goes.
pub(crate) fn fallbacks<'a>(alloc: Global) -> Arg<'a>
    ensures { IsArgument fallbacks_rule result }
{
    Arg::new(alloc, "fallbacks")
        .long("fallbacks")
        .value_name("TABLE")
        .help(
            "What lookup tries for a tag before it truncates the tag, such as \"zh-TW=zh-Hant, \
                no=nb\"; RFC 4647 has no such table",
        )
}

/// `--all`, which takes no value.
pub(crate) fn all<'a>(alloc: Global) -> Arg<'a>
    ensures { IsArgument (flag_rule (codes "all")) result }
{
    flag(
        alloc,
        "all",
        "Print all tags that fit with their weights, best first; cannot be combined with \
            --default, --widen or --fallbacks",
    )
}

/// `--offer`, the languages that readers are offered.
pub(crate) fn offer<'a>(alloc: Global) -> Arg<'a>
    ensures { IsArgument offer_rule result }
{
    Arg::new(alloc, "offer")
        .long("offer")
        .value_name("FIELD")
        .help(
            "The languages that are offered to readers, as an Accept-Language field; all by \
                default. \"*, x;q=0\" offers all but those of private use",
        )
}

/// `--now`, the moment of an edit.
pub(crate) fn now<'a>(alloc: Global) -> Arg<'a>
    ensures { IsArgument now_rule result }
{
    Arg::new(alloc, "now")
        .long("now")
        .value_name("N")
        .help("The time of the edit, a whole number, usually of milliseconds since 1970")
        .required(true)
        .value_parser(value_parser!(u64))
}

/// `--not-after`, the latest time that is taken.
pub(crate) fn not_after<'a>(alloc: Global) -> Arg<'a>
    ensures { IsArgument not_after_rule result }
{
    Arg::new(alloc, "not-after")
        .long("not-after")
        .value_name("N")
        .help("Refuse incoming documents with a later time than N, a whole number")
        .value_parser(value_parser!(u64))
}

/// `--check-own`, which takes no value.
pub(crate) fn check_own<'a>(alloc: Global) -> Arg<'a>
    ensures { IsArgument (flag_rule (codes "check-own")) result }
{
    flag(
        alloc,
        "check-own",
        "Refuse incoming documents with an edit that the site made itself and lacks: the site was \
            put back to an older copy, or another site has its name",
    )
}

/// `--labels`, which takes no value.
pub(crate) fn labels<'a>(alloc: Global) -> Arg<'a>
    ensures { IsArgument (flag_rule (codes "labels")) result }
{
    flag(
        alloc,
        "labels",
        "Add a digest of each label, so that the delta also has labels that differ under one \
            timestamp",
    )
}

/// An error, by its number or its word.
pub(crate) fn error<'a>(alloc: Global, names: &'a [&'a str]) -> Arg<'a>
    ensures { IsArgument (error_rule names.entry) result }
{
    Arg::new(alloc, "error")
        .value_name("ERROR")
        .help("The number of an error, or its word")
        .required(true)
        .value_parser(names)
}

/// `--site`, the name of a site.
pub(crate) fn site<'a>(alloc: Global) -> Arg<'a>
    ensures { IsArgument site_rule result }
{
    required(
        alloc,
        "site",
        "NAME",
        "The site's name: 1 to 16 of a to z, 0 to 9 and \"-\"",
    )
}

/// `--id`, the id of a message.
pub(crate) fn id<'a>(alloc: Global) -> Arg<'a>
    ensures { IsArgument id_rule result }
{
    required(
        alloc,
        "id",
        "ID",
        "The message: 1 to 128 bytes, with no control character and no \"@\" first",
    )
}

/// `--lang`, the language of a label.
pub(crate) fn lang<'a>(alloc: Global) -> Arg<'a>
    ensures { IsArgument lang_rule result }
{
    required(alloc, "lang", "LANG", "A language tag, or @none")
}

/// `--source`, the language that a label was translated from.
pub(crate) fn source<'a>(alloc: Global) -> Arg<'a>
    ensures { IsArgument source_rule result }
{
    required(
        alloc,
        "source",
        "LANG",
        "The language that the labels were translated from, or @none",
    )
}

/// The command with what a reader prefers: how the ranges are read and what they find, the default,
/// and the ranges by this name.
pub(crate) fn with_preferences<'a>(
    alloc: Global,
    command: Command<'a>,
    schemes: &'a [&'a str],
    name: &'a str,
    value: &'a str,
) -> Result<Command<'a>, AllocError>
    requires { (out-Command command).has_globals ≡ false }
    ensures { IfOk result
        (IsCommand (preferences_app (app_of command.entry) schemes.entry name.entry.now)) }
{
    command
        .arg(scheme(alloc, schemes))?
        .arg(lenient(alloc))?
        .arg(widen(alloc))?
        .arg(fallbacks(alloc))?
        .arg(default(alloc))?
        .arg(field(alloc, name, value))
}

/// The command with what an edit of one label needs: its moment, and the label's id and language.
pub(crate) fn with_edit<'a>(alloc: Global, command: Command<'a>) -> Result<Command<'a>, AllocError>
    requires { (out-Command command).has_globals ≡ false }
    ensures { IfOk result (IsCommand (edit_app (app_of command.entry))) }
{
    command.arg(now(alloc))?.arg(id(alloc))?.arg(lang(alloc))
}

/// The command with what an exchange tests: the latest time, and edits of the site's own.
pub(crate) fn with_checks<'a>(
    alloc: Global,
    command: Command<'a>,
) -> Result<Command<'a>, AllocError>
    requires { (out-Command command).has_globals ≡ false }
    ensures { IfOk result (IsCommand (checks_app (app_of command.entry))) }
{
    command.arg(not_after(alloc))?.arg(check_own(alloc))
}

/// A priority list of language ranges, by this name.
pub(crate) fn field<'a>(alloc: Global, name: &'a str, value: &'a str) -> Arg<'a>
    ensures { IsArgument (field_rule name.entry.now) result }
{
    Arg::new(alloc, name)
        .value_name(value)
        .help("Language ranges with commas between them, as in Accept-Language")
        .required(true)
}

/// One argument or more, by this name.
pub(crate) fn words<'a>(alloc: Global, name: &'a str, value: &'a str, help: &'a str) -> Arg<'a>
    ensures { IsArgument (words_rule name.entry.now) result }
{
    Arg::new(alloc, name)
        .value_name(value)
        .help(help)
        .required(true)
        .num_args(1..)
        .action(ArgAction::Append)
}

/// `--default`, the language that a lookup or a pick falls back to.
fn default<'a>(alloc: Global) -> Arg<'a>
    ensures { IsArgument default_rule result }
{
    Arg::new(alloc, "default")
        .long("default")
        .value_name("LANG")
        .help(
            "The language to answer if nothing matches, provided it is available and the ranges \
                do not exclude it",
        )
}

/// An option that takes no value.
fn flag<'a>(alloc: Global, name: &'a str, help: &'a str) -> Arg<'a>
    ensures { IsArgument (flag_rule name.entry.now) result }
{
    Arg::new(alloc, name)
        .long(name)
        .help(help)
        .action(ArgAction::SetTrue)
}

/// An option that must be given, with a value.
fn required<'a>(alloc: Global, name: &'a str, value: &'a str, help: &'a str) -> Arg<'a>
    ensures { IsArgument (required_rule name.entry.now) result }
{
    Arg::new(alloc, name)
        .long(name)
        .value_name(value)
        .help(help)
        .required(true)
}
