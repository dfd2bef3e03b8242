//! The commands, in the order in which the help shows them.
ghost use Rattle.std.specs.Prelude.{◌≡◌, IfOk};
ghost use Rattle.clap.specs.Words.{app_of};
ghost use Rattle.command_core.specs.ArgumentsWords.{bundle_app, delete_app, exchange_app};
ghost use Rattle.command_core.specs.ArgumentsWords.{explain_app, filter_app, import_app};
ghost use Rattle.command_core.specs.ArgumentsWords.{labels_app, lookup_app, merge_app, missing_app};
ghost use Rattle.command_core.specs.ArgumentsWords.{new_site_app, outdated_app, pick_app, put_app};
ghost use Rattle.command_core.specs.ArgumentsWords.{questions_app, sites_app, summary_app};
ghost use Rattle.command_core.specs.ArgumentsWords.{sync_app, take_app, update_app};
ghost use Rattle.command_core.specs.inner.ArgumentsWords.{IsCommand};

use crate::arguments::{self, described, reading, with_command};
use clap::Command;
use std::alloc::{AllocError, Global};

/// The program with the commands of one site.
pub(crate) fn with_sites<'a>(alloc: Global, program: Command<'a>) -> Result<Command<'a>, AllocError>
    ensures { IfOk result (λ c. app_of c ≡ sites_app (app_of program.entry)) }
{
    let program = with_command(Ok(program), new(alloc));
    let program = with_command(program, put(alloc));
    let program = with_command(program, delete(alloc));
    let status = reading(
        alloc,
        "status",
        "lexicat status < SITE",
        "Prints how many cells and labels a site has, and its last timestamp",
        "Reads a site document.\nExample: lexicat status < two.json",
    );
    with_command(program, Ok(status))
}

/// The program with the commands by which editors and translators take language maps from a site
/// and pass them back.
pub(crate) fn with_labels<'a>(
    alloc: Global,
    program: Command<'a>,
) -> Result<Command<'a>, AllocError>
    ensures { IfOk result (λ c. app_of c ≡ labels_app (app_of program.entry)) }
{
    let program = with_command(Ok(program), import(alloc));
    let program = with_command(program, update(alloc));
    let export = reading(
        alloc,
        "export",
        "lexicat export < SITE",
        "Prints the labels of a site as language maps",
        "Reads a site document.\nExample: lexicat export < three.json",
    );
    let program = with_command(program, Ok(export));
    let program = with_command(program, missing(alloc));
    let program = with_command(program, outdated(alloc));
    let changes = reading(
        alloc,
        "changes",
        "cat SITE LATER | lexicat changes",
        "Prints how the cells of two sites differ, such as one before and after an update",
        "Reads a site document as it was, then one as it is now. Prints 'changes N' and a line \
            [ID,LANGUAGE,BEFORE,AFTER] for each cell that differs, with null for a site that has \
            no such cell.\n\
            Document 1 of the input ends at the first LF, and all after it is document 2.\n\
            Example: cat three.json four.json | lexicat changes",
    );
    let program = with_command(program, Ok(changes));
    let labels = reading(
        alloc,
        "labels",
        "lexicat labels < SITE",
        "Prints how many labels each language of a site has",
        "Reads a site document. Prints 'labels N' and a line LANGUAGE COUNT for each of the N \
            languages that have labels, @none first.\n\
            Example: lexicat labels < three.json",
    );
    with_command(program, Ok(labels))
}

/// The program with the questions of a reader: `pick`, which needs no site, and those to a site.
pub(crate) fn with_questions<'a>(
    alloc: Global,
    program: Command<'a>,
    schemes: &'a [&'a str],
) -> Result<Command<'a>, AllocError>
    ensures { IfOk result (λ c. app_of c ≡ questions_app (app_of program.entry) schemes.entry) }
{
    let program = with_command(Ok(program), pick(alloc, schemes));
    let program = with_command(program, filter(alloc, schemes));
    let program = with_command(program, lookup(alloc, schemes));
    with_command(program, bundle(alloc, schemes))
}

/// The program with the commands by which sites exchange their cells, `replay`, which runs a script
/// of them, and `explain`, which says what an error means.
pub(crate) fn with_exchange<'a>(
    alloc: Global,
    program: Command<'a>,
    errors: &'a [&'a str],
) -> Result<Command<'a>, AllocError>
    ensures { IfOk result (λ c. app_of c ≡ exchange_app (app_of program.entry) errors.entry) }
{
    let program = with_command(Ok(program), summary(alloc));
    let delta = reading(
        alloc,
        "delta",
        "cat SITE SUMMARY | lexicat delta",
        "Prints the cells of a site that the owner of a summary lacks",
        "Reads a site document, then a summary.\n\
            Document 1 of the input ends at the first LF, and all after it is document 2.\n\
            Example: cat three.json summary.json | lexicat delta > delta.json",
    );
    let program = with_command(program, Ok(delta));
    let program = with_command(program, take(alloc));
    let program = with_command(program, sync(alloc));
    let program = with_command(program, merge(alloc));
    let replay = reading(
        alloc,
        "replay",
        "lexicat replay < SCRIPT",
        "Runs a script of sites from their beginning, and prints the answers",
        "Reads a script document.\n\
            Example: echo \
            '{\"kind\":\"script\",\"sites\":1,\"steps\":[[\"cells\",0]],\"version\":2}' | lexicat \
            replay",
    );
    let program = with_command(program, Ok(replay));
    with_command(program, explain(alloc, errors))
}

/// `new --site NAME`
fn new<'a>(alloc: Global) -> Result<Command<'a>, AllocError>
    ensures { IfOk result (IsCommand new_site_app) }
{
    described(
        alloc,
        "new",
        "Prints the document of a new, empty site",
        "The name 1 makes a new site, and not the old site 1, whose name is 0000000001.\n\
            Example: lexicat new --site paris > paris.json",
    )
    .arg(arguments::site(alloc))
}

/// `put --now N --id ID --lang LANG TEXT..`
fn put<'a>(alloc: Global) -> Result<Command<'a>, AllocError>
    ensures { IfOk result (IsCommand put_app) }
{
    let command = reading(
        alloc,
        "put",
        "lexicat put --now <N> --id <ID> --lang <LANG> <TEXT>... < SITE",
        "Puts a label into a site, under a new timestamp",
        "Reads a site document and prints the new one. Write -- before a TEXT that begins with \
            \"-\".\n\
            Example: lexicat put --now 5 --id greeting --lang en Hello < paris.json > one.json",
    );
    arguments::with_edit(alloc, command)?.arg(arguments::words(
        alloc,
        "texts",
        "TEXT",
        "The texts of the label, 1 to 64",
    ))
}

/// `delete --now N --id ID --lang LANG`
fn delete<'a>(alloc: Global) -> Result<Command<'a>, AllocError>
    ensures { IfOk result (IsCommand delete_app) }
{
    let command = reading(
        alloc,
        "delete",
        "lexicat delete --now <N> --id <ID> --lang <LANG> < SITE",
        "Deletes a label of a site, under a new timestamp",
        "Reads a site document and prints the new one. The cell is kept as a tombstone, so that \
            no older label comes back.\n\
            Example: lexicat delete --now 6 --id greeting --lang en < one.json > two.json",
    );
    arguments::with_edit(alloc, command)
}

/// `import --now N`
fn import<'a>(alloc: Global) -> Result<Command<'a>, AllocError>
    ensures { IfOk result (IsCommand import_app) }
{
    reading(
        alloc,
        "import",
        "cat SITE MAPS | lexicat import --now <N>",
        "Puts the labels of language maps into a site, each under a new timestamp",
        "Reads a site document, then language maps, and prints the new site.\n\
            Document 1 of the input ends at the first LF, and all after it is document 2.\n\
            Example: (cat one.json; echo '{\"greeting\":{\"fr\":\"Bonjour\"}}') | lexicat import \
            --now 7 > three.json",
    )
    .arg(arguments::now(alloc))
}

/// `update --now N`
fn update<'a>(alloc: Global) -> Result<Command<'a>, AllocError>
    ensures { IfOk result (IsCommand update_app) }
{
    reading(
        alloc,
        "update",
        "cat SITE OLD NEW | lexicat update --now <N>",
        "Applies what an editor changed in language maps, and nothing else",
        "Reads a site document, then language maps as they were before the editor worked on them, \
            then as they are now, and prints the new site. A label that the new maps leave out is \
            deleted. If an id is written twice, only the last counts.\n\
            Documents 1 and 2 of the input end at the first and the second LF, and all after that \
            is document 3.\n\
            Example: (cat three.json; echo '{\"greeting\":{\"fr\":\"Bonjour\"}}'; echo \
            '{\"greeting\":{\"fr\":\"Salut\"}}') | lexicat update --now 8 > four.json",
    )
    .arg(arguments::now(alloc))
}

/// `missing --lang LANG`
fn missing<'a>(alloc: Global) -> Result<Command<'a>, AllocError>
    ensures { IfOk result (IsCommand missing_app) }
{
    reading(
        alloc,
        "missing",
        "lexicat missing --lang <LANG> < SITE",
        "Prints the messages that have labels, but none in LANG itself, as language maps",
        "Reads a site document. A deleted label is missing too, and fr-ca does not count as fr. A \
            translator adds the members that are missing; update puts them into the site.\n\
            Example: lexicat missing --lang de < three.json",
    )
    .arg(arguments::lang(alloc))
}

/// `outdated --lang LANG --source LANG`
fn outdated<'a>(alloc: Global) -> Result<Command<'a>, AllocError>
    ensures { IfOk result (IsCommand outdated_app) }
{
    reading(
        alloc,
        "outdated",
        "lexicat outdated --lang <LANG> --source <LANG> < SITE",
        "Prints the messages whose label in one language is older than that in another, as \
            language maps",
        "Reads a site document. Only the times of the two cells are compared. A message counts if \
            it has a label in both of these very languages.\n\
            Example: lexicat outdated --lang en --source fr < three.json",
    )
    .arg(arguments::lang(alloc))?
    .arg(arguments::source(alloc))
}

/// `pick [--scheme SCHEME] [--lenient] [--widen] [--fallbacks TABLE] [--default LANG] [--all]
/// RANGES TAG..`
fn pick<'a>(alloc: Global, schemes: &'a [&'a str]) -> Result<Command<'a>, AllocError>
    ensures { IfOk result (IsCommand (pick_app schemes.entry)) }
{
    let command = described(
        alloc,
        "pick",
        "Prints the first language that fits the ranges, or the default, or nothing",
        "Example: lexicat pick \"da, en-GB;q=0.8, en;q=0.7\" en fr",
    );
    arguments::with_preferences(alloc, command, schemes, "ranges", "RANGES")?
        .arg(arguments::all(alloc))?
        .arg(arguments::words(alloc, "tags", "TAG", "The languages to pick from"))
}

/// `filter --id ID [--offer FIELD] [--scheme SCHEME] [--lenient] FIELD`
fn filter<'a>(alloc: Global, schemes: &'a [&'a str]) -> Result<Command<'a>, AllocError>
    ensures { IfOk result (IsCommand (filter_app schemes.entry)) }
{
    reading(
        alloc,
        "filter",
        "lexicat filter [OPTIONS] --id <ID> <FIELD> < SITE",
        "Prints the labels of a message whose languages fit, best first",
        "Reads a site document.\n\
            Example: lexicat filter --id greeting \"fr;q=0.5, en\" < three.json",
    )
    .arg(arguments::id(alloc))?
    .arg(arguments::offer(alloc))?
    .arg(arguments::scheme(alloc, schemes))?
    .arg(arguments::lenient(alloc))?
    .arg(arguments::field(alloc, "field", "FIELD"))
}

/// `lookup --id ID [--offer FIELD] [--scheme SCHEME] [--lenient] [--widen] [--fallbacks TABLE]
/// [--default LANG] FIELD`
fn lookup<'a>(alloc: Global, schemes: &'a [&'a str]) -> Result<Command<'a>, AllocError>
    ensures { IfOk result (IsCommand (lookup_app schemes.entry)) }
{
    let command = reading(
        alloc,
        "lookup",
        "lexicat lookup [OPTIONS] --id <ID> <FIELD> < SITE",
        "Prints the one label of a message that fits best, or the default's, or nothing",
        "Reads a site document.\n\
            Example: lexicat lookup --id greeting --default en \"da, fr;q=0.5\" < three.json",
    )
    .arg(arguments::id(alloc))?
    .arg(arguments::offer(alloc))?;
    arguments::with_preferences(alloc, command, schemes, "field", "FIELD")
}

/// `bundle [--offer FIELD] [--scheme SCHEME] [--lenient] [--widen] [--fallbacks TABLE]
/// [--default LANG] FIELD`
fn bundle<'a>(alloc: Global, schemes: &'a [&'a str]) -> Result<Command<'a>, AllocError>
    ensures { IfOk result (IsCommand (bundle_app schemes.entry)) }
{
    let command = reading(
        alloc,
        "bundle",
        "lexicat bundle [OPTIONS] <FIELD> < SITE",
        "Prints for each message the one label that a reader gets, as language maps",
        "Reads a site document. The label is the answer of lookup. A message for which lookup \
            answers nothing is left out.\n\
            Example: lexicat bundle --default en \"fr-CA, de;q=0.5\" < three.json",
    )
    .arg(arguments::offer(alloc))?;
    arguments::with_preferences(alloc, command, schemes, "field", "FIELD")
}

/// `summary [--labels]`
fn summary<'a>(alloc: Global) -> Result<Command<'a>, AllocError>
    ensures { IfOk result (IsCommand summary_app) }
{
    reading(
        alloc,
        "summary",
        "lexicat summary [--labels] < SITE",
        "Prints the timestamps of a site's cells, from which another site finds what this one \
            lacks",
        "Reads a site document. With --labels it prints a digest of each label too. The delta for \
            such a summary also has each cell whose label differs under the same timestamp, so \
            that take reports a duplicate timestamp as merge does.\n\
            Example: lexicat new --site tokyo | lexicat summary > summary.json",
    )
    .arg(arguments::labels(alloc))
}

/// `take [--not-after N] [--check-own]`
fn take<'a>(alloc: Global) -> Result<Command<'a>, AllocError>
    ensures { IfOk result (IsCommand take_app) }
{
    let command = reading(
        alloc,
        "take",
        "cat SITE DELTA | lexicat take [OPTIONS]",
        "Applies a delta to the site that it is for",
        "Reads a site document, then a delta. With --not-after a delta with a later time is \
            refused as a whole; the site's own times do not count. With --check-own a delta is \
            refused if it has an edit that the site made and lacks.\n\
            Document 1 of the input ends at the first LF, and all after it is document 2.\n\
            Example: (lexicat new --site tokyo; cat delta.json) | lexicat take > tokyo.json",
    );
    arguments::with_checks(alloc, command)
}

/// `sync [--not-after N] [--check-own]`
fn sync<'a>(alloc: Global) -> Result<Command<'a>, AllocError>
    ensures { IfOk result (IsCommand sync_app) }
{
    let command = reading(
        alloc,
        "sync",
        "cat SITE OTHER | lexicat sync [OPTIONS]",
        "Merges two sites with one another, so that both have the same cells",
        "Reads two site documents and prints both, one line each, in the order read. With \
            --not-after both are refused if either has a later time. With --check-own both are \
            refused if either has an edit that the other made and lacks.\n\
            Document 1 of the input ends at the first LF, and all after it is document 2.\n\
            Example: cat three.json tokyo.json | lexicat sync > both.json",
    );
    arguments::with_checks(alloc, command)
}

/// `merge [--not-after N] [--check-own]`
fn merge<'a>(alloc: Global) -> Result<Command<'a>, AllocError>
    ensures { IfOk result (IsCommand merge_app) }
{
    let command = reading(
        alloc,
        "merge",
        "cat SITE OTHER.. | lexicat merge [OPTIONS]",
        "Merges any number of sites into the first of them",
        "Reads one site document or more, each on one line. Prints the first after the cells of \
            the others were applied to it, in their order. With --not-after all are refused if any \
            but the first has a later time. With --check-own all are refused if any but the first \
            has an edit that the first made and lacks.\n\
            Document 1 is the first line of the input, document 2 the second, and so on; a LF at \
            the end begins no further one.\n\
            Example: cat three.json both.json | lexicat merge > merged.json",
    );
    arguments::with_checks(alloc, command)
}

/// `explain ERROR`
fn explain<'a>(alloc: Global, errors: &'a [&'a str]) -> Result<Command<'a>, AllocError>
    ensures { IfOk result (IsCommand (explain_app errors.entry)) }
{
    described(
        alloc,
        "explain",
        "Prints what an error means, what causes it, and what to do",
        "An error is a line 'refused N: TEXT'. ERROR is its N, or its word. Standard input is not \
            read.\n\
            Example: lexicat explain 21",
    )
    .arg(arguments::error(alloc, errors))
}
