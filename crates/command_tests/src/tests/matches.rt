//! Matches that are not those of the program.
use super::harness::{Page, Tape};
use clap::{Arg, ArgMatches, Command};
use command_core::act;
use docs_core::{Input, Output};
use std::alloc::Global;
use std::test::Fail;

/// A program with a command `put`, which has this one argument, if any.
fn program<'a>(alloc: Global, id: Option<&'a str>) -> Result<Command<'a>, Fail> {
    let mut command = Command::new(alloc, "put");
    if let Some(id) = id {
        command = command.arg(Arg::new(alloc, id))?;
    }
    Ok(
        Command::new(alloc, "other")
            .no_binary_name(true)
            .subcommand(command)?
            .subcommand(Command::new(alloc, "pick"))?
            .subcommand(Command::new(alloc, "other"))?,
    )
}

const USAGE: &str =
    "error: no command takes these arguments together\n\nFor more information, try '--help'.\n";

/// The status of these matches, or 98 where the output has something, or another line was printed.
fn status_of(alloc: Global, matches: &ArgMatches<'_>) -> u8 {
    let mut reader = Tape::failing("", 0, 0);
    let mut writer = Page::new(alloc);
    let mut faults = Page::new(alloc);
    let status = act(
        alloc,
        matches,
        &mut Input::new(&mut reader),
        &mut Output::new(&mut writer),
        &mut Output::new(&mut faults),
    );
    if writer.bytes.is_empty() && faults.bytes.as_slice() == USAGE.as_bytes() {
        status
    } else {
        98
    }
}

/// The status of these words under that program, or 99 where they are none of its words.
fn status_on(alloc: Global, words: &[&str], id: Option<&str>) -> Result<u8, Fail> {
    match program(alloc, id)?.try_get_matches_from(words) {
        Ok(matches) => Ok(status_of(alloc, &matches)),
        Err(_) => Ok(99),
    }
}

/// Words, and the argument of `put`: without a command, with another one, and without a required
/// word.
const WORDS: &[(&[&str], Option<&str>)] = &[
    (&[], None),
    (&["other"], None),
    (&["put"], None),
    (&["put", "5"], Some("now")),
    (&["put", "five"], Some("now")),
    (&["pick"], None),
];

/// A usage fault, which is printed, and nothing is written to the output.
#[test]
fn usage(rt: HostRuntime) -> Result<(), Fail> {
    for (words, id) in WORDS {
        assert!(rt; status_on(rt.alloc(), words, *id)? == 2);
    }
    Ok(())
}
