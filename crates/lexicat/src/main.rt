//! `lexicat`: labels in many languages on the command line.
#![tactic(auto)]

use command_core::{refuse_words, run};
use docs_core::{Input, Output};
use std::env::Env;
use std::process::ExitCode;
use std::{env, io};

fn main(rt: HostRuntime) -> ExitCode {
    let mut faults = Output::new(rt.stderr());
    let status = match words_of(&rt) {
        Ok(words) => run(
            rt.alloc(),
            words.as_slice(),
            &mut Input::new(rt.stdin()),
            &mut Output::new(rt.stdout()),
            &mut faults,
        ),
        Err(error) => refuse_words(&mut faults, &error),
    };
    ExitCode::from(status)
}

/// The arguments after the program's name.
fn words_of(rt: &(impl Env + AllocGlobal)) -> io::Result<Vec<String>> {
    let words = env::args(rt)?.skip(1).collect(rt.alloc())?;
    Ok(words)
}
