//! Readers and writers that fail.
use super::harness::{Tape, has_left, is_ended, run_over};
use super::texts::{EMPTY_ONE, SCRIPT, SCRIPT_LINES, SCRIPT_WRITTEN};
use std::alloc::{AllocError, Global};
use std::test::Fail;

/// Picks, and questions that the empty site has no answer to.
const WORDS: [&str; 7] = [
    "pick en en",
    "pick en fr",
    "filter --id m en",
    "lookup --id m en",
    "bundle en",
    "missing --lang en",
    "outdated --lang en --source de",
];

/// Whether a run whose output takes nothing ends with a write fault, which is printed where
/// there is room.
fn is_write_fault(alloc: Global, words: &str, room: usize) -> Result<bool, AllocError> {
    let ran = run_over(alloc, words, Tape::of(EMPTY_ONE), 0, room)?;
    let line = if room == 0 {
        ""
    } else {
        "refused 25: write fault\n"
    };
    Ok(has_left(&ran, 4, b"", line.as_bytes()))
}

/// Where an answer is not written, also the line that says that there is none, that is the fault,
/// and not status 1.
#[test]
fn failing_output(rt: HostRuntime) -> Result<(), Fail> {
    for words in WORDS {
        assert!(rt; is_write_fault(rt.alloc(), words, usize::MAX)?, "{words}");
        assert!(rt; is_write_fault(rt.alloc(), words, 0)?, "{words}");
    }
    Ok(())
}

/// Whether a run whose faults are not taken ends with this status and output.
fn is_left(alloc: Global, words: &str, status: u8, output: &str) -> Result<bool, AllocError> {
    let ran = run_over(alloc, words, Tape::of(""), usize::MAX, 0)?;
    Ok(has_left(&ran, status, output.as_bytes(), b""))
}

/// A faults writer that fails leaves the status, and the output, as they are.
#[test]
fn failing_faults(rt: HostRuntime) -> Result<(), Fail> {
    assert!(rt; is_left(rt.alloc(), "pick en en", 0, "matched en\n")?);
    assert!(rt; is_left(rt.alloc(), "pick en fr", 1, "nothing\n")?);
    assert!(rt; is_left(rt.alloc(), "pick en e", 3, "")?);
    assert!(rt; is_left(rt.alloc(), "pick en", 2, "")?);
    Ok(())
}

/// The status where nothing can be written.
fn status_of(alloc: Global, words: &str) -> Result<u8, AllocError> {
    let ran = run_over(alloc, words, Tape::of(""), 0, 0)?;
    Ok(ran.status)
}

/// A fault in writing help or usage leaves the status as it is.
#[test]
fn help_that_is_not_written(rt: HostRuntime) -> Result<(), Fail> {
    assert!(rt; status_of(rt.alloc(), "--help")? == 0);
    assert!(rt; status_of(rt.alloc(), "--version")? == 0);
    assert!(rt; status_of(rt.alloc(), "pick")? == 2);
    Ok(())
}

/// Whether a run on this input ends so.
fn ends(
    alloc: Global,
    words: &str,
    input: Tape<'_>,
    status: u8,
    lines: &str,
) -> Result<bool, AllocError> {
    let ran = run_over(alloc, words, input, usize::MAX, usize::MAX)?;
    Ok(is_ended(&ran, status, lines))
}

#[test]
fn blanks_without_an_end(rt: HostRuntime) -> Result<(), Fail> {
    let line = "refused 23: document is over 67108864 bytes";
    assert!(rt; ends(rt.alloc(), "status", Tape::endless(), 3, line)?);
    Ok(())
}

/// A reader of single bytes that fails at any of its reads, the one that would find the end among
/// them.
#[test]
fn readers_that_fail(rt: HostRuntime) -> Result<(), Fail> {
    let script = r#"{"kind":"script","sites":1,"steps":[["cells",0]],"version":2}"#;
    for (word, text) in [("replay", script), ("status", EMPTY_ONE)] {
        for at in 0..text.len() + 1 {
            let input = Tape::failing(text, 1, at);
            let is = ends(rt.alloc(), word, input, 4, "refused 24: read fault")?;
            assert!(rt; is, "{word} {at}");
        }
    }
    Ok(())
}

/// A script by pieces of 16 bytes, of which the second fails, and byte by byte.
#[test]
fn pieces_of_a_script(rt: HostRuntime) -> Result<(), Fail> {
    let input = Tape::failing(SCRIPT, 16, 1);
    assert!(rt; ends(rt.alloc(), "replay", input, 4, "refused 24: read fault")?);
    let input = Tape::failing(SCRIPT, 1, usize::MAX);
    assert!(rt; ends(rt.alloc(), "replay", input, 0, SCRIPT_LINES)?);
    Ok(())
}

/// Whether a line is refused with as much of its fault line as there is room for.
fn is_refused_in(alloc: Global, words: &str, line: &[u8], room: usize) -> Result<bool, AllocError> {
    let ran = run_over(alloc, words, Tape::of(""), usize::MAX, room)?;
    Ok(has_left(&ran, 3, b"", line))
}

/// A faults writer that fails within the line leaves the status as it is.
#[test]
fn faults_that_fail_at_every_byte(rt: HostRuntime) -> Result<(), Fail> {
    for (words, line) in [
        ("new --site Paris", "refused 27: site name\n"),
        ("status", "refused 19: not JSON of document 1\n"),
    ] {
        for room in 0..line.len() {
            let is = is_refused_in(rt.alloc(), words, &line.as_bytes()[..room], room)?;
            assert!(rt; is, "{line} {room}");
        }
    }
    Ok(())
}

/// Whether a run of the script writes these lines to a writer of so many bytes, and fails.
fn is_written_in(alloc: Global, lines: &[u8], room: usize) -> Result<bool, AllocError> {
    let ran = run_over(alloc, "replay", Tape::of(SCRIPT), room, 0)?;
    Ok(has_left(&ran, 4, lines, b""))
}

/// A writer that fails at its n-th byte took just the bytes before.
#[test]
fn writer_that_fails_at_every_byte(rt: HostRuntime) -> Result<(), Fail> {
    let lines = SCRIPT_WRITTEN.as_bytes();
    for room in 0..lines.len() {
        assert!(rt; is_written_in(rt.alloc(), &lines[..room], room)?, "{room}");
    }
    Ok(())
}
