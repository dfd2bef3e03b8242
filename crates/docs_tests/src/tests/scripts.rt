//! Scripts that are made of steps, and not read.

use cata_core::{Edit, Step, play};
use cell_core::{Cell, MessageId, SiteName, Stamp};
use docs_core::{Doc, Script, answer_lines};
use lang_core::Lang;
use std::alloc::Global;
use std::test::Fail;

fn edit(alloc: Global) -> Result<Edit, Fail> {
    let stamp = Stamp {
        time: 5,
        site: SiteName::new("paris")?,
        count: 0,
    };
    let id = MessageId::new(alloc, "m")?;
    let lang = Lang::parse(alloc, b"en")?;
    Ok(Edit::new(id, lang, Cell::new(stamp, None)))
}

/// A deletion at the first of two sites, a merge into the second, and a question there.
fn script(alloc: Global) -> Result<Script, Fail> {
    let edit = edit(alloc)?;
    let first = Step::Edit { site: 0, edit };
    let second = Step::Merge { into: 1, source: 0 };
    let third = Step::AskCells { site: 1 };
    let steps = Vec::from_array(alloc, [first, second, third])?;
    Ok(Script::new(2, steps))
}

fn lines(alloc: Global) -> Result<Doc, Fail> {
    let script = script(alloc)?;
    let answers = play(alloc, script.sites(), script.steps())?;
    Ok(answer_lines(alloc, &answers)?)
}

/// A script that is made of steps runs as one that was read.
#[test]
fn a_script_of_steps(rt: HostRuntime) -> Result<(), Fail> {
    let lines = lines(rt.alloc())?;
    assert!(rt; lines.bytes() == b"cells 1\n[\"m\",\"en\",5,\"paris\",0,null]\n".as_slice());
    Ok(())
}

#[test]
fn the_most_sites_and_no_step(rt: HostRuntime) {
    let script = Script::new(1024, Vec::new(rt.alloc()));
    let is_so = script.sites() == 1024 && script.steps().is_empty();
    assert!(rt; is_so);
}
