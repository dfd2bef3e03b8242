//! Scripts as they are written, and steps that no document can have.

use super::answers::is_line;
use cata_core::Step;
use cell_core::MessageId;
use docs_core::{Doc, DocCause, DocFault, Script, Spot, read_script, write_script};
use nego_core::{Malformed, PriorityList, Scheme};
use std::alloc::Global;
use std::test::Fail;

/// Each kind of step.
const STEPS: &str = concat!(
    r#"{"kind":"script","sites":2,"steps":[["edit",0,["m","en",5,"paris",0,["one","two"]]],"#,
    r#"["edit",1,["m","@none",18446744073709551615,"rome",4294967295,null]],["merge",0,1],"#,
    r#"["filter",0,"m","basic","de-ch,en;q=0.5,*;q=0"],["filter",0,"m","extended","de-*-ch,*"],"#,
    r#"["lookup",0,"m","en-gb","fr"],["lookup",1,"m","",null],["lookup",1,"m","*","@none"],"#,
    r#"["cells",1],["tell",1],["post",0,0],["deliver",0]],"version":2}"#
);

const WEIGHTS: &str = concat!(
    r#"{ "version" : 2, "steps" : [["lookup",4294967295,"m"," , EN ; Q=1.000,fr;q=0.900,"#,
    r#"\tde;q=0.120,it;q=0.123,nl;q=0.010,da;q=0.001,sv;q=0. , ",null]],"#,
    r#" "sites" : 1, "kind" : "script" }"#
);

const WEIGHTS_AGAIN: &str = concat!(
    r#"{"kind":"script","sites":1,"steps":[["lookup",4294967295,"m","en,fr;q=0.9,de;q=0.12,"#,
    r#"it;q=0.123,nl;q=0.01,da;q=0.001,sv;q=0",null]],"version":2}"#
);

const TWO_SITES: &str = concat!(
    r#"{"kind":"script","sites":2,"steps":[["edit",0,["m","en",5,1,0,["one"]]],["merge",0,1],"#,
    r#"["lookup",0,"m","en-GB",null]],"version":1}"#
);

const TWO_SITES_AGAIN: &str = concat!(
    r#"{"kind":"script","sites":2,"steps":[["edit",0,["m","en",5,"0000000001",0,["one"]]],"#,
    r#"["merge",0,1],["lookup",0,"m","en-gb",null]],"version":2}"#
);

fn rewritten(alloc: Global, text: &str) -> Result<Doc, DocFault> {
    let script = read_script(alloc, text.as_bytes())?;
    write_script(alloc, &script)
}

const NO_STEP: &str = r#"{"kind":"script","sites":1024,"steps":[],"version":2}"#;

/// Texts, and what is written of what is read of them: of each kind of step, without zeros at the
/// end of a weight, of version 1, and of no step.
const REWRITTEN: [(&str, &str); 5] = [
    (STEPS, STEPS),
    (WEIGHTS, WEIGHTS_AGAIN),
    (WEIGHTS_AGAIN, WEIGHTS_AGAIN),
    (TWO_SITES, TWO_SITES_AGAIN),
    (NO_STEP, NO_STEP),
];

#[test]
fn what_is_read_is_written(rt: HostRuntime) {
    for (text, wanted) in REWRITTEN {
        assert!(rt; is_line(rewritten(rt.alloc(), text), wanted), "{text}");
    }
}

/// Writes a script of this step after another.
fn write(alloc: Global, step: Step) -> Result<Doc, DocFault> {
    let steps = Vec::from_array(alloc, [Step::Tell { site: 0 }, step])?;
    write_script(alloc, &Script::new(1, steps))
}

const SECOND_ROW: DocFault = DocFault {
    document: 0,
    cause: DocCause::Shape { spot: Spot::Row(1) },
};

/// Whether no document can have this step.
fn is_refused(alloc: Global, step: Step) -> bool {
    write(alloc, step).err() == Some(SECOND_ROW)
}

const OVER: usize = 4_294_967_296;

#[test]
fn the_greatest_number(rt: HostRuntime) {
    let most = 4_294_967_295;
    assert!(rt; write(rt.alloc(), Step::AskCells { site: most }).is_ok());
}

#[test]
fn numbers_over_32_bits(rt: HostRuntime) {
    let alloc = rt.alloc();
    assert!(rt; is_refused(alloc, Step::AskCells { site: OVER }));
    assert!(rt; is_refused(alloc, Step::Tell { site: OVER }));
    assert!(rt; is_refused(alloc, Step::Deliver { post: OVER }));
    let (into, source) = (0, OVER);
    assert!(rt; is_refused(alloc, Step::Merge { into, source }));
    let (site, told) = (OVER, 0);
    assert!(rt; is_refused(alloc, Step::Post { site, told }));
}

/// A filter by a list that was read under one scheme, and is asked under another.
fn filter(alloc: Global, read: Scheme, asked: Scheme, field: &str) -> Result<Step, Fail> {
    let id = MessageId::new(alloc, "m")?;
    let list = PriorityList::parse(alloc, read, Malformed::Refused, field.as_bytes())?;
    Ok(Step::AskFilter {
        site: 0,
        id,
        scheme: asked,
        list,
    })
}

/// A list that was read under one scheme may be asked under the other.
#[test]
fn lists_of_the_other_scheme(rt: HostRuntime) -> Result<(), Fail> {
    let alloc = rt.alloc();
    let step = filter(alloc, Scheme::Basic, Scheme::Extended, "de,en")?;
    assert!(rt; write(alloc, step).is_ok());
    let step = filter(alloc, Scheme::Extended, Scheme::Basic, "de,en")?;
    assert!(rt; write(alloc, step).is_ok());
    Ok(())
}

#[test]
fn lists_that_the_other_scheme_cannot_say(rt: HostRuntime) -> Result<(), Fail> {
    let alloc = rt.alloc();
    let step = filter(alloc, Scheme::Basic, Scheme::Extended, "de;q=0.5")?;
    assert!(rt; is_refused(alloc, step));
    let step = filter(alloc, Scheme::Extended, Scheme::Basic, "de-*")?;
    assert!(rt; is_refused(alloc, step));
    Ok(())
}

fn lookup(alloc: Global) -> Result<Step, Fail> {
    let id = MessageId::new(alloc, "m")?;
    let list = PriorityList::from_ranges(alloc, b"*-de")?;
    Ok(Step::AskLookup {
        site: 0,
        id,
        list,
        default: None,
    })
}

#[test]
fn a_lookup_by_an_extended_range(rt: HostRuntime) -> Result<(), Fail> {
    let step = lookup(rt.alloc())?;
    assert!(rt; is_refused(rt.alloc(), step));
    Ok(())
}
