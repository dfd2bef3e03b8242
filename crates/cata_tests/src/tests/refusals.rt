//! Numbers and texts of refusals.

use super::words::{Words, gives};
use super::{makers, shown};
use cata_core::{CataFault, PlayFault};
use std::alloc::Global;
use std::test::Fail;

fn is_shown(alloc: Global, fault: CataFault, wanted: &str) -> Result<(), Fail> {
    gives(Ok(shown::fault(alloc, &fault)?), wanted)
}

#[test]
fn of_catalogues(rt: HostRuntime) -> Result<(), Fail> {
    let alloc = rt.alloc();
    let stamp = makers::stamp(&mut Words::new("5 1 0"))?;
    let reused = CataFault::StampReused { place: 0, stamp };
    is_shown(alloc, reused, "13 stamp 5 0000000001 0 used twice, cell 0")?;
    is_shown(alloc, CataFault::ClockSpent, "14 clock is spent")?;
    let addressee = makers::name("2")?;
    let other = CataFault::NotForMe { addressee };
    is_shown(alloc, other, "15 delta is for site 0000000002")?;
    is_shown(alloc, CataFault::NoMemory, "26 out of memory")
}

fn is_shown_of_run(alloc: Global, fault: PlayFault, wanted: &str) -> Result<(), Fail> {
    gives(Ok(shown::play_fault(alloc, &fault)?), wanted)
}

#[test]
fn of_runs(rt: HostRuntime) -> Result<(), Fail> {
    let alloc = rt.alloc();
    let stamp = makers::stamp(&mut Words::new("5 1 0"))?;
    let reused = PlayFault::StampReused {
        step: 2,
        place: 0,
        stamp,
    };
    let shown = "13 stamp 5 0000000001 0 used twice, cell 0, step 2";
    is_shown_of_run(alloc, reused, shown)?;
    let no_site = PlayFault::NoSuchSite { step: 3 };
    is_shown_of_run(alloc, no_site, "16 step 3 names no site")?;
    let no_post = PlayFault::NoSuchPost { step: 3 };
    is_shown_of_run(alloc, no_post, "17 step 3 names no post")?;
    is_shown_of_run(alloc, PlayFault::NoMemory, "26 out of memory")
}
