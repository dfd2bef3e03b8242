//! Two sites made equal.

use super::makers::{empty_site, put, site};
use super::shown;
use super::words::gives_in;
use cata_core::{Site, sync};
use std::alloc::{AllocError, Global};
use std::test::Fail;

/// What the two hold.
fn both(alloc: Global, first: &Site, second: &Site) -> Result<String, AllocError> {
    let own = shown::cells(alloc, first.catalogue())?;
    let other = shown::cells(alloc, second.catalogue())?;
    format!(in alloc; "{own} | {other}")
}

/// How a sync ends, and what the two then hold.
fn synced(alloc: Global, first: &mut Site, second: &mut Site) -> Result<String, AllocError> {
    let outcome = shown::outcome(alloc, &sync(alloc, first, second))?;
    let both = both(alloc, first, second)?;
    format!(in alloc; "{outcome}: {both}")
}

/// Two sites, each its name and what it holds, and how their sync ends.
struct Pair {
    case: &'static str,
    first: (&'static str, &'static str),
    second: (&'static str, &'static str),
    gives: &'static str,
}

const PAIRS: &[Pair] = &[
    Pair {
        case: "a clash leaves both",
        first: ("1", "m en 5 1 0 one"),
        second: ("2", "m en 5 1 0 two"),
        gives: "13 stamp 5 0000000001 0 used twice, cell 0: m en 5 0000000001 0 one | m en 5 0000000001 0 two",
    },
    Pair {
        case: "a deletion beats an older put",
        first: ("1", "m en 5 1 0 a"),
        second: ("2", "m en 7 3 0 -"),
        gives: "done: m en 7 0000000003 0 - | m en 7 0000000003 0 -",
    },
    Pair {
        case: "the place is that in the first",
        first: ("a", "k en 1 1 0 x; m en 5 1 0 one"),
        second: ("b", "m en 5 1 0 two"),
        gives: "13 stamp 5 0000000001 0 used twice, cell 1: k en 1 0000000001 0 x; m en 5 0000000001 0 one | m en 5 0000000001 0 two",
    },
    Pair {
        case: "sites of one name",
        first: ("a", "m en 1 a 0 x"),
        second: ("a", "m fr 1 a 0 y"),
        gives: "done: m en 1 a 0 x; m fr 1 a 0 y | m en 1 a 0 x; m fr 1 a 0 y",
    },
];

fn synced_pair(alloc: Global, pair: &Pair) -> Result<String, Fail> {
    let mut first = site(alloc, pair.first.0, pair.first.1)?;
    let mut second = site(alloc, pair.second.0, pair.second.1)?;
    Ok(synced(alloc, &mut first, &mut second)?)
}

#[test]
fn pairs(rt: HostRuntime) -> Result<(), Fail> {
    for pair in PAIRS {
        gives_in(pair.case, synced_pair(rt.alloc(), pair), pair.gives)?;
    }
    Ok(())
}

/// How sites sync that clashed, after a later put at the first.
fn resolved(alloc: Global) -> Result<String, Fail> {
    let mut first = site(alloc, "1", "m en 5 1 0 one")?;
    let mut second = site(alloc, "2", "m en 5 1 0 two")?;
    let _ = sync(alloc, &mut first, &mut second);
    let _ = put(alloc, &mut first, 6, "three")?;
    Ok(synced(alloc, &mut first, &mut second)?)
}

/// The last stamp of an empty site after a sync with one whose clock is spent.
fn last_after(alloc: Global, edits: &str) -> Result<String, Fail> {
    let mut second = site(alloc, "6", edits)?;
    let mut first = empty_site(alloc, "1")?;
    sync(alloc, &mut first, &mut second)?;
    Ok(shown::last(alloc, first.last())?)
}

#[test]
fn single_cases(rt: HostRuntime) -> Result<(), Fail> {
    gives_in(
        "a later put resolves a clash",
        resolved(rt.alloc()),
        "done: m en 6 0000000001 0 three | m en 6 0000000001 0 three",
    )?;
    gives_in(
        "a site with a spent clock syncs",
        last_after(rt.alloc(), "m en 18446744073709551615 7 0 x"),
        "18446744073709551615 0000000007 0",
    )
}
