//! Runs with a faulty step.

use super::steps::{Run, all_give};
use std::test::Fail;

const RUNS: &[Run] = &[
    Run {
        case: "a stamp used twice clashes",
        sites: 2,
        steps: "edit 0 m en 5 1 0 one; edit 1 m en 5 1 0 two; merge 0 1",
        gives: "13 stamp 5 0000000001 0 used twice, cell 0, step 2",
    },
    Run {
        case: "the first fault is told",
        sites: 2,
        steps: "edit 0 m en 5 1 0 one; edit 0 m en 5 1 0 two; cells 7",
        gives: "13 stamp 5 0000000001 0 used twice, cell 0, step 1",
    },
    Run {
        case: "no sites at all",
        sites: 0,
        steps: "cells 0",
        gives: "16 step 0 names no site",
    },
    Run {
        case: "a merge of no site",
        sites: 2,
        steps: "merge 0 2",
        gives: "16 step 0 names no site",
    },
    Run {
        case: "a post by no site against nothing",
        sites: 2,
        steps: "post 2 0",
        gives: "16 step 0 names no site",
    },
    Run {
        case: "a post against nothing",
        sites: 2,
        steps: "tell 1; edit 0 m en 5 1 0 a; post 0 0; edit 1 m en 7 2 0 -; deliver 0; deliver 0; cells 1; post 0 1",
        gives: "17 step 7 names no post",
    },
    Run {
        case: "a delivery before its post",
        sites: 2,
        steps: "tell 1; deliver 0; post 0 0",
        gives: "17 step 1 names no post",
    },
    Run {
        case: "a delta clashes",
        sites: 2,
        steps: "edit 0 m en 5 1 0 one; tell 1; post 0 0; edit 1 m en 5 1 0 two; deliver 0",
        gives: "13 stamp 5 0000000001 0 used twice, cell 0, step 4",
    },
    Run {
        case: "a clash is told at its place in the taker",
        sites: 2,
        steps: "edit 0 m en 5 1 0 one; edit 1 a de 1 1 0 x; edit 1 m en 5 1 0 two; merge 1 0",
        gives: "13 stamp 5 0000000001 0 used twice, cell 1, step 3",
    },
];

#[test]
fn runs_with_a_faulty_step(rt: HostRuntime) -> Result<(), Fail> {
    all_give(rt.alloc(), RUNS)
}
