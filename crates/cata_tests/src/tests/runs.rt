//! Runs over several sites, and what they answer.

use super::steps::{Run, all_give};
use std::test::Fail;

const RUNS: &[Run] = &[
    Run {
        case: "merges go both ways",
        sites: 2,
        steps: "edit 0 m en 5 1 0 one; edit 1 m en 5 2 0 two; edit 1 m en 5 2 0 two; merge 0 1; merge 1 0; cells 0; cells 1; lookup 0 m - en-GB",
        gives: "cells; m en 5 0000000002 0 two; cells; m en 5 0000000002 0 two; matched en two",
    },
    Run {
        case: "a list is filtered",
        sites: 1,
        steps: "edit 0 m en 1 1 1 Hello; edit 0 m fr 1 1 2 Bonjour; filter 0 m basic fr;q=0.5, en",
        gives: "filter; en Hello 1000; fr Bonjour 500",
    },
    Run {
        case: "an extended list is filtered",
        sites: 1,
        steps: "edit 0 m de-CH 1 1 1 Hoi; edit 0 m fr 1 1 2 Bonjour; filter 0 m extended *-CH, fr",
        gives: "filter; de-ch Hoi 1000; fr Bonjour 1000",
    },
    Run {
        case: "a default is answered",
        sites: 2,
        steps: "edit 0 m fr 1 1 2 Bonjour; lookup 0 m fr de; lookup 1 m fr de",
        gives: "default fr Bonjour; nothing",
    },
    Run {
        case: "a stamp used twice below is no clash",
        sites: 1,
        steps: "edit 0 m en 5 1 0 one; edit 0 m en 7 1 0 x; edit 0 m en 5 1 0 two; cells 0",
        gives: "cells; m en 7 0000000001 0 x",
    },
    Run {
        case: "a site merges with itself",
        sites: 1,
        steps: "merge 0 0; cells 0",
        gives: "cells",
    },
    Run {
        case: "a delta comes late and twice",
        sites: 2,
        steps: "tell 1; edit 0 m en 5 1 0 a; post 0 0; edit 1 m en 7 2 0 -; deliver 0; deliver 0; cells 1",
        gives: "cells; m en 7 0000000002 0 -",
    },
    Run {
        case: "deltas come out of order",
        sites: 3,
        steps: "tell 1; edit 0 m en 5 1 0 a; post 0 0; edit 0 m en 6 1 0 -; edit 0 m fr 6 1 1 b; post 0 0; deliver 1; deliver 0; deliver 1; cells 1; tell 1; post 0 1; deliver 2; cells 1; cells 2",
        gives: "cells; m en 6 0000000001 0 -; m fr 6 0000000001 1 b; cells; m en 6 0000000001 0 -; m fr 6 0000000001 1 b; cells",
    },
    Run {
        case: "posts may never come",
        sites: 3,
        steps: "tell 1; edit 0 m en 5 1 0 a; post 0 0; edit 0 m en 6 1 0 -; edit 0 m fr 6 1 1 b; post 0 0; cells 1",
        gives: "cells",
    },
    Run {
        case: "two posts against one summary",
        sites: 2,
        steps: "tell 1; edit 0 m en 5 1 0 a; post 0 0; edit 0 m fr 6 1 0 b; post 0 0; deliver 1; cells 1",
        gives: "cells; m en 5 0000000001 0 a; m fr 6 0000000001 0 b",
    },
    Run {
        case: "a site takes its own delta",
        sites: 1,
        steps: "tell 0; edit 0 m en 5 1 0 a; post 0 0; deliver 0; cells 0",
        gives: "cells; m en 5 0000000001 0 a",
    },
    Run {
        case: "a delta leaves out what was told",
        sites: 2,
        steps: "edit 1 m en 5 1 0 two; edit 0 m en 5 1 0 one; tell 1; post 0 0; deliver 0; cells 1",
        gives: "cells; m en 5 0000000001 0 two",
    },
];

#[test]
fn runs_over_several_sites(rt: HostRuntime) -> Result<(), Fail> {
    all_give(rt.alloc(), RUNS)
}
