//! Documents that several tests read.

/// A site without cells.
pub const EMPTY_ONE: &str = r#"{"cells":[],"kind":"site","site":"0000000001","version":2}"#;

/// A run of two sites that merge one another.
pub const SCRIPT: &str =
    r#"{"kind":"script","sites":2,"steps":[["edit",0,["m","en",5,1,0,["one"]]],["edit",1,["m","en",5,2,0,["two"]]],["edit",1,["m","en",5,2,0,["two"]]],["merge",0,1],["merge",1,0],["cells",0],["cells",1],["lookup",0,"m","en-GB",null]],"version":1}"#;

/// What it writes.
pub const SCRIPT_WRITTEN: &str =
    "cells 1\n[\"m\",\"en\",5,\"0000000002\",0,[\"two\"]]\ncells 1\n[\"m\",\"en\",5,\"0000000002\",0,[\"two\"]]\nmatched en [\"two\"]\n";

/// The same with slashes between its lines.
pub const SCRIPT_LINES: &str =
    r#"cells 1 / ["m","en",5,"0000000002",0,["two"]] / cells 1 / ["m","en",5,"0000000002",0,["two"]] / matched en ["two"]"#;
