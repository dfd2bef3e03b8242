//! Numbers and words that no refusal has, and words of refusals.

use front_core::{explain, number_of_code};
use std::process::Abort;

#[test]
fn no_refusal(rt: HostRuntime) {
    for number in [0, 32, 255] {
        assert!(rt; explain(number).is_none(), "{number}");
    }
}

#[test]
fn words(rt: HostRuntime) {
    for (word, number) in [
        ("tag-empty", Some(1)),
        ("duplicate-timestamp", Some(13)),
        ("wrong-addressee", Some(15)),
        ("clock-ahead", Some(29)),
        ("own-edit-missing", Some(30)),
        ("fallback-malformed", Some(31)),
        ("", None),
        ("Clock-Ahead", None),
        ("clock-ahead ", None),
    ] {
        assert!(rt; number_of_code(word) == number, "{word}");
    }
}
