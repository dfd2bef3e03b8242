//! Which texts are names of sites, and their order.

use super::makers::name;
use cell_core::{CellFault, SiteName};
use std::process::Abort;

fn is_refused(text: &str) -> bool {
    SiteName::new(text).err() == Some(CellFault::SiteName)
}

fn is_read(rt: &impl Abort, text: &str) -> bool {
    name(rt, text).as_str() == text
}

fn is_numbered(number: u32, text: &str) -> bool {
    SiteName::of_number(number).as_str() == text
}

fn is_below(rt: &impl Abort, low: &str, high: &str) -> bool {
    let (low, high) = (name(rt, low), name(rt, high));
    low < high && low != high
}

#[test]
fn refuses_texts(rt: HostRuntime) {
    assert!(rt; is_refused(""));
    assert!(rt; is_refused("abcdefghijklmnopq"));
    assert!(rt; is_refused("Paris"));
    assert!(rt; is_refused("a_b"));
    assert!(rt; is_refused("a b"));
    assert!(rt; is_refused("\u{e4}"));
}

#[test]
fn reads_names(rt: HostRuntime) {
    assert!(rt; is_read(&rt, "abcdefghijklmnop"));
    assert!(rt; is_read(&rt, "-"));
    assert!(rt; is_read(&rt, "paris-2"));
    assert!(rt; is_read(&rt, "0"));
}

#[test]
fn names_numbered_sites(rt: HostRuntime) {
    assert!(rt; is_numbered(0, "0000000000"));
    assert!(rt; is_numbered(7, "0000000007"));
    assert!(rt; is_numbered(4_294_967_295, "4294967295"));
}

#[test]
fn orders_names_by_bytes(rt: HostRuntime) {
    assert!(rt; is_below(&rt, "a", "a-"));
    assert!(rt; is_below(&rt, "a-", "a0"));
    assert!(rt; is_below(&rt, "a0", "aa"));
    assert!(rt; is_below(&rt, "10", "9"));
    assert!(rt; is_below(&rt, "0000000009", "0000000010"));
}
