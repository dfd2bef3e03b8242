//! The order of stamps, and the next stamp of a site.

use super::makers::{name, shown, stamp};
use cell_core::{CellFault, Stamp};
use std::process::Abort;

const LATEST: u64 = u64::MAX;

fn assert_same(rt: &impl Abort, next: Result<Stamp, CellFault>, wanted: Result<Stamp, CellFault>) {
    assert!(rt; next == wanted);
}

/// After the last stamp the next one of the site has this time and count.
fn assert_next(rt: &impl Abort, last: Stamp, now: u64, site: &str, time: u64, count: u32) {
    let next = Stamp::next(Some(last), now, name(rt, site));
    assert_same(rt, next, Ok(stamp(rt, time, site, count)));
}

fn assert_spent(rt: &impl Abort, last: Stamp, now: u64, site: &str) {
    let next = Stamp::next(Some(last), now, name(rt, site));
    assert_same(rt, next, Err(CellFault::ClockSpent));
}

/// The stamps of these times, sites and counts are in this order.
fn assert_below(rt: &impl Abort, low: (u64, &str, u32), high: (u64, &str, u32)) {
    let low = stamp(rt, low.0, low.1, low.2);
    let high = stamp(rt, high.0, high.1, high.2);
    assert!(rt; low < high && low != high);
}

/// A stamp of the latest time.
fn latest(rt: &impl Abort) -> Stamp {
    stamp(rt, LATEST, "0000000007", 0)
}

#[test]
fn is_spent_at_the_latest_time(rt: HostRuntime) {
    assert_spent(&rt, latest(&rt), 3, "0000000006");
    assert_next(&rt, latest(&rt), 3, "0000000007", LATEST, 1);
    assert_next(&rt, latest(&rt), 3, "0000000008", LATEST, 0);
}

#[test]
fn is_spent_at_the_last_count(rt: HostRuntime) {
    let last = stamp(&rt, LATEST, "0000000007", u32::MAX);
    assert_spent(&rt, last, 3, "0000000007");
    let last = stamp(&rt, 5, "0000000003", u32::MAX);
    assert_next(&rt, last, 5, "0000000003", 6, 0);
}

#[test]
fn begins_at_now(rt: HostRuntime) {
    let next = Stamp::next(None, 5, name(&rt, "0000000003"));
    assert_same(&rt, next, Ok(stamp(&rt, 5, "0000000003", 0)));
}

#[test]
fn goes_on_after_another_site(rt: HostRuntime) {
    let last = stamp(&rt, 5, "0000000004", 9);
    assert_next(&rt, last, 4, "0000000003", 6, 0);
}

#[test]
fn orders_by_time_then_name_then_count(rt: HostRuntime) {
    assert_below(&rt, (4, "b", 9), (5, "a", 8));
    assert_below(&rt, (5, "a", 8), (5, "a-", 7));
    assert_below(&rt, (5, "a-", 7), (5, "b", 0));
    assert_below(&rt, (5, "b", 0), (5, "b", 1));
    assert_below(&rt, (5, "b", 1), (6, "a", 0));
}

#[test]
fn orders_padded_names_as_numbers(rt: HostRuntime) {
    let (nine, ten) = ("0000000009", "0000000010");
    assert_below(&rt, (5, nine, 0), (5, ten, 0));
    // The shortest names are in the other order.
    assert_below(&rt, (5, "10", 0), (5, "9", 0));
}

#[test]
fn shows_the_parts(rt: HostRuntime) {
    let shown = shown(&rt, rt.alloc(), &stamp(&rt, 5, "paris", 7));
    assert!(rt; shown.as_str() == "5 paris 7");
}
