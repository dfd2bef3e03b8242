//! Maps of more than one chunk. What is expected comes from arithmetic on the keys.

ghost use Rattle.std.proofs.lemmas.Map.Lookups.{exact_unsigned};

use super::makers::{copy, deleted, joined, labelled, put};
use cell_core::{Cell, Join, Key, Keyed, SiteName, Stamp};
use std::alloc::{AllocError, Global};
use std::process::Abort;

/// A number as a key.
#[derive(Clone, Copy, Debug, PartialEq, Eq, PartialOrd, Ord)]
struct Number {
    value: u64,
}

impl Key for Number {
    ghost exact = { λ x y h i. record { value = exact_unsigned x.value y.value h i } };

    fn copy(&self, _alloc: Global) -> Result<Number, AllocError> {
        Ok(*self)
    }
}

type Numbers = Keyed<Number, Stamp>;

/// The key at a place, where keys go from the first one on in steps.
fn nth_key(first: u64, step: u64, place: u64) -> Number {
    let value = first.wrapping_add(place.wrapping_mul(step));
    Number { value }
}

fn stamp(time: u64) -> Stamp {
    Stamp {
        time,
        site: SiteName::of_number(1),
        count: 0,
    }
}

/// The map of so many keys, each at this time.
fn every(rt: &impl Abort, alloc: Global, first: u64, step: u64, count: u64, time: u64) -> Numbers {
    let mut map = Keyed::new(alloc);
    for place in 0..count {
        put(rt, &mut map, nth_key(first, step, place), stamp(time));
    }
    map
}

/// The map counts so many entries, and so many are met by its walk.
fn assert_counted(rt: &impl Abort, map: &Numbers, count: u64) {
    assert!(rt; map.len() as u64 == count);
    assert!(rt; map.iter().count() as u64 == count);
}

/// An entry that the walk meets is of this key, by which the map finds the same.
fn assert_entry(rt: &impl Abort, map: &Numbers, met: (&Number, &Stamp), key: Number) {
    assert!(rt; *met.0 == key);
    assert!(rt; map.get(met.0) == Some(met.1));
}

/// The walk meets just the keys from the first one on in steps, and finds each.
fn assert_every(rt: &impl Abort, map: &Numbers, first: u64, step: u64, count: u64) {
    assert_counted(rt, map, count);
    for (met, place) in map.iter().zip(0..count) {
        assert_entry(rt, map, met, nth_key(first, step, place));
    }
}

fn time_of(map: &Numbers, value: u64) -> Option<u64> {
    map.get(&Number { value }).map(|stamp| stamp.time)
}

fn assert_time(rt: &impl Abort, map: &Numbers, value: u64, time: Option<u64>) {
    assert!(rt; time_of(map, value) == time, "key {value}");
}

fn key_at(map: &Numbers, place: usize) -> Option<u64> {
    map.nth(place).map(|entry| entry.0.value)
}

fn assert_key_at(rt: &impl Abort, map: &Numbers, place: usize, value: Option<u64>) {
    assert!(rt; key_at(map, place) == value, "place {place}");
}

#[test]
fn ascending_keys(rt: HostRuntime) {
    let map = every(&rt, rt.alloc(), 0, 1, 1000, 1);
    assert_every(&rt, &map, 0, 1, 1000);
    assert_time(&rt, &map, 1000, None);
}

#[test]
fn falling_keys(rt: HostRuntime) {
    // From 999 on in steps of -1.
    let map = every(&rt, rt.alloc(), 999, u64::MAX, 1000, 1);
    assert_every(&rt, &map, 0, 1, 1000);
}

#[test]
fn places_over_chunks(rt: HostRuntime) {
    let map = every(&rt, rt.alloc(), 7, 3, 1000, 1);
    assert_key_at(&rt, &map, 0, Some(7));
    assert_key_at(&rt, &map, 500, Some(1507));
    assert_key_at(&rt, &map, 999, Some(3004));
    assert_key_at(&rt, &map, 1000, None);
}

#[test]
fn mixed_keys(rt: HostRuntime) {
    let mut map = Keyed::new(rt.alloc());
    for place in 0..2000_u64 {
        // 617 has no factor in common with 1000, so that each key comes twice.
        let value = place * 617 % 1000;
        put(&rt, &mut map, Number { value }, stamp(place));
    }
    assert_every(&rt, &map, 0, 1, 1000);
    assert_time(&rt, &map, 0, Some(1000));
    assert_time(&rt, &map, 617, Some(1001));
}

/// Gives a held key this time.
fn change(map: &mut Numbers, value: u64, time: u64) {
    if let Some(held) = map.get_mut(&Number { value }) {
        *held = stamp(time);
    }
}

#[test]
fn changed_in_place(rt: HostRuntime) {
    let mut map = every(&rt, rt.alloc(), 0, 2, 500, 1);
    change(&mut map, 700, 9);
    change(&mut map, 701, 9);
    assert_every(&rt, &map, 0, 2, 500);
    assert_time(&rt, &map, 698, Some(1));
    assert_time(&rt, &map, 700, Some(9));
    assert_time(&rt, &map, 702, Some(1));
}

/// The even keys at time 1 are joined with the multiples of three at time 2.
fn assert_joined_at(rt: &impl Abort, map: &Numbers, value: u64) {
    let time = match (value % 2, value % 3) {
        (_, 0) => Some(2),
        (0, _) => Some(1),
        _ => None,
    };
    assert_time(rt, map, value, time);
}

/// The even keys below 1800 are joined with the multiples of three.
fn assert_interleaved(rt: &impl Abort, map: &Numbers) {
    // Of each six in a row, two are in neither.
    assert!(rt; map.len() == 1200);
    for value in 0..1800 {
        assert_joined_at(rt, map, value);
    }
}

/// The join of two maps.
fn both(rt: &impl Abort, alloc: Global, own: Numbers, other: Numbers) -> Numbers {
    joined(rt, alloc, own, &other)
}

#[test]
fn interleaved_joins(rt: HostRuntime) {
    let even = every(&rt, rt.alloc(), 0, 2, 900, 1);
    let thirds = every(&rt, rt.alloc(), 0, 3, 600, 2);
    assert_interleaved(&rt, &both(&rt, rt.alloc(), even, thirds));
}

#[test]
fn joins_of_apart_ranges(rt: HostRuntime) {
    let low = every(&rt, rt.alloc(), 0, 1, 600, 1);
    let high = every(&rt, rt.alloc(), 600, 1, 600, 1);
    assert_every(&rt, &both(&rt, rt.alloc(), low, high), 0, 1, 1200);
}

#[test]
fn joins_of_apart_ranges_the_other_way_round(rt: HostRuntime) {
    let low = every(&rt, rt.alloc(), 0, 1, 600, 1);
    let high = every(&rt, rt.alloc(), 600, 1, 600, 1);
    assert_every(&rt, &both(&rt, rt.alloc(), high, low), 0, 1, 1200);
}

#[test]
fn copies_of_chunks(rt: HostRuntime) {
    let map = every(&rt, rt.alloc(), 5, 3, 700, 1);
    assert_every(&rt, &copy(&rt, rt.alloc(), &map), 5, 3, 700);
}

#[test]
fn joins_with_the_empty_map(rt: HostRuntime) {
    let map = every(&rt, rt.alloc(), 5, 3, 700, 1);
    let map = both(&rt, rt.alloc(), map, Keyed::new(rt.alloc()));
    assert!(rt; !map.is_empty());
    assert_every(&rt, &map, 5, 3, 700);
}

#[test]
fn joins_of_the_empty_map(rt: HostRuntime) {
    let map = every(&rt, rt.alloc(), 5, 3, 700, 1);
    let map = both(&rt, rt.alloc(), Keyed::new(rt.alloc()), map);
    assert_every(&rt, &map, 5, 3, 700);
}

#[test]
fn few_keys_into_many(rt: HostRuntime) {
    let many = every(&rt, rt.alloc(), 0, 2, 1000, 1);
    let few = every(&rt, rt.alloc(), 1, 500, 4, 2);
    let map = both(&rt, rt.alloc(), many, few);
    assert!(rt; map.len() == 1004);
    assert_time(&rt, &map, 1, Some(2));
    assert_time(&rt, &map, 1501, Some(2));
    assert_time(&rt, &map, 500, Some(1));
    assert_time(&rt, &map, 503, None);
}

/// A label or a deletion, at the same stamp.
fn cell(rt: &impl Abort, alloc: Global, has_label: bool) -> Cell {
    if has_label {
        labelled(rt, alloc, stamp(1), "a")
    } else {
        deleted(stamp(1))
    }
}

/// Three hundred deletions, of which one key may have a label at the same stamp.
fn cells(rt: &impl Abort, alloc: Global, labelled_key: u64) -> Keyed<Number, Cell> {
    let mut map = Keyed::new(alloc);
    for value in 0..300 {
        let cell = cell(rt, alloc, value == labelled_key);
        put(rt, &mut map, Number { value }, cell);
    }
    map
}

/// The deletions clash with a label at this key, whichever is asked.
fn assert_clash(rt: &impl Abort, alloc: Global, labelled_key: u64) {
    let deletions = cells(rt, alloc, 300);
    let other = cells(rt, alloc, labelled_key);
    assert!(rt; !deletions.agrees(&other) && !other.agrees(&deletions));
}

#[test]
fn clashes_at_a_later_key(rt: HostRuntime) {
    assert_clash(&rt, rt.alloc(), 0);
    assert_clash(&rt, rt.alloc(), 1);
    assert_clash(&rt, rt.alloc(), 299);
}

#[test]
fn agrees_over_chunks(rt: HostRuntime) {
    let deletions = cells(&rt, rt.alloc(), 300);
    assert!(rt; deletions.agrees(&cells(&rt, rt.alloc(), 300)));
}
