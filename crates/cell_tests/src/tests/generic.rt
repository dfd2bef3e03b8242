//! Generic code at concrete types, through its bounds.

use super::makers::{copy, deleted, id, joined, labelled, lang, only, stamp};
use cell_core::{Cell, Join, Keyed, MessageId, Stamp};
use lang_core::Lang;
use std::alloc::Global;
use std::process::Abort;

type Catalogue = Keyed<MessageId, Keyed<Lang, Cell>>;

/// A catalogue of one cell.
fn one(rt: &impl Abort, alloc: Global, message: &str, tag: &str, cell: Cell) -> Catalogue {
    let cells = only(rt, alloc, lang(rt, alloc, tag), cell);
    only(rt, alloc, id(rt, alloc, message), cells)
}

fn early(rt: &impl Abort, alloc: Global) -> Cell {
    labelled(rt, alloc, stamp(rt, 5, "a", 0), "x")
}

fn later(rt: &impl Abort) -> Cell {
    deleted(stamp(rt, 6, "b", 0))
}

/// The join of the early cell of "m" in English with the later cell of a message in a language.
fn join_with_later(rt: &impl Abort, alloc: Global, message: &str, tag: &str) -> Catalogue {
    let own = one(rt, alloc, "m", "en", early(rt, alloc));
    joined(rt, alloc, own, &one(rt, alloc, message, tag, later(rt)))
}

/// The time of the cell of a message in a language.
fn time_of(map: &Catalogue, message: &MessageId, tag: &str) -> Option<u64> {
    let (_, cell) = map.get(message)?.get_by(tag)?;
    Some(cell.stamp().time)
}

/// The times of the cells of a message in English and in French.
fn times(map: &Catalogue, message: &MessageId) -> (Option<u64>, Option<u64>) {
    (time_of(map, message, "en"), time_of(map, message, "fr"))
}

fn has_times(
    rt: &impl Abort,
    alloc: Global,
    map: &Catalogue,
    message: &str,
    wanted: (Option<u64>, Option<u64>),
) -> bool {
    times(map, &id(rt, alloc, message)) == wanted
}

#[test]
fn joins_languages_of_a_message(rt: HostRuntime) {
    let map = join_with_later(&rt, rt.alloc(), "m", "fr");
    assert!(rt; has_times(&rt, rt.alloc(), &map, "m", (Some(5), Some(6))));
}

#[test]
fn joins_cells_two_deep(rt: HostRuntime) {
    let map = join_with_later(&rt, rt.alloc(), "m", "en");
    assert!(rt; has_times(&rt, rt.alloc(), &map, "m", (Some(6), None)));
}

#[test]
fn joins_messages(rt: HostRuntime) {
    let map = join_with_later(&rt, rt.alloc(), "n", "fr");
    assert!(rt; has_times(&rt, rt.alloc(), &map, "m", (Some(5), None)));
    assert!(rt; has_times(&rt, rt.alloc(), &map, "n", (None, Some(6))));
}

/// Whether the catalogue of the early cell agrees with that of another at the same place.
fn early_agrees(rt: &impl Abort, alloc: Global, other: Cell) -> bool {
    let other = one(rt, alloc, "m", "en", other);
    one(rt, alloc, "m", "en", early(rt, alloc)).agrees(&other)
}

#[test]
fn clashes_two_deep(rt: HostRuntime) {
    let clash = deleted(stamp(&rt, 5, "a", 0));
    assert!(rt; !early_agrees(&rt, rt.alloc(), clash));
    assert!(rt; early_agrees(&rt, rt.alloc(), later(&rt)));
}

/// A copy of the catalogue of the later cell.
fn copied(rt: &impl Abort, alloc: Global) -> Catalogue {
    copy(rt, alloc, &one(rt, alloc, "m", "en", later(rt)))
}

#[test]
fn copies_two_deep(rt: HostRuntime) {
    let map = copied(&rt, rt.alloc());
    assert!(rt; has_times(&rt, rt.alloc(), &map, "m", (Some(6), None)));
}

fn stamped(rt: &impl Abort, alloc: Global, time: u64) -> Keyed<MessageId, Stamp> {
    only(rt, alloc, id(rt, alloc, "m"), stamp(rt, time, "a", 0))
}

fn first_stamp(map: &Keyed<MessageId, Stamp>) -> Option<Stamp> {
    map.nth(0).map(|entry| *entry.1)
}

#[test]
fn joins_stamps_by_message(rt: HostRuntime) {
    let early = stamped(&rt, rt.alloc(), 5);
    let map = joined(&rt, rt.alloc(), stamped(&rt, rt.alloc(), 6), &early);
    assert!(rt; first_stamp(&map) == Some(stamp(&rt, 6, "a", 0)));
}
