//! Cells that agree and join, and lists of them.

use super::makers::{copy, deleted, join_of, joined, labelled, stamp};
use cell_core::{Cell, Join, Stamp, agree_all};
use std::alloc::Global;
use std::process::Abort;

/// The cell of a name. Of "early", "middle" and "latest" each is later than the one before, and
/// "clash" has the stamp of "early".
fn named(rt: &impl Abort, alloc: Global, name: &str) -> Cell {
    match name {
        "early" => labelled(rt, alloc, stamp(rt, 5, "0000000001", 0), "a"),
        "middle" => labelled(rt, alloc, stamp(rt, 6, "0000000002", 0), "b"),
        "clash" => labelled(rt, alloc, stamp(rt, 5, "0000000001", 0), "b"),
        _ => latest(rt),
    }
}

fn latest(rt: &impl Abort) -> Cell {
    deleted(stamp(rt, 7, "0000000001", 0))
}

/// The cells of these names, between blanks.
fn cells(rt: &impl Abort, alloc: Global, names: &str) -> Vec<Cell> {
    let mut cells = Vec::new(alloc);
    for name in names.split_whitespace() {
        cells.push(named(rt, alloc, name)).expect(rt, "memory");
    }
    cells
}

fn join_of_names(rt: &impl Abort, alloc: Global, names: &str) -> Option<Cell> {
    join_of(rt, alloc, &cells(rt, alloc, names))
}

const ORDERS: &str = "early latest middle
early middle latest
latest early middle
middle latest early
latest middle early
middle early latest";

#[test]
fn joins_three_cells_in_any_order(rt: HostRuntime) {
    for order in ORDERS.lines() {
        let join = join_of_names(&rt, rt.alloc(), order);
        assert!(rt; join == Some(latest(&rt)), "{order}");
    }
}

#[test]
fn joins_no_items(rt: HostRuntime) {
    assert!(rt; join_of_names(&rt, rt.alloc(), "").is_none());
}

fn nine_stamp(rt: &impl Abort) -> Stamp {
    stamp(rt, 5, "0000000009", 0)
}

/// A cell at the time that two sites have in common.
fn nine(rt: &impl Abort, alloc: Global) -> Cell {
    labelled(rt, alloc, nine_stamp(rt), "x")
}

/// A deletion at the same time and site.
fn deleted_nine(rt: &impl Abort) -> Cell {
    deleted(nine_stamp(rt))
}

/// A cell at that time at the other site, whose name is greater.
fn ten(rt: &impl Abort, alloc: Global) -> Cell {
    labelled(rt, alloc, stamp(rt, 5, "0000000010", 0), "y")
}

/// Whether the cell is that of the greater name.
fn is_ten(rt: &impl Abort, alloc: Global, cell: &Cell) -> bool {
    *cell == ten(rt, alloc) && *cell != nine(rt, alloc)
}

#[test]
fn keeps_the_later_cell(rt: HostRuntime) {
    let alloc = rt.alloc();
    let join = joined(&rt, alloc, nine(&rt, alloc), &ten(&rt, alloc));
    assert!(rt; is_ten(&rt, alloc, &join));
    let join = joined(&rt, alloc, ten(&rt, alloc), &nine(&rt, alloc));
    assert!(rt; is_ten(&rt, alloc, &join));
}

#[test]
fn copies_are_equal(rt: HostRuntime) {
    let cell = nine(&rt, rt.alloc());
    assert!(rt; copy(&rt, rt.alloc(), &cell) == cell);
}

fn has_parts(cell: &Cell, stamp: Stamp, has_label: bool) -> bool {
    cell.stamp() == stamp && cell.label().is_some() == has_label
}

#[test]
fn shows_its_parts(rt: HostRuntime) {
    assert!(rt; has_parts(&nine(&rt, rt.alloc()), nine_stamp(&rt), true));
    assert!(rt; has_parts(&deleted_nine(&rt), nine_stamp(&rt), false));
}

fn agree(rt: &impl Abort, alloc: Global, names: &str) -> bool {
    agree_all(&cells(rt, alloc, names))
}

#[test]
fn agrees_pair_by_pair(rt: HostRuntime) {
    assert!(rt; !agree(&rt, rt.alloc(), "early middle clash"));
    assert!(rt; agree(&rt, rt.alloc(), "early middle"));
    assert!(rt; agree(&rt, rt.alloc(), "middle clash"));
    assert!(rt; agree(&rt, rt.alloc(), "early"));
}

#[test]
fn a_deletion_clashes_with_a_label(rt: HostRuntime) {
    let cell = nine(&rt, rt.alloc());
    assert!(rt; !cell.agrees(&deleted_nine(&rt)));
}

#[test]
fn deletions_of_one_stamp_agree(rt: HostRuntime) {
    let cell = deleted_nine(&rt);
    assert!(rt; cell.agrees(&deleted_nine(&rt)));
}
