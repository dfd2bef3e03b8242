//! Which texts are message ids.

use super::makers::{id, key_copy, shown};
use cell_core::{CellFault, MessageId};
use std::alloc::Global;
use std::process::Abort;

/// What comes of an own text.
fn from_own_text(rt: &impl Abort, alloc: Global, text: &str) -> Result<MessageId, CellFault> {
    MessageId::from_text(String::from_str(alloc, text).expect(rt, "memory"))
}

fn assert_fault(rt: &impl Abort, read: Result<MessageId, CellFault>, text: &str) {
    assert!(rt; matches!(read, Err(CellFault::IdRefused)), "{text}");
}

fn assert_refused(rt: &impl Abort, alloc: Global, text: &str) {
    assert_fault(rt, MessageId::new(alloc, text), text);
    assert_fault(rt, from_own_text(rt, alloc, text), text);
}

fn assert_equal(rt: &impl Abort, id: &MessageId, other: &MessageId) {
    assert!(rt; id == other);
}

fn assert_read(rt: &impl Abort, alloc: Global, text: &str) {
    let read = id(rt, alloc, text);
    assert!(rt; read.as_str() == text);
    assert_equal(rt, &key_copy(rt, alloc, &read), &read);
    let from_own_text = from_own_text(rt, alloc, text);
    assert_equal(rt, &from_own_text.expect(rt, "a message id"), &read);
}

fn is_below(rt: &impl Abort, alloc: Global, low: &str, high: &str) -> bool {
    id(rt, alloc, low) < id(rt, alloc, high)
}

fn repeated(rt: &impl Abort, alloc: Global, text: &str, times: usize) -> String {
    text.repeat(alloc, times).expect(rt, "memory")
}

#[test]
fn refuses_texts(rt: HostRuntime) {
    let alloc = rt.alloc();
    assert_refused(&rt, alloc, "");
    assert_refused(&rt, alloc, "@m");
    assert_refused(&rt, alloc, "a\tb");
    assert_refused(&rt, alloc, "a\u{7f}");
}

#[test]
fn reads_ids(rt: HostRuntime) {
    let alloc = rt.alloc();
    assert_read(&rt, alloc, "m");
    assert_read(&rt, alloc, "m@");
    assert_read(&rt, alloc, " ");
    assert_read(&rt, alloc, "\u{80}");
}

fn assert_read_times(rt: &impl Abort, alloc: Global, text: &str, times: usize) {
    let text = repeated(rt, alloc, text, times);
    assert_read(rt, alloc, text.as_str());
}

fn assert_refused_times(rt: &impl Abort, alloc: Global, text: &str, times: usize) {
    let text = repeated(rt, alloc, text, times);
    assert_refused(rt, alloc, text.as_str());
}

#[test]
fn counts_bytes(rt: HostRuntime) {
    let alloc = rt.alloc();
    assert_read_times(&rt, alloc, "a", 128);
    assert_refused_times(&rt, alloc, "a", 129);
    assert_read_times(&rt, alloc, "\u{e4}", 64);
    assert_refused_times(&rt, alloc, "\u{e4}", 65);
}

#[test]
fn reads_ids_in_place_and_outside(rt: HostRuntime) {
    let alloc = rt.alloc();
    assert_read_times(&rt, alloc, "a", 32);
    assert_read_times(&rt, alloc, "a", 33);
    assert_read_times(&rt, alloc, "\u{e4}", 16);
    assert_read_times(&rt, alloc, "\u{e4}", 17);
}

#[test]
fn orders_ids_in_place_and_outside(rt: HostRuntime) {
    let alloc = rt.alloc();
    let (most_short, least_long) = (repeated(&rt, alloc, "a", 32), repeated(&rt, alloc, "a", 33));
    assert!(rt; is_below(&rt, alloc, "a", most_short.as_str()));
    assert!(rt; is_below(&rt, alloc, most_short.as_str(), least_long.as_str()));
    assert!(rt; is_below(&rt, alloc, least_long.as_str(), "b"));
}

#[test]
fn orders_by_bytes(rt: HostRuntime) {
    let alloc = rt.alloc();
    assert!(rt; is_below(&rt, alloc, "a", "aa"));
    assert!(rt; is_below(&rt, alloc, "Z", "a"));
}

#[test]
fn shows_the_text(rt: HostRuntime) {
    let shown = shown(&rt, rt.alloc(), &id(&rt, rt.alloc(), "m"));
    assert!(rt; shown.as_str() == "m");
}
