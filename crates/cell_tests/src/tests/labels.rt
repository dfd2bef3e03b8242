//! Which texts are labels.

use super::makers;
use cell_core::{CellFault, Label};
use std::alloc::Global;
use std::process::Abort;

/// So many texts "a", the last ones of them with 65,536 letters.
fn many(rt: &impl Abort, alloc: Global, short: usize, long: usize) -> Vec<String> {
    let mut made = Vec::new(alloc);
    for _ in 0..short {
        made.push(repeated(rt, alloc, 1)).expect(rt, "memory");
    }
    for _ in 0..long {
        made.push(repeated(rt, alloc, 65_536)).expect(rt, "memory");
    }
    made
}

fn repeated(rt: &impl Abort, alloc: Global, times: usize) -> String {
    "a".repeat(alloc, times).expect(rt, "memory")
}

fn assert_fault(rt: &impl Abort, made: Result<Label, CellFault>, fault: CellFault) {
    assert!(rt; made.err() == Some(fault));
}

fn assert_refused(rt: &impl Abort, alloc: Global, texts: Vec<String>, fault: CellFault) {
    assert_fault(rt, Label::new(alloc, &texts), fault);
    assert_fault(rt, Label::from_texts(texts), fault);
}

fn assert_texts(rt: &impl Abort, label: &Label, texts: &[String]) {
    assert!(rt; label.texts() == texts);
}

fn assert_equal(rt: &impl Abort, label: &Label, other: &Label) {
    assert!(rt; label == other);
}

fn assert_kept(rt: &impl Abort, alloc: Global, texts: Vec<String>) {
    let label = Label::new(alloc, &texts).expect(rt, "a label");
    assert_texts(rt, &label, &texts);
    assert_equal(rt, &label.copy(alloc).expect(rt, "memory"), &label);
    let from_texts = Label::from_texts(texts).expect(rt, "a label");
    assert_equal(rt, &from_texts, &label);
}

/// Two texts.
fn two(alloc: Global, first: &str, second: &str) -> Result<Vec<String>, CellFault> {
    let mut texts = Vec::new(alloc);
    texts.push(String::from_str(alloc, first)?)?;
    texts.push(String::from_str(alloc, second)?)?;
    Ok(texts)
}

/// The label of two texts.
fn pair(rt: &impl Abort, alloc: Global, first: &str, second: &str) -> Label {
    let texts = two(alloc, first, second).expect(rt, "memory");
    Label::from_texts(texts).expect(rt, "a label")
}

/// One text.
fn one(rt: &impl Abort, alloc: Global, text: String) -> Vec<String> {
    let mut texts = Vec::new(alloc);
    texts.push(text).expect(rt, "memory");
    texts
}

#[test]
fn refuses_counts(rt: HostRuntime) {
    let alloc = rt.alloc();
    let none = CellFault::LabelCount { count: 0 };
    assert_refused(&rt, alloc, many(&rt, alloc, 0, 0), none);
    let most = CellFault::LabelCount { count: 65 };
    assert_refused(&rt, alloc, many(&rt, alloc, 65, 0), most);
    // The count comes before the texts.
    assert_refused(&rt, alloc, many(&rt, alloc, 64, 1), most);
}

#[test]
fn refuses_long_texts(rt: HostRuntime) {
    let alloc = rt.alloc();
    let first = CellFault::TextTooLong { index: 0 };
    assert_refused(&rt, alloc, many(&rt, alloc, 0, 1), first);
    assert_fault(&rt, Label::from_text(repeated(&rt, alloc, 65_536)), first);
    let second = CellFault::TextTooLong { index: 1 };
    assert_refused(&rt, alloc, many(&rt, alloc, 1, 2), second);
}

#[test]
fn keeps_64_texts(rt: HostRuntime) {
    assert_kept(&rt, rt.alloc(), many(&rt, rt.alloc(), 64, 0));
}

#[test]
fn keeps_texts_of_any_length(rt: HostRuntime) {
    let alloc = rt.alloc();
    assert_kept(&rt, alloc, one(&rt, alloc, repeated(&rt, alloc, 0)));
    assert_kept(&rt, alloc, one(&rt, alloc, repeated(&rt, alloc, 65_535)));
}

#[test]
fn keeps_one_text(rt: HostRuntime) {
    let alloc = rt.alloc();
    let texts = one(&rt, alloc, repeated(&rt, alloc, 65_535));
    let label = Label::from_text(repeated(&rt, alloc, 65_535)).expect(&rt, "a label");
    assert_texts(&rt, &label, &texts);
}

#[test]
fn keeps_any_character(rt: HostRuntime) {
    let texts = two(rt.alloc(), "a\nb\0c", "").expect(&rt, "memory");
    assert_kept(&rt, rt.alloc(), texts);
}

#[test]
fn counts_the_order(rt: HostRuntime) {
    let label = pair(&rt, rt.alloc(), "a", "b");
    assert!(rt; label != pair(&rt, rt.alloc(), "b", "a"));
}

#[test]
fn counts_the_texts(rt: HostRuntime) {
    let label = pair(&rt, rt.alloc(), "a", "b");
    assert!(rt; label != makers::label(&rt, rt.alloc(), "a"));
}
