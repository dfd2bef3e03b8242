//! Entries: their order, copies and parts.

use super::makers::{id, lang, stamp};
use cell_core::{Entry, Stamp};
use std::alloc::Global;
use std::cmp::Ordering;
use std::process::Abort;

/// The entry of a message in a language, always with the same stamp.
fn entry(rt: &impl Abort, alloc: Global, text: &str, tag: &str) -> Entry<Stamp> {
    Entry::new(
        id(rt, alloc, text),
        lang(rt, alloc, tag),
        stamp(rt, 5, "paris", 0),
    )
}

/// How the entry of a message in a language is ordered to that of "m" in English.
fn order(rt: &impl Abort, alloc: Global, text: &str, tag: &str) -> Ordering {
    let (id, lang) = (id(rt, alloc, "m"), lang(rt, alloc, "en"));
    entry(rt, alloc, text, tag).compare(&id, &lang)
}

#[test]
fn orders_by_id_then_by_language(rt: HostRuntime) {
    let alloc = rt.alloc();
    assert!(rt; order(&rt, alloc, "l", "fr").is_lt());
    assert!(rt; order(&rt, alloc, "m", "de").is_lt());
    assert!(rt; order(&rt, alloc, "m", "en").is_eq());
    assert!(rt; order(&rt, alloc, "m", "fr").is_gt());
    assert!(rt; order(&rt, alloc, "n", "de").is_gt());
}

/// Whether the entry has the key and the value of another.
fn is_same(entry: &Entry<Stamp>, other: &Entry<Stamp>) -> bool {
    entry.compare(other.id(), other.lang()).is_eq() && entry.value() == other.value()
}

#[test]
fn copies_are_equal(rt: HostRuntime) {
    let entry = entry(&rt, rt.alloc(), "m", "en");
    assert!(rt; is_same(&entry.copy(rt.alloc()).expect(&rt, "memory"), &entry));
}

/// Whether the parts of the entry are these texts, and its value is this stamp.
fn has_parts(entry: Entry<Stamp>, text: &str, tag: &str, stamp: Stamp) -> bool {
    let (id, lang, value) = entry.into_parts();
    id.as_str() == text && lang.as_str() == tag && value == stamp
}

#[test]
fn gives_its_parts(rt: HostRuntime) {
    let stamp = stamp(&rt, 5, "paris", 0);
    assert!(rt; has_parts(entry(&rt, rt.alloc(), "m", "en"), "m", "en", stamp));
}
