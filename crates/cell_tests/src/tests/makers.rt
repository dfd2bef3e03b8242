//! Makes the values that the tests speak of, and ends the test where one is refused.

use cell_core::{Cell, Join, Key, Keyed, Label, MessageId, SiteName, Stamp, agree_all, join_all};
use lang_core::Lang;
use std::alloc::Global;
use std::fmt::Display;
use std::process::Abort;

pub fn name(rt: &impl Abort, text: &str) -> SiteName {
    SiteName::new(text).expect(rt, "a site name")
}

pub fn stamp(rt: &impl Abort, time: u64, site: &str, count: u32) -> Stamp {
    let site = name(rt, site);
    Stamp { time, site, count }
}

pub fn id(rt: &impl Abort, alloc: Global, text: &str) -> MessageId {
    MessageId::new(alloc, text).expect(rt, "a message id")
}

pub fn lang(rt: &impl Abort, alloc: Global, tag: &str) -> Lang {
    Lang::parse(alloc, tag.as_bytes()).expect(rt, "a language")
}

/// A label of one text.
pub fn label(rt: &impl Abort, alloc: Global, text: &str) -> Label {
    let text = String::from_str(alloc, text).expect(rt, "memory for the text");
    Label::from_text(text).expect(rt, "a label")
}

/// A cell with a label of one text.
pub fn labelled(rt: &impl Abort, alloc: Global, stamp: Stamp, text: &str) -> Cell {
    Cell::new(stamp, Some(label(rt, alloc, text)))
}

pub fn deleted(stamp: Stamp) -> Cell {
    Cell::new(stamp, None)
}

/// Gives the key the value.
pub fn put<K: Key, J: Drop>(rt: &impl Abort, map: &mut Keyed<K, J>, key: K, value: J) {
    assert!(rt; map.put(key, value).is_ok());
}

/// A map of one entry.
pub fn only<K: Key, J: Drop>(rt: &impl Abort, alloc: Global, key: K, value: J) -> Keyed<K, J> {
    let mut map = Keyed::new(alloc);
    put(rt, &mut map, key, value);
    map
}

pub fn copy<J: Join>(rt: &impl Abort, alloc: Global, value: &J) -> J {
    value.copy(alloc).expect(rt, "memory for the copy")
}

/// The join of two values, which have to agree.
pub fn joined<J: Join>(rt: &impl Abort, alloc: Global, mut own: J, other: &J) -> J {
    assert!(rt; own.agrees(other));
    assert!(rt; own.join(alloc, other).is_ok());
    own
}

/// The join of a list, whose items have to agree.
pub fn join_of<J: Join>(rt: &impl Abort, alloc: Global, items: &[J]) -> Option<J> {
    assert!(rt; agree_all(items));
    join_all(alloc, items).expect(rt, "memory for the join")
}

/// The text that shows the value.
pub fn shown<T: Display>(rt: &impl Abort, alloc: Global, value: &T) -> String {
    format!(in alloc; "{value}").expect(rt, "memory for the text")
}

pub fn key_copy<K: Key>(rt: &impl Abort, alloc: Global, key: &K) -> K {
    key.copy(alloc).expect(rt, "memory for the copy")
}
