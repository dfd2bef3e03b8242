//! Maps of cells by language.

use super::makers::{copy, deleted, joined, key_copy, labelled, lang, only, put, stamp};
use cell_core::{Cell, Join, Keyed};
use lang_core::Lang;
use std::alloc::Global;
use std::process::Abort;

/// A map of one label, always at the same stamp.
fn one(rt: &impl Abort, alloc: Global, tag: &str, text: &str) -> Keyed<Lang, Cell> {
    let cell = labelled(rt, alloc, stamp(rt, 5, "0000000001", 0), text);
    only(rt, alloc, lang(rt, alloc, tag), cell)
}

/// A map of a later deletion and of another language.
fn two(rt: &impl Abort, alloc: Global) -> Keyed<Lang, Cell> {
    let fr = labelled(rt, alloc, stamp(rt, 6, "0000000002", 0), "b");
    let mut map = only(rt, alloc, lang(rt, alloc, "fr"), fr);
    let en = deleted(stamp(rt, 7, "0000000001", 0));
    put(rt, &mut map, lang(rt, alloc, "en"), en);
    map
}

/// The two have the same languages with the same cells, and each walk meets what the map counts.
fn are_same(one: &Keyed<Lang, Cell>, other: &Keyed<Lang, Cell>) -> bool {
    one == other && one.len() == one.iter().count() && other.len() == other.iter().count()
}

/// A deletion at 7.
fn deletion(rt: &impl Abort) -> Cell {
    deleted(stamp(rt, 7, "0000000001", 0))
}

/// Appends the entry where its key is greater than all others.
fn is_pushed(map: &mut Keyed<Lang, Cell>, key: Lang, cell: Cell) -> bool {
    map.is_above_all(&key) && map.push(key, cell).is_ok()
}

/// Whether the deletion is appended for this language.
fn is_appended(rt: &impl Abort, alloc: Global, map: &mut Keyed<Lang, Cell>, tag: &str) -> bool {
    is_pushed(map, lang(rt, alloc, tag), deletion(rt))
}

#[test]
fn appends_a_key_above_all(rt: HostRuntime) {
    let mut map = one(&rt, rt.alloc(), "en", "a");
    assert!(rt; is_appended(&rt, rt.alloc(), &mut map, "fr"));
    assert!(rt; map.len() == 2);
    let join = joined(&rt, rt.alloc(), one(&rt, rt.alloc(), "en", "a"), &map);
    assert!(rt; are_same(&map, &join));
}

#[test]
fn appends_no_key_below_or_at_another(rt: HostRuntime) {
    let mut map = one(&rt, rt.alloc(), "en", "a");
    assert!(rt; !is_appended(&rt, rt.alloc(), &mut map, "de"));
    assert!(rt; !is_appended(&rt, rt.alloc(), &mut map, "en"));
    assert!(rt; are_same(&map, &one(&rt, rt.alloc(), "en", "a")));
}

#[test]
fn joins_key_by_key(rt: HostRuntime) {
    let later = two(&rt, rt.alloc());
    let join = joined(&rt, rt.alloc(), one(&rt, rt.alloc(), "en", "a"), &later);
    assert!(rt; are_same(&join, &later));
}

#[test]
fn joins_the_other_way_round(rt: HostRuntime) {
    let early = one(&rt, rt.alloc(), "en", "a");
    let join = joined(&rt, rt.alloc(), two(&rt, rt.alloc()), &early);
    assert!(rt; are_same(&join, &two(&rt, rt.alloc())));
}

/// Whether a copy of the map is equal to it.
fn is_copied(rt: &impl Abort, alloc: Global, map: &Keyed<Lang, Cell>) -> bool {
    are_same(&copy(rt, alloc, map), map)
}

#[test]
fn copies_are_equal(rt: HostRuntime) {
    assert!(rt; is_copied(&rt, rt.alloc(), &two(&rt, rt.alloc())));
}

/// Whether a copy of the language is equal to it.
fn is_key_copied(rt: &impl Abort, alloc: Global, key: &Lang) -> bool {
    key_copy(rt, alloc, key) == *key
}

#[test]
fn copies_languages(rt: HostRuntime) {
    assert!(rt; is_key_copied(&rt, rt.alloc(), &lang(&rt, rt.alloc(), "en")));
    assert!(rt; is_key_copied(&rt, rt.alloc(), &Lang::none()));
}

/// Whether the maps of these languages and texts agree.
fn agree(rt: &impl Abort, alloc: Global, own: (&str, &str), other: (&str, &str)) -> bool {
    let own = one(rt, alloc, own.0, own.1);
    own.agrees(&one(rt, alloc, other.0, other.1))
}

#[test]
fn agrees_at_common_keys(rt: HostRuntime) {
    let alloc = rt.alloc();
    assert!(rt; !agree(&rt, alloc, ("en", "a"), ("en", "b")));
    assert!(rt; agree(&rt, alloc, ("en", "a"), ("fr", "b")));
    assert!(rt; agree(&rt, alloc, ("fr", "b"), ("en", "b")));
}

/// The language that is found by this text.
fn found_by<'a>(map: &'a Keyed<Lang, Cell>, text: &str) -> Option<&'a str> {
    map.get_by(text).map(|(key, _)| key.as_str())
}

#[test]
fn finds_languages_by_text(rt: HostRuntime) {
    let map = two(&rt, rt.alloc());
    assert!(rt; found_by(&map, "en") == Some("en"));
    assert!(rt; found_by(&map, "fr") == Some("fr"));
    assert!(rt; found_by(&map, "EN").is_none());
    assert!(rt; found_by(&map, "e n").is_none());
}

#[test]
fn finds_nothing_in_the_empty_map(rt: HostRuntime) {
    assert!(rt; found_by(&Keyed::new(rt.alloc()), "en").is_none());
}

/// The language and the time of the cell that are found by this key.
fn entry_of<'a>(map: &'a Keyed<Lang, Cell>, key: &Lang) -> Option<(&'a str, u64)> {
    map.get_by(key)
        .map(|(key, cell)| (key.as_str(), cell.stamp().time))
}

#[test]
fn finds_entries_by_key(rt: HostRuntime) {
    let map = two(&rt, rt.alloc());
    let found = entry_of(&map, &lang(&rt, rt.alloc(), "en"));
    assert!(rt; found == Some(("en", 7)));
}

/// The time of the cell of the language of this text.
fn time_of(map: &Keyed<Lang, Cell>, text: &str) -> Option<u64> {
    map.get_by(text).map(|(_, cell)| cell.stamp().time)
}

fn put_late(rt: &impl Abort, alloc: Global, map: &mut Keyed<Lang, Cell>, tag: &str) {
    put(rt, map, lang(rt, alloc, tag), deleted(stamp(rt, 9, "a", 0)));
}

#[test]
fn puts_a_held_key(rt: HostRuntime) {
    let mut map = two(&rt, rt.alloc());
    put_late(&rt, rt.alloc(), &mut map, "en");
    assert!(rt; time_of(&map, "en") == Some(9));
    assert!(rt; time_of(&map, "fr") == Some(6));
    assert!(rt; map.len() == 2);
}

/// Gives the language a deletion of this time, where it is held.
fn delete(rt: &impl Abort, map: &mut Keyed<Lang, Cell>, key: &Lang, time: u64) -> bool {
    match map.get_mut(key) {
        Some(cell) => {
            *cell = deleted(stamp(rt, time, "a", 0));
            true
        }
        None => false,
    }
}

#[test]
fn changes_in_place(rt: HostRuntime) {
    let mut map = two(&rt, rt.alloc());
    assert!(rt; delete(&rt, &mut map, &lang(&rt, rt.alloc(), "fr"), 9));
    assert!(rt; !delete(&rt, &mut map, &Lang::none(), 9));
    assert!(rt; time_of(&map, "fr") == Some(9));
    assert!(rt; time_of(&map, "@none").is_none());
}

fn tag_at(map: &Keyed<Lang, Cell>, place: usize) -> Option<&str> {
    map.nth(place).map(|entry| entry.0.as_str())
}

#[test]
fn stands_in_order_of_keys(rt: HostRuntime) {
    let mut map = two(&rt, rt.alloc());
    put(&rt, &mut map, Lang::none(), deleted(stamp(&rt, 1, "a", 0)));
    assert!(rt; tag_at(&map, 0) == Some("@none"));
    assert!(rt; tag_at(&map, 1) == Some("en"));
    assert!(rt; tag_at(&map, 2) == Some("fr"));
    assert!(rt; tag_at(&map, 3).is_none());
}

fn last_tag(map: &Keyed<Lang, Cell>) -> Option<&str> {
    map.last().map(|entry| entry.0.as_str())
}

#[test]
fn the_last_has_the_greatest_key(rt: HostRuntime) {
    let mut map = two(&rt, rt.alloc());
    assert!(rt; last_tag(&map) == Some("fr"));
    put_late(&rt, rt.alloc(), &mut map, "sr-Latn");
    assert!(rt; last_tag(&map) == Some("sr-latn"));
}

#[test]
fn an_empty_map_has_no_last(rt: HostRuntime) {
    assert!(rt; last_tag(&Keyed::new(rt.alloc())).is_none());
}

/// Whether the map is that of the label "a" in English.
fn is_english_a(rt: &impl Abort, alloc: Global, map: &Keyed<Lang, Cell>) -> bool {
    *map == one(rt, alloc, "en", "a")
}

#[test]
fn maps_of_other_entries_differ(rt: HostRuntime) {
    assert!(rt; !is_english_a(&rt, rt.alloc(), &two(&rt, rt.alloc())));
    assert!(rt; !is_english_a(&rt, rt.alloc(), &one(&rt, rt.alloc(), "en", "b")));
    assert!(rt; !is_english_a(&rt, rt.alloc(), &one(&rt, rt.alloc(), "fr", "a")));
}
