//! The places of the cells of a map of maps, and their number.

ghost use Rattle.std.specs.Prelude.{◌≡◌, ◌-◌, length, slice_get};
ghost use Rattle.std.specs.Option.{option_map};
ghost use Rattle.cell_core.specs.inner.KeyedPlaces.{place_of};
ghost use Rattle.catalogue.specs.CatalogueFlat.{flat};
ghost use Rattle.cell_core.specs.Entry.{text_cmp, key_cmp};
ghost use Rattle.catalogue.specs.CatalogueNested.{IsCatalogue};
ghost use Rattle.catalogue.specs.inner.CatalogueNested.{IsCountable};

use cell_core::{Cell, Keyed, MessageId};
use lang_core::Lang;
use std::cmp::Ordering;

/// How many cells there are.
pub(crate) fn count(map: &Keyed<MessageId, Keyed<Lang, Cell>>) -> u128
    ensures { result ≡ length (flat map.now) }
{
    // No map has more entries than a `usize` counts.
    let _messages = map.len();
    let mut total = 0u128;
    for (_, cells) in map.iter() {
        total += cells.len() as u128;
    }
    total
}

/// How many cells have smaller keys.
pub(crate) fn place(map: &Keyed<MessageId, Keyed<Lang, Cell>>, id: &MessageId, lang: &Lang) -> u128
    requires nested { IsCatalogue map.now }
    requires fits { IsCountable map.now }
    ensures { result ≡ place_of key_cmp (id.now, lang.now) (flat map.now) }
{
    let mut total = 0u128;
    for (key, cells) in map.iter() {
        match id.cmp(key) {
            Ordering::Less => return total,
            Ordering::Equal => return total + place_in(cells, lang) as u128,
            Ordering::Greater => total += cells.len() as u128,
        }
    }
    total
}

/// The cell at a place, with its keys.
pub(crate) fn entry(
    map: &Keyed<MessageId, Keyed<Lang, Cell>>,
    place: u128,
) -> Option<(&MessageId, &Lang, &Cell)>
    ensures { option_map (λ e. ((e.0.now, e.1.now), e.2.now)) result
        ≡ slice_get (flat map.now) place }
{
    let mut left = place;
    for (id, cells) in map.iter() {
        let count = cells.len() as u128;
        if left < count {
            return match cells.nth(left as usize) {
                Some((lang, cell)) => Some((id, lang, cell)),
                None => None,
            };
        }
        left -= count;
    }
    None
}

/// The last cell, with its keys.
pub(crate) fn last(map: &Keyed<MessageId, Keyed<Lang, Cell>>) -> Option<(&MessageId, &Lang, &Cell)>
    requires { IsCatalogue map.now }
    ensures { option_map (λ e. ((e.0.now, e.1.now), e.2.now)) result
        ≡ slice_get (flat map.now) (length (flat map.now) - 1) }
{
    let (id, cells) = map.last()?;
    let (lang, cell) = cells.last()?;
    Some((id, lang, cell))
}

/// How many of the languages are smaller.
fn place_in(cells: &Keyed<Lang, Cell>, lang: &Lang) -> usize
    ensures { result ≡ place_of text_cmp lang.now cells.now }
{
    // No map has more entries than a `usize` counts.
    let _languages = cells.len();
    let mut place = 0;
    for (key, _) in cells.iter() {
        if !lang.cmp(key).is_gt() {
            return place;
        }
        place += 1;
    }
    place
}
