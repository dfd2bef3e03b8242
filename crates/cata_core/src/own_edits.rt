//! Edits of a site's own that it lacks.
//!
//! What a site made it holds, or something later at that key. So a row that brings such an edit
//! shows that the site was put back to an older copy, or that two sites have one name.

ghost use Rattle.std.specs.Prelude.{◌↔◌, ◌<◌, ◌^◌, IsTrue, MatchOption, length};
ghost use Rattle.std.specs.FinMap.Entries.{find};
ghost use Rattle.cell_core.specs.Entry.{key_cmp};
ghost use Rattle.cata_core.specs.Delta.{HasAtLeast};
ghost use Rattle.cata_core.specs.OwnEdits.{IsFirstLacked, IsLackedEdit, LacksNoEdit};

use catalogue::Catalogue;
use cell_core::{Cell, MessageId, SiteName, Stamp};
use lang_core::Lang;

/// The first of these rows, counted from 0 in ascending order of key, that is an edit of the site
/// of this name and of whose key the cells have nothing, or a lesser stamp.
pub(crate) fn first_lacked(name: SiteName, cells: &Catalogue, rows: &Catalogue) -> Option<usize>
    ensures { length rows.now < 2 ^ 64
        → MatchOption result (LacksNoEdit name cells.now rows.now)
        (IsFirstLacked name cells.now rows.now) }
{
    let mut row = 0usize;
    for (id, lang, cell) in rows.iter() {
        if is_lacked(name, cells, id, lang, cell) {
            return Some(row);
        }
        row = row.saturating_add(1);
    }
    None
}

/// Whether the cell of this key is an edit of the site that the cells lack.
fn is_lacked(name: SiteName, cells: &Catalogue, id: &MessageId, lang: &Lang, cell: &Cell) -> bool
    ensures { IsTrue result ↔ IsLackedEdit name cells.now ((id.now, lang.now), cell.now) }
{
    let stamp = cell.stamp();
    stamp.site == name && !has_at_least(cells, id, lang, stamp)
}

/// Whether the cells have a stamp at the key, and none that is less than this one.
fn has_at_least(cells: &Catalogue, id: &MessageId, lang: &Lang, stamp: Stamp) -> bool
    ensures { IsTrue result ↔ HasAtLeast (find key_cmp (id.now, lang.now) cells.now) stamp }
{
    match cells.cell(id, lang) {
        Some(held) => !held.stamp().cmp(&stamp).is_lt(),
        None => false,
    }
}
