//! Where two catalogues do not agree.

ghost use Rattle.std.specs.Prelude.{ℕ, ◌<◌, MatchOption, length};
ghost use Rattle.catalogue.specs.CatalogueFlat.{flat};
ghost use Rattle.cell_core.specs.Entry.{text_cmp, key_cmp};
ghost use Rattle.catalogue.specs.Entries.{Agree};
ghost use Rattle.catalogue.specs.CatalogueNested.{IsCatalogue};
ghost use Rattle.catalogue.specs.inner.CatalogueNested.{IsCountable};
ghost use Rattle.catalogue.specs.Clash.{AgreesAt, IsFirstClash};

use cell_core::{Cell, Join, Keyed, MessageId, Stamp};
use lang_core::Lang;

/// The first place whose cell does not agree with the other's, and the stamp there.
pub(crate) fn first_clash(
    mine: &Keyed<MessageId, Keyed<Lang, Cell>>,
    theirs: &Keyed<MessageId, Keyed<Lang, Cell>>,
) -> Option<(u128, Stamp)>
    requires mine { IsCatalogue mine.now }
    requires fits { IsCountable mine.now }
    requires theirs { IsCatalogue theirs.now }
    ensures { MatchOption result (Agree (flat mine.now) (flat theirs.now))
        (λ clash. IsFirstClash key_cmp (flat mine.now) (flat theirs.now) clash.0 clash.1) }
{
    // Most maps agree, and that is seen in the time for the smaller.
    if mine.agrees(theirs) {
        return None;
    }
    find_clash(mine, theirs)
}

/// The first place whose cell does not agree, message by message.
fn find_clash(
    mine: &Keyed<MessageId, Keyed<Lang, Cell>>,
    theirs: &Keyed<MessageId, Keyed<Lang, Cell>>,
) -> Option<(u128, Stamp)>
    requires mine { IsCatalogue mine.now }
    requires fits { IsCountable mine.now }
    requires theirs { IsCatalogue theirs.now }
    ensures { MatchOption result (Agree (flat mine.now) (flat theirs.now))
        (λ clash. IsFirstClash key_cmp (flat mine.now) (flat theirs.now) clash.0 clash.1) }
{
    let mut front = 0u128;
    for (id, cells) in mine.iter() {
        if let Some(others) = theirs.get(id) {
            if let Some((place, stamp)) = find_clash_in(cells, others) {
                return Some((front + place as u128, stamp));
            }
        }
        front += cells.len() as u128;
    }
    None
}

/// The first place within a message whose cell does not agree, and the stamp there.
fn find_clash_in(mine: &Keyed<Lang, Cell>, theirs: &Keyed<Lang, Cell>) -> Option<(usize, Stamp)>
    ensures { MatchOption result
        ((j : ℕ) → j < length mine.now → AgreesAt text_cmp mine.now theirs.now j)
        (λ clash. IsFirstClash text_cmp mine.now theirs.now clash.0 clash.1) }
{
    // No map has more entries than a `usize` counts.
    let _languages = mine.len();
    let mut place = 0;
    for (lang, cell) in mine.iter() {
        if let Some(other) = theirs.get(lang) {
            if !cell.agrees(other) {
                return Some((place, cell.stamp()));
            }
        }
        place += 1;
    }
    None
}
