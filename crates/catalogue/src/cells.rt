//! The cells of a catalogue, one by one.

ghost use Rattle.std.specs.Iterator.{YieldsFirstBy, item_count};

use cell_core::{Cell, Iter, Keyed, MessageId};
use lang_core::Lang;

/// Iterates over the cells of a catalogue, each with its message and language, in ascending order
/// of key.
#[derive(Debug, Drop)]
pub struct Cells<'a> {
    current: Option<MessageCells<'a>>,
    messages: Iter<'a, MessageId, Keyed<Lang, Cell>>,
}

impl<'a> Cells<'a> {
    ghost use Rattle.std.specs.Prelude.{◌≡◌};
    ghost use Rattle.catalogue.specs.CatalogueFlat.{flat};
    ghost use Rattle.catalogue.specs.Cells.{cells_left};

    /// All cells of a map of maps, in ascending order of key.
    pub fn new(map: &'a Keyed<MessageId, Keyed<Lang, Cell>>) -> Cells<'a>
        ensures { cells_left result ≡ flat map.now }
    {
        Cells {
            current: None,
            messages: map.iter(),
        }
    }
}

/// Gives the cells that are left, in ascending order of key.
impl<'a> Iterator for Cells<'a> {
    type Item = (&'a MessageId, &'a Lang, &'a Cell);

    ghost use Rattle.catalogue.specs.Cells.{cells_left};

    ghost next_gives = { YieldsFirstBy (λ x. ((x.0.now, x.1.now), x.2.now)) cells_left };

    ghost remaining = { item_count cells_left };

    fn next(&mut self) -> Option<(&'a MessageId, &'a Lang, &'a Cell)> {
        loop {
            if let Some(message) = &mut self.current {
                if let Some(found) = message.next() {
                    return Some(found);
                }
            }
            let (id, cells) = self.messages.next()?;
            self.current = Some(MessageCells {
                id,
                cells: cells.iter(),
            });
        }
    }
}

/// Iterates over the cells of a message, each with the message and its language, in ascending order
/// of language.
#[derive(Debug, Drop)]
struct MessageCells<'a> {
    id: &'a MessageId,
    cells: Iter<'a, Lang, Cell>,
}

impl<'a> Iterator for MessageCells<'a> {
    type Item = (&'a MessageId, &'a Lang, &'a Cell);

    ghost use Rattle.catalogue.specs.Cells.{message_left};

    ghost next_gives = { YieldsFirstBy (λ x. ((x.0.now, x.1.now), x.2.now)) message_left };

    ghost remaining = { item_count message_left };

    fn next(&mut self) -> Option<(&'a MessageId, &'a Lang, &'a Cell)> {
        let (lang, cell) = self.cells.next()?;
        Some((self.id, lang, cell))
    }
}
