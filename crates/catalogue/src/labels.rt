//! The live labels of a message, one by one.

ghost use Rattle.std.specs.Prelude.{◌≡◌};
ghost use Rattle.std.specs.Iterator.{YieldsFirstBy, item_count};
ghost use Rattle.catalogue.specs.Labels.{live_left};

use cell_core::{Cell, Iter, Keyed, Label};
use lang_core::Lang;

/// Iterates over the languages of a message whose cell has a label, each with its label, in
/// ascending order of their bytes.
#[derive(Debug, Drop)]
pub struct Labels<'a> {
    cells: Option<Iter<'a, Lang, Cell>>,
}

impl<'a> Labels<'a> {
    ghost use Rattle.std.specs.Option.{option_copied};
    ghost use Rattle.catalogue.specs.inner.CatalogueFlat.{inner_of};
    ghost use Rattle.cell_core.specs.Keyed.{IsMap};
    ghost use Rattle.cell_core.specs.Entry.{text_cmp};
    ghost use Rattle.catalogue.specs.Live.{live_of};
    ghost use Rattle.catalogue.specs.Labels.{labels_left};

    /// The live labels of these cells.
    pub(crate) fn new(cells: Option<&'a Keyed<Lang, Cell>>) -> Labels<'a>
        ensures labels { labels_left result ≡ live_of (inner_of (option_copied cells.entry)) }
        ensures ascend { IsMap text_cmp (labels_left result) }
    {
        match cells {
            Some(cells) => Labels {
                cells: Some(cells.iter()),
            },
            None => Labels { cells: None },
        }
    }
}

/// Gives the live labels that are left, in ascending order of language.
impl<'a> Iterator for Labels<'a> {
    type Item = (&'a Lang, &'a Label);

    ghost use Rattle.catalogue.specs.Labels.{labels_left};

    ghost next_gives = { YieldsFirstBy (λ x. (x.0.now, x.1.now)) labels_left };

    ghost remaining = { item_count labels_left };

    fn next(&mut self) -> Option<(&'a Lang, &'a Label)> {
        match &mut self.cells {
            Some(cells) => next_live(cells),
            None => None,
        }
    }
}

/// The first cell that is left and has a label, with its language.
fn next_live<'a>(cells: &mut Iter<'a, Lang, Cell>) -> Option<(&'a Lang, &'a Label)>
    ensures { YieldsFirstBy (λ x. (x.0.now, x.1.now)) live_left cells.old result cells.new }
{
    while let Some((lang, cell)) = cells.next() {
        if let Some(label) = cell.label() {
            return Some((lang, label));
        }
    }
    None
}
