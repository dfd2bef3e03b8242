//! The live labels of a message that is seen, as languages that a lookup searches.
ghost use Rattle.std.specs.Prelude.{◌≡◌, ◌++◌, ◌∷◌, ◌&&◌, [], List, ℕ, IfSome};
ghost use Rattle.std.specs.Prelude.{is_some, option_map};
ghost use Rattle.std.specs.Ordering.{is_eq};
ghost use Rattle.std.specs.FinMap.Entries.{find};
ghost use Rattle.cell_core.specs.KeyedFound.{with_key};
ghost use Rattle.nego_core.specs.WidenedChoice.{MatchEarliest};
ghost use Rattle.catalogue.specs.Asking.{IsLookedUpIn};
ghost use Rattle.catalogue.specs.inner.Asking.{IsChosenIn};
ghost use Rattle.cell_core.specs.Entry.{text_cmp};
ghost use Rattle.catalogue.specs.Live.{is_live, languages};
ghost use Rattle.catalogue.specs.declared.reply.Reply.{Reply};
ghost use Rattle.site_docs.specs.Sink.{IsLabelRef, texts_of};
ghost use Rattle.query_docs.specs.inner.ByMessage.{AreLabelRefs};
ghost use Rattle.query_docs.specs.inner.LiveCells.{found_in, labels_of};
ghost use Rattle.query_docs.specs.LiveCellsLookup.{answered};

use crate::by_message::MessageCell;
use lang_core::Lang;
use nego_core::{
    Choice, Earliest, Holds, Languages, PriorityList, WidenedRanges, Widening, choose,
    choose_widened,
};

/// The cells of a message, of which those with a label are searched.
#[derive(Clone, Copy)]
pub(crate) struct LiveCells<'c, 't> {
    cells: &'c [MessageCell<'t>],
}

impl<'c, 't> LiveCells<'c, 't> {
    /// Those of these cells.
    pub(crate) fn new(cells: &'c [MessageCell<'t>]) -> LiveCells<'c, 't>
        ensures { result.cells.now ≡ cells.now }
    {
        LiveCells { cells }
    }

    /// The cell whose label the list looks up, widened or not, or that of the default.
    pub(crate) fn look_up(
        &self,
        list: &PriorityList,
        widening: Widening,
        default: Option<&Lang>,
    ) -> Option<&'c MessageCell<'t>>
        requires { AreLabelRefs self.now.cells.now }
        ensures reply { (reply : Reply) × IsLookedUpIn widening (labels_of self.now.cells.now)
            list.now (option_map (λ l. l.now) default.entry) reply
            × (found_in result ≡ answered reply) }
        ensures label { IfSome result (λ cell. IsLabelRef cell.now.label) }
    {
        match self.choose(list, widening, default) {
            Choice::Matched(text) => live_cell(self.cells, text),
            Choice::Default => match default {
                Some(default) => live_cell(self.cells, default.as_str()),
                None => None,
            },
            Choice::Nothing => None,
        }
    }

    /// The language that the list looks up, widened or not, or that the default is to be answered.
    fn choose<'b>(
        &'b self,
        list: &'b PriorityList,
        widening: Widening,
        default: Option<&Lang>,
    ) -> Choice<'b>
        ensures { IsChosenIn widening (labels_of self.now.cells.now) list.now
            (option_map (λ l. l.now) default.entry) result }
    {
        match widening {
            Widening::Off => choose(list, self, default),
            Widening::By(scheme) => choose_widened(list, scheme, self, default),
        }
    }
}

impl Holds for LiveCells<'_, '_> {
    ghost use Rattle.catalogue.specs.Live.{is_live};
    ghost use Rattle.query_docs.specs.inner.LiveCells.{labels_of};

    ghost held = { λ live. is_live (labels_of live.cells.now) };

    fn holds(&self, lang: &str) -> bool {
        has_label(self.cells, lang)
    }
}

impl Languages for LiveCells<'_, '_> {
    ghost use Rattle.catalogue.specs.Live.{languages};
    ghost use Rattle.query_docs.specs.inner.LiveCells.{labels_of};

    ghost texts = { λ live. languages (labels_of live.cells.now) };

    fn has(&self, lang: &str) -> bool {
        has_label(self.cells, lang)
    }

    fn earliest(&self, ranges: &WidenedRanges<'_>) -> Option<Earliest<'_>> {
        earliest_of(self.cells, ranges)
    }
}

/// Whether the language of this text has a label.
fn has_label(cells: &[MessageCell<'_>], text: &str) -> bool
    ensures { result ≡ is_live (labels_of cells.now) text.now }
{
    live_cell(cells, text).is_some()
}

/// The cell of the language of this text, where it has a label.
fn live_cell<'c, 't>(cells: &'c [MessageCell<'t>], text: &str) -> Option<&'c MessageCell<'t>>
    ensures found { found_in result
        ≡ with_key text.now (find text_cmp text.now (labels_of cells.now)) }
    ensures there { is_some result ≡ is_live (labels_of cells.now) text.now }
    ensures label { IfSome result
        (λ cell. AreLabelRefs cells.now → IsLabelRef cell.now.label) }
{
    for cell in cells {
        if is_live_in(cell, text) {
            return Some(cell);
        }
    }
    None
}

/// Whether the cell is of the language of this text, and has a label.
fn is_live_in(cell: &MessageCell<'_>, text: &str) -> bool
    ensures { result
        ≡ (is_eq (text_cmp text.now cell.now.lang) && is_some (texts_of cell.now.label)) }
{
    text.cmp(cell.lang.as_str()).is_eq() && cell.label.is_label()
}

/// Of the languages that have a label and that the ranges match the earliest.
fn earliest_of<'c>(cells: &'c [MessageCell<'_>], ranges: &WidenedRanges<'_>) -> Option<Earliest<'c>>
    ensures { MatchEarliest ranges.now.scheme ranges.now.list.now
        (languages (labels_of cells.now)) result }
{
    let mut earliest = None;
    for cell in cells {
        earliest = earlier_of(earliest, cell, ranges);
    }
    earliest
}

/// The earlier of the languages, with that of the cell where it has a label.
fn earlier_of<'c>(
    earliest: Option<Earliest<'c>>,
    cell: &'c MessageCell<'_>,
    ranges: &WidenedRanges<'_>,
) -> Option<Earliest<'c>>
    ensures { (langs : List (List ℕ))
        → MatchEarliest ranges.now.scheme ranges.now.list.now langs earliest.entry
        → MatchEarliest ranges.now.scheme ranges.now.list.now
        (langs ++ languages (labels_of (cell.now ∷ []))) result }
{
    if cell.label.is_label() {
        ranges.earlier(earliest, &cell.lang)
    } else {
        earliest
    }
}
