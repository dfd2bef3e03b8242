//! The live labels of a message, as a set of languages.

ghost use Rattle.std.specs.Prelude.{◌≡◌, ◌++◌, ◌∷◌, [], ℕ, List, filter};
ghost use Rattle.std.specs.FinMap.Entries.{find};
ghost use Rattle.cell_core.specs.Entry.{text_cmp};
ghost use Rattle.catalogue.specs.Live.{languages, live_of};
ghost use Rattle.catalogue.specs.Labels.{labels_left};
ghost use Rattle.catalogue.specs.EntriesOffered.{offered_labels};
ghost use Rattle.nego_core.specs.Offer.{is_offered, items_of};
ghost use Rattle.nego_core.specs.WidenedChoice.{MatchEarliest};
ghost use Rattle.std.specs.Option.{option_map};
ghost use Rattle.cell_core.specs.KeyedFound.{with_key};
ghost use Rattle.catalogue.specs.inner.ReplyBorrowed.{lent_pair};

use crate::labels::Labels;
use crate::reply::LentReply;
use cell_core::{Cell, Keyed, Label};
use lang_core::Lang;
use nego_core::{
    Choice, Earliest, Holds, Languages, Offer, PriorityList, Shortlist, WidenedRanges, Widening,
    choose, choose_widened,
};

/// The live labels of a message that are offered, which a lookup searches by their languages'
/// texts.
#[derive(Drop)]
pub(crate) struct Live<'a, 'o> {
    cells: Option<&'a Keyed<Lang, Cell>>,
    offer: Offer<'o>,
}

impl<'a, 'o> Live<'a, 'o> {
    ghost use Rattle.std.specs.Option.{option_copied};
    ghost use Rattle.catalogue.specs.Asking.{IsLookedUpIn};
    ghost use Rattle.catalogue.specs.inner.Asking.{IsChosenIn};
    ghost use Rattle.catalogue.specs.inner.CatalogueFlat.{inner_of};
    ghost use Rattle.catalogue.specs.Reply.{reply_of};
    ghost use Rattle.catalogue.specs.inner.LiveIn.{live_in};
    ghost use Rattle.catalogue.specs.LiveReplies.{IsOfLabels};
    ghost use Rattle.catalogue.specs.inner.LiveReplies.{IsReplyTo};
    ghost use Rattle.nego_core.specs.Shortlist.{AreAmong, IsThere};

    /// The live labels of these cells that are offered.
    pub(crate) fn new(cells: Option<&'a Keyed<Lang, Cell>>, offer: Offer<'o>) -> Live<'a, 'o>
        ensures { live_in result ≡ offered_labels (items_of offer.entry)
            (live_of (inner_of (option_copied cells.entry))) }
    {
        Live { cells, offer }
    }

    /// The language of this text with its label, where it is live and offered.
    pub(crate) fn label(&self, text: &str) -> Option<(&'a Lang, &'a Label)>
        ensures { lent_pair result ≡ with_key text.now (find text_cmp text.now (live_in self.now)) }
    {
        match self.cells {
            Some(cells) => label_in(cells, self.offer, text),
            None => None,
        }
    }

    /// The live label that the list looks up, widened or not, or that of the default, or nothing.
    pub(crate) fn look_up(
        &self,
        list: &PriorityList,
        widening: Widening,
        default: Option<&Lang>,
    ) -> LentReply<'a>
        ensures { IsLookedUpIn widening (live_in self.now) list.now
            (option_map (λ l. l.now) default.entry) (reply_of result) }
    {
        self.reply(self.choose(list, widening, default), default)
    }

    /// The same by a shortlist, of languages that have all of the live labels. In any case the
    /// reply has a live label of these, under its own language.
    pub(crate) fn look_up_within(
        &self,
        shortlist: &Shortlist<'_>,
        default: Option<&Lang>,
    ) -> LentReply<'a>
        ensures within { AreAmong (languages (live_in self.now)) shortlist.now.langs
            → IsLookedUpIn shortlist.now.widening (live_in self.now) shortlist.now.items
            (option_map (λ l. l.now) default.entry) (reply_of result) }
        ensures there { IsOfLabels (live_in self.now) (reply_of result) }
    {
        self.reply(shortlist.choose(self, default), default)
    }

    /// The choice, with its label.
    fn reply(&self, choice: Choice<'_>, default: Option<&Lang>) -> LentReply<'a>
        requires { IsThere (languages (live_in self.now)) (option_map (λ l. l.now) default) choice }
        ensures { IsReplyTo (live_in self.now) (option_map (λ l. l.now) default.entry) choice.entry
            (reply_of result) }
    {
        match choice {
            Choice::Matched(text) => match self.label(text) {
                Some((lang, label)) => LentReply::Matched(lang, label),
                None => unreachable!(),
            },
            Choice::Default => match default {
                Some(default) => match self.label(default.as_str()) {
                    Some((lang, label)) => LentReply::Default(lang, label),
                    None => unreachable!(),
                },
                None => unreachable!(),
            },
            Choice::Nothing => LentReply::Nothing,
        }
    }

    /// The language that the list looks up, widened or not, or that the default is to be answered.
    fn choose<'b>(
        &'b self,
        list: &'b PriorityList,
        widening: Widening,
        default: Option<&Lang>,
    ) -> Choice<'b>
        ensures { IsChosenIn widening (live_in self.now) list.now
            (option_map (λ l. l.now) default.entry) result }
    {
        match widening {
            Widening::Off => choose(list, self, default),
            Widening::By(scheme) => choose_widened(list, scheme, self, default),
        }
    }
}

impl Holds for Live<'_, '_> {
    ghost use Rattle.catalogue.specs.Live.{is_live};
    ghost use Rattle.catalogue.specs.inner.LiveIn.{live_in};

    ghost held = { λ l. is_live (live_in l) };

    fn holds(&self, lang: &str) -> bool {
        self.label(lang).is_some()
    }
}

impl Languages for Live<'_, '_> {
    ghost use Rattle.catalogue.specs.Live.{languages};
    ghost use Rattle.catalogue.specs.inner.LiveIn.{live_in};

    ghost texts = { λ l. languages (live_in l) };

    fn has(&self, lang: &str) -> bool {
        self.label(lang).is_some()
    }

    fn earliest(&self, ranges: &WidenedRanges<'_>) -> Option<Earliest<'_>> {
        earliest_of(Labels::new(self.cells), self.offer, ranges)
    }
}

/// Of the languages that are offered and that the ranges match the earliest.
fn earliest_of<'a>(
    labels: Labels<'a>,
    offer: Offer<'_>,
    ranges: &WidenedRanges<'_>,
) -> Option<Earliest<'a>>
    ensures { MatchEarliest ranges.now.scheme ranges.now.list.now
        (languages (offered_labels (items_of offer.entry) (labels_left labels.entry))) result }
{
    let mut earliest = None;
    for (lang, _label) in labels {
        earliest = earlier_of(earliest, lang, offer, ranges);
    }
    earliest
}

/// The earlier of the languages, with this one where it is offered.
fn earlier_of<'a>(
    earliest: Option<Earliest<'a>>,
    lang: &'a Lang,
    offer: Offer<'_>,
    ranges: &WidenedRanges<'_>,
) -> Option<Earliest<'a>>
    ensures { (langs : List (List ℕ))
        → MatchEarliest ranges.now.scheme ranges.now.list.now langs earliest.entry
        → MatchEarliest ranges.now.scheme ranges.now.list.now
        (langs ++ filter (is_offered (items_of offer.entry)) (lang.now ∷ [])) result }
{
    if offer.offers(lang) {
        ranges.earlier(earliest, lang)
    } else {
        earliest
    }
}

/// The language of this text with its label, where it is live and offered.
fn label_in<'a>(
    cells: &'a Keyed<Lang, Cell>,
    offer: Offer<'_>,
    text: &str,
) -> Option<(&'a Lang, &'a Label)>
    ensures { lent_pair result ≡ with_key text.now
        (find text_cmp text.now (offered_labels (items_of offer.entry) (live_of cells.now))) }
{
    match live_label_in(cells, text) {
        Some((lang, label)) if offer.offers(lang) => Some((lang, label)),
        _ => None,
    }
}

/// The language of this text with its label, where it is live.
fn live_label_in<'a>(cells: &'a Keyed<Lang, Cell>, text: &str) -> Option<(&'a Lang, &'a Label)>
    ensures { lent_pair result ≡ with_key text.now (find text_cmp text.now (live_of cells.now)) }
{
    match cells.get_by(text) {
        Some((lang, cell)) => match cell.label() {
            Some(label) => Some((lang, label)),
            None => None,
        },
        None => None,
    }
}
