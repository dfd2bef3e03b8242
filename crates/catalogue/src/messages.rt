//! The messages of a catalogue that have live labels, one by one.

ghost use Rattle.std.specs.Prelude.{◌≡◌};
ghost use Rattle.std.specs.Option.{is_some};
ghost use Rattle.catalogue.specs.Live.{live_of};
ghost use Rattle.catalogue.specs.LiveMessages.{if_any};

use crate::labels::Labels;
use crate::live::Live;
use crate::reply::LentReply;
use cell_core::{Cell, Iter, Keyed, Label, MessageId};
use lang_core::Lang;
use nego_core::{Offer, PriorityList, Shortlist, Widening};
use std::marker::Model;

/// A message with its live labels, borrowed from the catalogue.
#[derive(Debug, Drop)]
pub struct Message<'a> {
    id: &'a MessageId,
    cells: &'a Keyed<Lang, Cell>,
}

impl<'a> Model for Message<'a> {
    ghost use Rattle.catalogue.specs.Live.{live_of};
    ghost use Rattle.catalogue.specs.LiveMessages.{LiveMessage};

    ghost Value = { LiveMessage };

    ghost view = { λ m. (m.id.now, live_of m.cells.now) };
}

impl<'a> Message<'a> {
    ghost use Rattle.std.specs.FinMap.Entries.{find};
    ghost use Rattle.std.specs.Option.{option_copied, option_map};
    ghost use Rattle.catalogue.specs.Asking.{IsLookedUpIn, IsLookedUpOf};
    ghost use Rattle.cell_core.specs.Entry.{text_cmp};
    ghost use Rattle.catalogue.specs.LiveReplies.{IsOfLabels};
    ghost use Rattle.catalogue.specs.Reply.{reply_of};
    ghost use Rattle.catalogue.specs.Live.{languages};
    ghost use Rattle.catalogue.specs.Labels.{labels_left};
    ghost use Rattle.catalogue.specs.EntriesOffered.{offered_labels};
    ghost use Rattle.nego_core.specs.Offer.{items_of};
    ghost use Rattle.nego_core.specs.Shortlist.{AreAmong};

    /// Its id.
    pub fn id(&self) -> &'a MessageId
        ensures { result.now ≡ self.now.0 }
    {
        self.id
    }

    /// Its live labels, in ascending order of the languages' bytes.
    pub fn labels(&self) -> Labels<'a>
        ensures { labels_left result ≡ self.now.1 }
    {
        Labels::new(Some(self.cells))
    }

    /// Its live label in just this language.
    pub fn label(&self, lang: &Lang) -> Option<&'a Label>
        ensures { option_copied result ≡ find text_cmp lang.now self.now.1 }
    {
        match self.cells.get(lang) {
            Some(cell) => cell.label(),
            None => None,
        }
    }

    /// Its live label that the list looks up (RFC 4647, section 3.4), or that of the default, or
    /// nothing: what [`Catalogue::ask_lookup`](crate::Catalogue::ask_lookup) answers for its id,
    /// without a search for it.
    ///
    /// It takes no memory. A default is available only where it has a live label.
    pub fn lookup(&self, list: &PriorityList, default: Option<&Lang>) -> LentReply<'a>
        ensures { IsLookedUpOf self.now.1 list.now (option_map (λ l. l.now) default.entry)
            (reply_of result) }
    {
        self.lookup_by(list, Widening::Off, default)
    }

    /// Its live label that the list looks up, where a range may find the languages that it matches
    /// too: what [`Catalogue::ask_lookup_by`](crate::Catalogue::ask_lookup_by) answers for its id,
    /// without a search for it.
    ///
    /// It takes no memory. A default is available only where it has a live label.
    pub fn lookup_by(
        &self,
        list: &PriorityList,
        widening: Widening,
        default: Option<&Lang>,
    ) -> LentReply<'a>
        ensures { IsLookedUpIn widening self.now.1 list.now
            (option_map (λ l. l.now) default.entry) (reply_of result) }
    {
        Live::new(Some(self.cells), Offer::All).look_up(list, widening, default)
    }

    /// What [`Message::lookup_by`] answers by the whole list without the labels that are not
    /// offered, where the shortlist ranks languages among which are all of its own. For all
    /// messages of a catalogue these are its [`languages`](crate::Catalogue::languages). By any
    /// other shortlist it answers a label of the message that is offered, under its own language,
    /// or nothing.
    ///
    /// It takes no memory, and tries no more languages than are ranked.
    pub fn lookup_within(
        &self,
        offer: Offer<'_>,
        shortlist: &Shortlist<'_>,
        default: Option<&Lang>,
    ) -> LentReply<'a>
        ensures within { AreAmong (languages self.now.1) shortlist.now.langs
            → IsLookedUpIn shortlist.now.widening (offered_labels (items_of offer.entry) self.now.1)
            shortlist.now.items (option_map (λ l. l.now) default.entry) (reply_of result) }
        ensures there { IsOfLabels (offered_labels (items_of offer.entry) self.now.1)
            (reply_of result) }
    {
        Live::new(Some(self.cells), offer).look_up_within(shortlist, default)
    }
}

/// Iterates over the messages of a catalogue that have a live label, in ascending order of the ids'
/// bytes.
#[derive(Debug, Drop)]
pub struct Messages<'a> {
    messages: Iter<'a, MessageId, Keyed<Lang, Cell>>,
}

impl<'a> Messages<'a> {
    ghost use Rattle.catalogue.specs.Messages.{live_messages, messages_left};

    /// The messages of these cells.
    pub(crate) fn new(map: &'a Keyed<MessageId, Keyed<Lang, Cell>>) -> Messages<'a>
        ensures { messages_left result ≡ live_messages map.now }
    {
        Messages {
            messages: map.iter(),
        }
    }
}

/// Gives the messages that are left, in ascending order of id.
impl<'a> Iterator for Messages<'a> {
    type Item = Message<'a>;

    ghost use Rattle.std.specs.Iterator.{YieldsFirst, item_count};
    ghost use Rattle.catalogue.specs.Messages.{messages_left};

    ghost next_gives = { YieldsFirst messages_left };

    ghost remaining = { item_count messages_left };

    fn next(&mut self) -> Option<Message<'a>> {
        while let Some((id, cells)) = self.messages.next() {
            if has_label(cells) {
                return Some(Message { id, cells });
            }
        }
        None
    }
}

/// Whether some cell has a label.
fn has_label(cells: &Keyed<Lang, Cell>) -> bool
    ensures { result ≡ is_some (if_any (live_of cells.now)) }
{
    match Labels::new(Some(cells)).next() {
        Some(_) => true,
        None => false,
    }
}
