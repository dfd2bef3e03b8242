//! What a catalogue answers to a priority list.

ghost use Rattle.std.specs.Prelude.{◌≡◌, ℕ, List, IfOk};
ghost use Rattle.std.specs.Option.{option_map};
ghost use Rattle.cell_core.specs.Keyed.{IsMap};
ghost use Rattle.cell_core.specs.Entry.{text_cmp};
ghost use Rattle.catalogue.specs.Live.{live, languages};
ghost use Rattle.nego_core.specs.Filtering.{texts_of};
ghost use Rattle.catalogue.specs.Labels.{labels_left};
ghost use Rattle.catalogue.specs.inner.LiveIn.{live_in};
ghost use Rattle.catalogue.specs.inner.EntriesBorrowed.{labelled_of};
ghost use Rattle.catalogue.specs.Reply.{reply_of};
ghost use Rattle.catalogue.specs.Asking.{IsFilterAnswer, IsLookupAnswer, IsLookupAnswerBy};
ghost use Rattle.catalogue.specs.LiveMessages.{AreMessages};
ghost use Rattle.catalogue.specs.EntriesOffered.{offered_cells, offered_labels};
ghost use Rattle.nego_core.specs.Offer.{items_of};
ghost use Rattle.catalogue.specs.Messages.{messages_left};

use crate::catalogue::Catalogue;
use crate::entries::{LentEntries, pick_all};
use crate::labels::Labels;
use crate::live::Live;
use crate::messages::Messages;
use crate::reply::LentReply;
use cell_core::{Label, MessageId};
use lang_core::Lang;
use nego_core::{Offer, PriorityList, Scheme, Widening, filter_lent};
use std::alloc::{AllocError, Global};

impl Catalogue {
    /// The live labels of a message, in ascending order of the languages' bytes.
    pub fn labels(&self, id: &MessageId) -> Labels<'_>
        ensures { labels_left result ≡ live self.now id.now }
    {
        Labels::new(self.map().get(id))
    }

    /// The messages that have a live label, each once, in ascending order of the ids' bytes. What
    /// has cells without labels alone is left out.
    ///
    /// It takes no memory, and goes once over the messages and their cells.
    pub fn messages(&self) -> Messages<'_>
        ensures messages { AreMessages self.now (messages_left result) }
        ensures languages { (id : List ℕ) → IsMap text_cmp (live self.now id) }
    {
        Messages::new(self.map())
    }

    /// The live labels of a message that are offered, as a set.
    fn live<'o>(&self, id: &MessageId, offer: Offer<'o>) -> Live<'_, 'o>
        ensures { live_in result ≡ live (offered_cells (items_of offer.entry) self.now) id.now }
    {
        Live::new(self.map().get(id), offer)
    }

    /// The live labels of a message whose languages the list takes, in its order (RFC 4647,
    /// sections 3.3.1 and 3.3.2).
    pub fn ask_filter<'a>(
        &'a self,
        alloc: Global,
        id: &MessageId,
        list: &PriorityList,
        scheme: Scheme,
    ) -> Result<LentEntries<'a>, AllocError>
        ensures { IfOk result (IsFilterAnswer self.now id.now scheme list.now) }
    {
        self.ask_filter_by(alloc, id, Offer::All, list, scheme)
    }

    /// What [`Catalogue::ask_filter`] answers without the labels that are not offered.
    pub fn ask_filter_by<'a>(
        &'a self,
        alloc: Global,
        id: &MessageId,
        offer: Offer<'_>,
        list: &PriorityList,
        scheme: Scheme,
    ) -> Result<LentEntries<'a>, AllocError>
        ensures { IfOk result (IsFilterAnswer (offered_cells (items_of offer.entry) self.now) id.now
            scheme list.now) }
    {
        let labels = listed(alloc, self.labels(id), offer)?;
        let langs = languages_of(alloc, &labels)?;
        match filter_lent(alloc, list, scheme, &langs) {
            Ok(picks) => pick_all(alloc, &labels, &picks),
            Err(_) => Err(AllocError),
        }
    }

    /// The live label of a message that the list looks up (RFC 4647, section 3.4), or that of the
    /// default, or nothing.
    ///
    /// It takes no memory. A default is available only where it has a live label.
    pub fn ask_lookup<'a>(
        &'a self,
        id: &MessageId,
        list: &PriorityList,
        default: Option<&Lang>,
    ) -> LentReply<'a>
        ensures { IsLookupAnswer self.now id.now list.now (option_map (λ l. l.now) default.entry)
            (reply_of result) }
    {
        self.ask_lookup_by(id, Offer::All, list, Widening::Off, default)
    }

    /// What [`Catalogue::ask_lookup`] answers without the labels that are not offered, where a
    /// range may find the languages that it matches too ([`nego_core::lookup_widened`], project
    /// rule).
    ///
    /// It takes no memory. A default is available only where it has a live label that is offered,
    /// and is not widened.
    pub fn ask_lookup_by<'a>(
        &'a self,
        id: &MessageId,
        offer: Offer<'_>,
        list: &PriorityList,
        widening: Widening,
        default: Option<&Lang>,
    ) -> LentReply<'a>
        ensures { IsLookupAnswerBy widening (offered_cells (items_of offer.entry) self.now) id.now
            list.now (option_map (λ l. l.now) default.entry) (reply_of result) }
    {
        self.live(id, offer).look_up(list, widening, default)
    }
}

/// The labels that are offered, in a list.
fn listed<'a>(
    alloc: Global,
    labels: Labels<'a>,
    offer: Offer<'_>,
) -> Result<Vec<(&'a Lang, &'a Label)>, AllocError>
    ensures { IfOk result (λ listed. labelled_of listed.items
        ≡ offered_labels (items_of offer.entry) (labels_left labels.entry)) }
{
    let mut listed = Vec::new(alloc);
    for (lang, label) in labels {
        if offer.offers(lang) {
            listed.push((lang, label))?;
        }
    }
    Ok(listed)
}

/// The languages alone.
fn languages_of<'a>(
    alloc: Global,
    labels: &[(&'a Lang, &'a Label)],
) -> Result<Vec<&'a Lang>, AllocError>
    ensures { IfOk result (λ langs. texts_of langs.items ≡ languages (labelled_of labels.now)) }
{
    let mut langs = Vec::with_capacity(alloc, labels.len())?;
    for (lang, _label) in labels {
        langs.push(*lang)?;
    }
    Ok(langs)
}
