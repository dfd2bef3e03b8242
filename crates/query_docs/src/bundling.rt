//! The labels of one reader: what a lookup answers for each message.
ghost use Rattle.std.specs.Prelude.{◌≡◌, IfOk, List, MatchResult, option_map};
ghost use Rattle.catalogue.specs.inner.ReplyBorrowed.{lent_pair};
ghost use Rattle.catalogue.specs.Reply.{reply_of};
ghost use Rattle.json_docs.specs.FaultChecks.{OrMemory};
ghost use Rattle.row_docs.specs.Reading.{IsOfDocument, no_memory};
ghost use Rattle.site_docs.specs.Reading.{RefusesSite};
ghost use Rattle.map_docs.specs.WritingTexts.{AreWritten};
ghost use Rattle.map_docs.specs.Maps.{Labelled};
ghost use Rattle.nego_core.specs.Offer.{items_of};
ghost use Rattle.catalogue.specs.EntriesOffered.{offered_cells};
ghost use Rattle.query_docs.specs.Bundling.{IsBundle, IsBundleBy, IsBundled, IsBundledUnder};
ghost use Rattle.query_docs.specs.LiveCellsLookup.{answered};

use crate::bundle_by_message::bundle_by_message;
use crate::draft::Draft;
use cata_core::{Catalogue, LentReply, list_languages};
use cell_core::Label;
use json_docs::{Doc, DocFault};
use lang_core::Lang;
use nego_core::{Offer, PriorityList, Shortlist, Widening};
use site_docs::site_at;
use std::alloc::{AllocError, Global};

/// The most items of a list by which each message is looked up as it is read. A longer list is cut
/// to the languages of the whole site first.
const MAX_ITEMS: usize = 16;

/// The language-map document of the labels of one reader, and whether there is one: for each
/// message the one label that its lookup answers, matched or as the default (RFC 4647, section
/// 3.4). A message for which nothing is answered is left out. The document reads as these labels.
///
/// Refusals: a reader's with document 1. Out of memory (26) may come before.
pub fn bundle_document(
    alloc: Global,
    site: &[u8],
    list: &PriorityList,
    default: Option<&Lang>,
) -> Result<(Doc, bool), DocFault>
    ensures { MatchResult result (λ answer. IsBundled site.now list.now (option_map
        (λ l. l.now) default.entry) answer.0 answer.1) (OrMemory no_memory (IsOfDocument 1
        (RefusesSite site.now))) }
{
    bundle_document_by(alloc, site, Offer::All, list, Widening::Off, default)
}

/// The same without the labels that are not offered, by a lookup that may be widened: then a range
/// also finds the languages of a message that it matches, as `en` finds `en-us`.
///
/// Refusals: a reader's with document 1. Out of memory (26) may come before.
pub fn bundle_document_by(
    alloc: Global,
    site: &[u8],
    offer: Offer<'_>,
    list: &PriorityList,
    widening: Widening,
    default: Option<&Lang>,
) -> Result<(Doc, bool), DocFault>
    ensures { MatchResult result (λ answer. IsBundledUnder (items_of offer.entry) widening site.now
        list.now (option_map (λ l. l.now) default.entry) answer.0 answer.1)
        (OrMemory no_memory (IsOfDocument 1 (RefusesSite site.now))) }
{
    if list.items().len() <= MAX_ITEMS {
        return bundle_by_message(alloc, site, offer, list, widening, default);
    }
    let site = site_at(alloc, 1, site)?;
    let answer = write_bundle_by(alloc, site.catalogue(), offer, list, widening, default)?;
    Ok(answer)
}

/// The same for a catalogue in memory: what [`bundle_document`] gives for its document.
///
/// Out of memory is the only refusal (26).
pub fn write_bundle(
    alloc: Global,
    catalogue: &Catalogue,
    list: &PriorityList,
    default: Option<&Lang>,
) -> Result<(Doc, bool), AllocError>
    ensures { IfOk result (λ written. (labels : List Labelled)
        × IsBundle catalogue.now list.now (option_map (λ l. l.now) default.entry) labels
        × AreWritten labels written.0 written.1) }
{
    write_bundle_by(alloc, catalogue, Offer::All, list, Widening::Off, default)
}

/// The same without the labels that are not offered, by a lookup that may be widened: what
/// [`bundle_document_by`] gives for the document of a catalogue in memory.
///
/// The languages of the catalogue are ranked once by the list, so a message tries no more languages
/// than there are, however long the list is.
///
/// Out of memory is the only refusal (26).
pub fn write_bundle_by(
    alloc: Global,
    catalogue: &Catalogue,
    offer: Offer<'_>,
    list: &PriorityList,
    widening: Widening,
    default: Option<&Lang>,
) -> Result<(Doc, bool), AllocError>
    ensures { IfOk result (λ written. (labels : List Labelled)
        × IsBundleBy widening (offered_cells (items_of offer.entry) catalogue.now) list.now
        (option_map (λ l. l.now) default.entry) labels × AreWritten labels written.0 written.1) }
{
    let langs = catalogue.languages(alloc)?;
    let listed = list_languages(alloc, &langs)?;
    let shortlist = Shortlist::new(alloc, list, widening, &listed)?;
    let mut draft = Draft::new(alloc)?;
    for message in catalogue.messages() {
        if let Some((lang, label)) = answered(message.lookup_within(offer, &shortlist, default)) {
            draft.add(alloc, message.id(), lang, label)?;
        }
    }
    draft.close()
}

/// The language that was answered, with its label.
pub(crate) fn answered(reply: LentReply<'_>) -> Option<(&Lang, &Label)>
    ensures { lent_pair result ≡ answered (reply_of reply.entry) }
{
    match reply {
        LentReply::Matched(lang, label) | LentReply::Default(lang, label) => Some((lang, label)),
        LentReply::Nothing => None,
    }
}
