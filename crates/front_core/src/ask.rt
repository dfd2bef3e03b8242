//! Questions to a site, whether it is open or the text of its document: what they are, and those
//! about one message.
ghost use Rattle.std.specs.Prelude.{◌≡◌, option_map, slice_get, MatchResult};
ghost use Rattle.cata_core.specs.Site.{SiteState};
ghost use Rattle.front_core.specs.Ask.{IsAnsweredIn, RefusesIn, IsId, IsTextAt, RefusesIdText};
ghost use Rattle.front_core.specs.Ask.{texts_of};
ghost use Rattle.front_core.specs.Offering.{offers_of};

use crate::answer::{Answer, LabelText, Outcome};
use crate::fault::FrontFault;
use crate::offering::{Offered, Offering};
use crate::preferences::{Field, Preferences};
use crate::reader::Reader;
use cata_core::{LentReply, Site};
use cell_core::{CellFault, Label, MessageId};
use docs_core::{read_message, reply_line};
use nego_core::{PriorityList, Scheme};
use std::alloc::{AllocError, Global};

/// A site that is asked.
#[derive(Clone, Copy)]
pub enum SiteIn<'a> {
    /// The text of its document.
    Document(&'a [u8]),
    /// A site in memory.
    Open(&'a Site),
}

/// A question to a site, whose arguments were read.
pub trait Question: Sized + Drop {
    ghost use Rattle.front_core.specs.declared.answer.Answer.{Answer};

    /// What answers it over a site.
    ghost Answers: { Self → SiteState → Answer → Type 0 };

    /// The answer over this site: the bytes that the command prints, and whether anything was
    /// found.
    ///
    /// Refused as a document is by the reader of sites, with document 1, and by 26.
    fn answer(&self, alloc: Global, site: SiteIn<'_>) -> Result<Answer, FrontFault>
        ensures { MatchResult result (IsAnsweredIn site.entry (Answers self.now))
            (RefusesIn site.entry) };
}

/// Which label of a message a reader gets (RFC 4647, section 3.4), or gets by widened lookup.
#[derive(Drop)]
pub struct Lookup<'o> {
    /// The message.
    pub id: MessageId,
    /// The reader.
    pub reader: Reader<'o>,
}

impl<'o> Lookup<'o> {
    ghost use Rattle.std.specs.Prelude.{IfOk, MatchResult};
    ghost use Rattle.catalogue.specs.Reply.{reply_of};
    ghost use Rattle.front_core.specs.Ask.{AnswersLookup, AnswersText, IsLookup, IsReply};
    ghost use Rattle.front_core.specs.Ask.{RefusesLookup};
    ghost use Rattle.front_core.specs.Preferences.{field_text};

    /// Reads a lookup from these bytes.
    ///
    /// Refused are the id first (10), then the default (1 to 4), then the offer, then the field
    /// (each 8, and 9 where a malformed element refuses it). Out of memory (26) may come before a
    /// later refusal.
    pub fn read(
        alloc: Global,
        id: &[u8],
        offering: Offering<'o>,
        field: Field<'_>,
        default: Option<&[u8]>,
    ) -> Result<Lookup<'o>, FrontFault>
        ensures { MatchResult result (IsLookup id.now (offers_of offering.entry)
            (field_text field.entry) (option_map (λ s. s.now) default.entry))
            (RefusesLookup id.now (offers_of offering.entry) (field_text field.entry)
            (option_map (λ s. s.now) default.entry)) }
    {
        let id = read_id(alloc, id)?;
        let reader = Reader::read(alloc, offering, field, default)?;
        Ok(Lookup { id, reader })
    }

    /// The text at a place, counted from 0, of the label that is found. It takes no memory.
    pub fn text<'a>(&self, site: &'a Site, place: usize) -> LabelText<'a>
        ensures { AnswersText site.now.cells self.now place result }
    {
        match self.reply(site) {
            LentReply::Matched(_, label) | LentReply::Default(_, label) => text_at(label, place),
            LentReply::Nothing => LabelText::Nothing,
        }
    }

    /// The line of the label that is found.
    fn line(&self, alloc: Global, site: &Site) -> Result<Answer, AllocError>
        ensures { IfOk result (AnswersLookup site.now.cells self.now) }
    {
        let reply = self.reply(site);
        let text = reply_line(alloc, &reply)?;
        Ok(Answer::new(text, Outcome::of_reply(&reply)))
    }

    /// The answer of the site's catalogue.
    fn reply<'a>(&self, site: &'a Site) -> LentReply<'a>
        ensures { IsReply site.now.cells self.now (reply_of result) }
    {
        let Preferences {
            list,
            widening,
            default,
        } = &self.reader.preferences;
        let offer = self.reader.offer.offer();
        site.catalogue()
            .ask_lookup_by(&self.id, offer, list, *widening, default.as_ref())
    }
}

/// The line of the label that is found, with its LF: `matched LANGUAGE LABEL`, `default LANGUAGE
/// LABEL` or `nothing`, where a label is the compact JSON array of its texts.
impl Question for Lookup<'_> {
    ghost use Rattle.front_core.specs.Ask.{AnswersLookup};

    ghost Answers = { λ asked site. AnswersLookup site.cells asked };

    fn answer(&self, alloc: Global, site: SiteIn<'_>) -> Result<Answer, FrontFault> {
        match site {
            SiteIn::Document(bytes) => {
                let site = read_message(alloc, bytes, &self.id)?;
                let answer = self.line(alloc, &site)?;
                Ok(answer)
            }
            SiteIn::Open(site) => Ok(self.line(alloc, site)?),
        }
    }
}

/// Which labels of a message the ranges of a field take (RFC 4647, section 3.3).
#[derive(Drop)]
pub struct Filter<'o> {
    /// The message.
    pub id: MessageId,
    /// What readers are offered of a site.
    pub offer: Offered<'o>,
    /// Basic filtering (section 3.3.1) or extended (section 3.3.2).
    pub scheme: Scheme,
    /// The ranges, with their weights.
    pub list: PriorityList,
}

impl<'o> Filter<'o> {
    ghost use Rattle.std.specs.Prelude.{IfOk, MatchResult};
    ghost use Rattle.front_core.specs.Ask.{AnswersFilter, IsFilter, RefusesFilter};
    ghost use Rattle.front_core.specs.Preferences.{field_text};

    /// Reads a filter from these bytes, under the scheme of the field.
    ///
    /// Refused are the id first (10), then the offer, then the field (each 8, and 9 where a
    /// malformed element refuses it). Out of memory (26) may come before a later refusal.
    pub fn read(
        alloc: Global,
        id: &[u8],
        offering: Offering<'o>,
        field: Field<'_>,
    ) -> Result<Filter<'o>, FrontFault>
        ensures { MatchResult result (IsFilter id.now (offers_of offering.entry)
            (field_text field.entry))
            (RefusesFilter id.now (offers_of offering.entry) (field_text field.entry)) }
    {
        let id = read_id(alloc, id)?;
        let offer = offering.read(alloc)?;
        let list = field.read(alloc)?;
        Ok(Filter {
            id,
            offer,
            scheme: field.scheme,
            list,
        })
    }

    /// The lines of the labels whose languages fit.
    fn lines(&self, alloc: Global, site: &Site) -> Result<Answer, AllocError>
        ensures { IfOk result (AnswersFilter site.now.cells self.now) }
    {
        let entries = site.catalogue().ask_filter_by(
            alloc,
            &self.id,
            self.offer.offer(),
            &self.list,
            self.scheme,
        )?;
        let text = docs_core::filter_lines(alloc, &entries)?;
        Ok(Answer::new(text, Outcome::of(entries.len() != 0)))
    }
}

/// The lines of the labels whose languages fit, best first: `filter N`, then N lines `LANGUAGE
/// WEIGHT LABEL`, with the weight in thousandths; a label is the compact JSON array of its texts.
impl Question for Filter<'_> {
    ghost use Rattle.front_core.specs.Ask.{AnswersFilter};

    ghost Answers = { λ asked site. AnswersFilter site.cells asked };

    fn answer(&self, alloc: Global, site: SiteIn<'_>) -> Result<Answer, FrontFault> {
        match site {
            SiteIn::Document(bytes) => {
                let site = read_message(alloc, bytes, &self.id)?;
                let answer = self.lines(alloc, &site)?;
                Ok(answer)
            }
            SiteIn::Open(site) => Ok(self.lines(alloc, site)?),
        }
    }
}

/// The message id of these bytes. Bytes that are not UTF-8 are refused as any other text that is
/// no message id (10).
pub(crate) fn read_id(alloc: Global, id: &[u8]) -> Result<MessageId, CellFault>
    ensures { MatchResult result (λ read. IsId id.now × (read ≡ id.now)) (RefusesIdText id.now) }
{
    match std::str::from_utf8(id) {
        Ok(text) => MessageId::new(alloc, text),
        Err(_) => Err(CellFault::IdRefused),
    }
}

/// The text at a place of the label.
fn text_at(label: &Label, place: usize) -> LabelText<'_>
    ensures { IsTextAt place (Some label.now) result }
{
    let texts = label.texts();
    let count = texts.len();
    match texts.get(place) {
        Some(text) => LabelText::Found {
            text: text.as_str(),
            count,
        },
        None => LabelText::PastEnd { count },
    }
}
