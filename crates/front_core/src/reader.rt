//! A reader: what is offered to it, and what it prefers of that.
ghost use Rattle.front_core.specs.Offering.{offers_of};

use crate::answer::Answer;
use crate::ask::{Question, SiteIn};
use crate::fault::FrontFault;
use crate::offering::{Offered, Offering};
use crate::preferences::{Field, Preferences, read_default};
use docs_core::{bundle_document_by, write_bundle_by};
use std::alloc::Global;

/// A reader of a site.
#[derive(Drop)]
pub struct Reader<'o> {
    /// What readers are offered.
    pub offer: Offered<'o>,
    /// The ranges and the default of this reader.
    pub preferences: Preferences,
}

impl<'o> Reader<'o> {
    ghost use Rattle.std.specs.Prelude.{MatchResult, option_map};
    ghost use Rattle.front_core.specs.Preferences.{field_text};
    ghost use Rattle.front_core.specs.Reader.{IsReader, RefusesReader};

    /// Reads a reader from an offer, a field and a default.
    ///
    /// Refused are the default first (1 to 4), then the offer, then the field (each 8, and 9 where
    /// a malformed element refuses it). Out of memory (26) may come before a later refusal.
    pub fn read(
        alloc: Global,
        offering: Offering<'o>,
        field: Field<'_>,
        default: Option<&[u8]>,
    ) -> Result<Reader<'o>, FrontFault>
        ensures { MatchResult result (IsReader (offers_of offering.entry) (field_text field.entry)
            (option_map (λ s. s.now) default.entry))
            (RefusesReader (offers_of offering.entry) (field_text field.entry)
            (option_map (λ s. s.now) default.entry)) }
    {
        let default = read_default(alloc, default)?;
        let offer = offering.read(alloc)?;
        let list = field.read(alloc)?;
        let preferences = Preferences {
            list,
            widening: field.widening,
            default,
        };
        Ok(Reader { offer, preferences })
    }
}

/// The language maps of the labels that the reader gets: of each message of the site the one that
/// its lookup finds among those that are offered (RFC 4647, section 3.4), or its widened lookup,
/// matched or as the default. A message for which nothing is found is left out; `{}` where none is
/// left.
impl Question for Reader<'_> {
    ghost use Rattle.front_core.specs.Ask.{AnswersBundle};

    ghost Answers = { λ asked site. AnswersBundle site.cells asked };

    fn answer(&self, alloc: Global, site: SiteIn<'_>) -> Result<Answer, FrontFault> {
        let Preferences {
            list,
            widening,
            default,
        } = &self.preferences;
        let offer = self.offer.offer();
        let default = default.as_ref();
        match site {
            SiteIn::Document(bytes) => {
                let found = bundle_document_by(alloc, bytes, offer, list, *widening, default)?;
                Ok(Answer::of(found))
            }
            SiteIn::Open(site) => {
                let cells = site.catalogue();
                let found = write_bundle_by(alloc, cells, offer, list, *widening, default)?;
                Ok(Answer::of(found))
            }
        }
    }
}
