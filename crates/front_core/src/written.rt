//! Questions about one message to the document of a site, asked where it lies.
ghost use Rattle.std.specs.Prelude.{MatchResult};
ghost use Rattle.cata_core.specs.Site.{SiteState};
ghost use Rattle.front_core.specs.Ask.{IsNoMemory};
ghost use Rattle.front_core.specs.Written.{HasLabelsOf};
ghost use Rattle.text_docs.specs.Message.{IsCompactSite};

use crate::answer::Answer;
use crate::ask::{Filter, Lookup, Question, SiteIn};
use crate::fault::FrontFault;
use cata_core::Site;
use cell_core::MessageId;
use std::alloc::Global;

/// The site of a document, as far as a question about one message needs it, found by bisection:
/// [`text_docs::message_in`].
///
/// Where the rows of the document have no blanks, as in what is written for a site, its one refusal
/// is out of memory (26). What is answered or refused for any other text is not said.
pub fn message_in(alloc: Global, text: &[u8], id: &MessageId) -> Result<Site, FrontFault>
    ensures { (site : SiteState) → IsCompactSite text.now site
        → MatchResult result (HasLabelsOf id.now site) IsNoMemory }
{
    let part = text_docs::message_in(alloc, text, id)?;
    Ok(part)
}

impl Lookup<'_> {
    ghost use Rattle.front_core.specs.Ask.{AnswersLookup};

    /// The answer over a document whose rows have no blanks, as [`Lookup::answer`] has it over its
    /// site. Refused as [`message_in`] is.
    pub fn answer_in(&self, alloc: Global, text: &[u8]) -> Result<Answer, FrontFault>
        ensures { (site : SiteState) → IsCompactSite text.now site
            → MatchResult result (AnswersLookup site.cells self.now) IsNoMemory }
    {
        let part = message_in(alloc, text, &self.id)?;
        self.answer(alloc, SiteIn::Open(&part))
    }
}

impl Filter<'_> {
    ghost use Rattle.front_core.specs.Ask.{AnswersFilter};

    /// The answer over a document whose rows have no blanks, as [`Filter::answer`] has it over its
    /// site. Refused as [`message_in`] is.
    pub fn answer_in(&self, alloc: Global, text: &[u8]) -> Result<Answer, FrontFault>
        ensures { (site : SiteState) → IsCompactSite text.now site
            → MatchResult result (AnswersFilter site.cells self.now) IsNoMemory }
    {
        let part = message_in(alloc, text, &self.id)?;
        self.answer(alloc, SiteIn::Open(&part))
    }
}
