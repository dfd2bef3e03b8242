//! What translators and editors ask of a site.
ghost use Rattle.std.specs.Prelude.{MatchResult};
ghost use Rattle.front_core.specs.Ask.{IsNoMemory};
ghost use Rattle.front_core.specs.Translate.{AreChangeLines};

use crate::answer::Answer;
use crate::ask::{Question, SiteIn};
use crate::fault::FrontFault;
use cata_core::Site;
use docs_core::{
    changes_lines, missing_document, outdated_document, write_missing, write_outdated,
};
use lang_core::Lang;
use std::alloc::Global;

/// Which messages lack a language.
#[derive(Drop)]
pub struct Missing {
    /// The language.
    pub lang: Lang,
}

impl Missing {
    ghost use Rattle.std.specs.Prelude.{MatchResult};
    ghost use Rattle.front_core.specs.Translate.{IsMissing, RefusesMissing};

    /// Reads the language from these bytes; refused as [`Lang::parse`] refuses it (1 to 4, 26).
    pub fn read(alloc: Global, lang: &[u8]) -> Result<Missing, FrontFault>
        ensures { MatchResult result (IsMissing lang.now) (RefusesMissing lang.now) }
    {
        let lang = Lang::parse(alloc, lang)?;
        Ok(Missing { lang })
    }
}

/// The language maps of the messages that have a label, but none in just this language, each with
/// all its labels; `{}` where there are none.
impl Question for Missing {
    ghost use Rattle.front_core.specs.Translate.{AnswersMissing};

    ghost Answers = { AnswersMissing };

    fn answer(&self, alloc: Global, site: SiteIn<'_>) -> Result<Answer, FrontFault> {
        match site {
            SiteIn::Document(bytes) => {
                let found = missing_document(alloc, bytes, &self.lang)?;
                Ok(Answer::of(found))
            }
            SiteIn::Open(site) => {
                let found = write_missing(alloc, site.catalogue(), &self.lang)?;
                Ok(Answer::of(found))
            }
        }
    }
}

/// Which messages have a label in a language that is older than that in the source language.
#[derive(Drop)]
pub struct Outdated {
    /// The language of the translation.
    pub lang: Lang,
    /// The language of its source.
    pub source: Lang,
}

impl Outdated {
    ghost use Rattle.std.specs.Prelude.{MatchResult};
    ghost use Rattle.front_core.specs.Translate.{IsOutdated, RefusesOutdated};

    /// Reads both languages from these bytes.
    ///
    /// Refused are the language first (1 to 4), then the source (1 to 4). Out of memory (26) may
    /// come before a later refusal.
    pub fn read(alloc: Global, lang: &[u8], source: &[u8]) -> Result<Outdated, FrontFault>
        ensures { MatchResult result (IsOutdated lang.now source.now)
            (RefusesOutdated lang.now source.now) }
    {
        let lang = Lang::parse(alloc, lang)?;
        let source = Lang::parse(alloc, source)?;
        Ok(Outdated { lang, source })
    }
}

/// The language maps of these messages, each with all its labels; `{}` where there are none.
impl Question for Outdated {
    ghost use Rattle.front_core.specs.Translate.{AnswersOutdated};

    ghost Answers = { AnswersOutdated };

    fn answer(&self, alloc: Global, site: SiteIn<'_>) -> Result<Answer, FrontFault> {
        let Outdated { lang, source } = self;
        match site {
            SiteIn::Document(bytes) => {
                let found = outdated_document(alloc, bytes, lang, source)?;
                Ok(Answer::of(found))
            }
            SiteIn::Open(site) => {
                let found = write_outdated(alloc, site.catalogue(), lang, source)?;
                Ok(Answer::of(found))
            }
        }
    }
}

/// What changed from one site to another: `changes N`, then N lines `[ID,LANGUAGE,BEFORE,AFTER]`.
///
/// Its one refusal is out of memory (26).
pub fn changes(alloc: Global, before: &Site, after: &Site) -> Result<Answer, FrontFault>
    ensures { MatchResult result (AreChangeLines before.now after.now) IsNoMemory }
{
    let found = changes_lines(alloc, before.catalogue(), after.catalogue())?;
    Ok(Answer::of(found))
}
