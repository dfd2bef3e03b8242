//! The languages that tags spell.
ghost use Rattle.std.specs.Prelude.{map, MatchResult};
ghost use Rattle.docs_core.specs.Lines.{lines_of};
ghost use Rattle.nego_core.specs.Offer.{items_of};
ghost use Rattle.front_core.specs.inner.TagFilter.{texts_of};
ghost use Rattle.front_core.specs.Tags.{RefusesTags, SpellLangs};
ghost use Rattle.front_core.specs.inner.Tags.{AreOffered};

use docs_core::Lines;
use lang_core::{Lang, LangFault};
use nego_core::Offer;
use std::alloc::Global;
use std::convert::AsStr;

/// Tags that are offered, as they were passed in, and the languages that they spell, in step.
#[derive(Drop)]
pub(crate) struct OfferedTags<'a> {
    /// The tags.
    pub names: Vec<&'a [u8]>,
    /// Their languages.
    pub langs: Vec<Lang>,
}

/// The lines of a text whose languages are offered, in order. The first line that is no language is
/// refused (1 to 4).
pub(crate) fn read_lines<'a>(
    alloc: Global,
    offer: Offer<'_>,
    tags: &'a [u8],
) -> Result<OfferedTags<'a>, LangFault>
    ensures { MatchResult result (λ offered. AreOffered (items_of offer.entry) (lines_of tags.now)
        (texts_of offered.names.items) offered.langs.items) (RefusesTags (lines_of tags.now)) }
{
    // (a line mostly has three bytes or more: two letters and a line feed)
    let room = tags.len() / 3;
    let mut names = Vec::with_capacity(alloc, room)?;
    let mut langs = Vec::with_capacity(alloc, room)?;
    for line in Lines::new(tags) {
        let lang = Lang::parse(alloc, line)?;
        if offer.offers(&lang) {
            names.push(line)?;
            langs.push(lang)?;
        }
    }
    Ok(OfferedTags { names, langs })
}

/// The languages of arguments, in order. The first argument that is none is refused (1 to 4).
pub(crate) fn read_words<S: AsStr>(alloc: Global, tags: &[S]) -> Result<Vec<Lang>, LangFault>
    ensures { MatchResult result (λ langs. SpellLangs (map S.text tags.now) langs.items)
        (RefusesTags (map S.text tags.now)) }
{
    let mut langs = Vec::with_capacity(alloc, tags.len())?;
    for tag in tags {
        langs.push(Lang::parse(alloc, tag.as_str().as_bytes())?)?;
    }
    Ok(langs)
}
