//! The languages of a catalogue.

ghost use Rattle.std.specs.Prelude.{◌≡◌, IfOk, OnOk};
ghost use Rattle.std.specs.Option.{is_some};
ghost use Rattle.std.specs.FinMap.Entries.{find};
ghost use Rattle.cell_core.specs.Keyed.{IsMap};
ghost use Rattle.nego_core.specs.Filtering.{texts_of};
ghost use Rattle.cell_core.specs.Entry.{text_cmp};
ghost use Rattle.catalogue.specs.Languages.{AreLanguages, texts_in};
ghost use Rattle.catalogue.specs.inner.Languages.{AddsLanguage};

use crate::catalogue::Catalogue;
use cell_core::{Key, Keyed};
use lang_core::Lang;
use std::alloc::{AllocError, Global};

impl Catalogue {
    /// The languages that have a live label in some message, each once: a map of them to nothing.
    ///
    /// It goes once over the cells. Out of memory is the only refusal.
    pub fn languages(&self, alloc: Global) -> Result<Keyed<Lang, ()>, AllocError>
        ensures { IfOk result (AreLanguages self.now) }
    {
        let mut langs = Keyed::new(alloc);
        for (_, lang, cell) in self.iter() {
            if let Some(_label) = cell.label() {
                add_language(alloc, &mut langs, lang)?;
            }
        }
        Ok(langs)
    }
}

/// The languages of such a map in a list, in ascending order of their bytes, as
/// [`Shortlist::new`](nego_core::Shortlist::new) takes them.
///
/// Out of memory is the only refusal.
pub fn list_languages(alloc: Global, langs: &Keyed<Lang, ()>) -> Result<Vec<&Lang>, AllocError>
    ensures { IfOk result (λ listed. texts_of listed.items ≡ texts_in langs.now) }
{
    let mut listed = Vec::with_capacity(alloc, langs.len())?;
    for (lang, _) in langs.iter() {
        listed.push(lang)?;
    }
    Ok(listed)
}

/// Adds a language, where it is not there yet.
fn add_language(alloc: Global, langs: &mut Keyed<Lang, ()>, lang: &Lang) -> Result<(), AllocError>
    ensures { OnOk result (AddsLanguage langs.old lang.now langs.new) }
{
    if langs.get(lang).is_some() {
        return Ok(());
    }
    let copied = lang.copy(alloc)?;
    match langs.put(copied, ()) {
        Ok(()) => Ok(()),
        Err(_) => Err(AllocError),
    }
}
