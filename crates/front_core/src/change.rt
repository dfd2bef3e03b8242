//! Changes of one label.
ghost use Rattle.std.specs.Prelude.{◌≡◌, ◌∷◌, [], map, IfOk, MatchResult};
ghost use Rattle.cell_core.specs.Label.{texts_of};
ghost use Rattle.front_core.specs.Change.{HasLabel, IsKey, RefusesKey, RefusesLabelText, not_utf8};

use crate::ask::read_id;
use crate::fault::FrontFault;
use cata_core::Site;
use cell_core::{Label, MessageId};
use docs_core::{Doc, DocCause, DocFault, edit_document};
use lang_core::Lang;
use std::alloc::{AllocError, Global};

/// What an edit makes of the label of a message in a language.
#[derive(Drop)]
pub struct Change {
    /// The message.
    pub id: MessageId,
    /// The language.
    pub lang: Lang,
    /// The new label; none deletes the one that is there.
    pub label: Option<Label>,
}

impl Change {
    ghost use Rattle.std.specs.Prelude.{◌≡◌, map, IfErr, MatchResult, OnErr, OnOk};
    ghost use Rattle.json_docs.specs.FaultChecks.{OrMemory};
    ghost use Rattle.row_docs.specs.Reading.{no_memory};
    ghost use Rattle.docs_core.specs.Calls.{IsEdited, RefusesEditing};
    ghost use Rattle.front_core.specs.Change.{IsChanged, IsDelete, IsPut, IsPutOf, RefusesChange};
    ghost use Rattle.front_core.specs.Change.{RefusesKey, RefusesPut, RefusesPutOf};

    /// The change that puts a label of one text.
    ///
    /// Refused are the id first (10), then the language (1 to 4), then the text (18 where it is not
    /// UTF-8, 11 where it is too long). Out of memory (26) may come before a later refusal.
    pub fn put(alloc: Global, id: &[u8], lang: &[u8], text: &[u8]) -> Result<Change, FrontFault>
        ensures { MatchResult result (IsPut id.now lang.now text.now)
            (RefusesPut id.now lang.now text.now) }
    {
        let key = read_key(alloc, id, lang)?;
        let label = read_label(alloc, text)?;
        Ok(Change {
            id: key.id,
            lang: key.lang,
            label: Some(label),
        })
    }

    /// The change that puts a label of these texts.
    ///
    /// Refused are the id first (10), then the language (1 to 4), then the texts (11, 12). Out of
    /// memory (26) may come before a later refusal.
    pub fn put_texts(
        alloc: Global,
        id: &[u8],
        lang: &[u8],
        texts: &[&str],
    ) -> Result<Change, FrontFault>
        ensures { let words = map (λ s. s.now) texts.now in
            MatchResult result (IsPutOf id.now lang.now words)
            (RefusesPutOf id.now lang.now words) }
    {
        let key = read_key(alloc, id, lang)?;
        let label = Label::from_texts(owned(alloc, texts)?)?;
        Ok(Change {
            id: key.id,
            lang: key.lang,
            label: Some(label),
        })
    }

    /// The change that deletes a label.
    ///
    /// Refused are the id first (10), then the language (1 to 4). Out of memory (26) may come
    /// before a later refusal.
    pub fn delete(alloc: Global, id: &[u8], lang: &[u8]) -> Result<Change, FrontFault>
        ensures { MatchResult result (IsDelete id.now lang.now) (RefusesKey id.now lang.now) }
    {
        let key = read_key(alloc, id, lang)?;
        Ok(Change {
            id: key.id,
            lang: key.lang,
            label: None,
        })
    }

    /// Makes the change at the time `now`, with the next stamp of the site: [`Site::put`], or
    /// [`Site::delete`].
    ///
    /// Refused, and then the site is unchanged, where it has no next stamp (14), and by 26.
    pub fn make(&self, alloc: Global, site: &mut Site, now: u64) -> Result<(), FrontFault>
        ensures ok { OnOk result (IsChanged now self.now site.old site.new) }
        ensures err { IfErr result (RefusesChange site.old now) }
        ensures left { OnErr result (site.new ≡ site.old) }
    {
        let Change { id, lang, label } = self;
        match label {
            Some(label) => site.put(alloc, now, id, lang, label)?,
            None => site.delete(alloc, now, id, lang)?,
        };
        Ok(())
    }

    /// The document of a site after the change at the time `now`: [`edit_document`].
    ///
    /// Refused as the document is by its reader, with document 1, then where the site has no next
    /// stamp (14), and by 26.
    pub fn make_in_document(&self, alloc: Global, site: &[u8], now: u64) -> Result<Doc, DocFault>
        ensures { MatchResult result
            (IsEdited site.now now (self.now.id, self.now.lang) self.now.label)
            (OrMemory no_memory (RefusesEditing site.now now)) }
    {
        let Change { id, lang, label } = self;
        edit_document(alloc, site, now, id, lang, label.as_ref())
    }
}

/// A message and a language.
#[derive(Drop)]
struct Key {
    id: MessageId,
    lang: Lang,
}

/// Reads the key of a label.
fn read_key(alloc: Global, id: &[u8], lang: &[u8]) -> Result<Key, FrontFault>
    ensures { MatchResult result (λ key. IsKey id.now lang.now (key.id, key.lang))
        (RefusesKey id.now lang.now) }
{
    let id = read_id(alloc, id)?;
    let lang = Lang::parse(alloc, lang)?;
    Ok(Key { id, lang })
}

/// The label of this one text.
fn read_label(alloc: Global, text: &[u8]) -> Result<Label, FrontFault>
    ensures { MatchResult result (λ label. HasLabel text.now
        × (label ≡ text.now ∷ [])) (RefusesLabelText text.now) }
{
    let text = match std::str::from_utf8(text) {
        Ok(text) => String::from_str(alloc, text)?,
        Err(error) => return Err(not_utf8(error.valid_up_to())),
    };
    Ok(Label::from_texts(vec![in alloc; text]?)?)
}

/// The texts in memory of their own.
fn owned(alloc: Global, texts: &[&str]) -> Result<Vec<String>, AllocError>
    ensures { IfOk result (λ copies. texts_of copies.items ≡ map (λ s. s.now) texts.now) }
{
    let mut copies = Vec::with_capacity(alloc, texts.len())?;
    for text in texts {
        copies.push(String::from_str(alloc, text)?)?;
    }
    Ok(copies)
}

/// The refusal of a text whose first fault lies at this offset.
fn not_utf8(offset: usize) -> FrontFault
    ensures { result ≡ not_utf8 offset }
{
    FrontFault::Document(DocFault::of_no_document(DocCause::NotUtf8 { offset }))
}
