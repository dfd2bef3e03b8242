//! The languages of a message, kept for the message after it.
ghost use Rattle.std.specs.Prelude.{◌≡◌, ◌<◌, ◌≤◌, ◌+◌, [], IfErr, IsTrue, MatchResult, OnOk};
ghost use Rattle.std.specs.Prelude.{List, ℕ, get_or, length, max};
ghost use Rattle.lang_core.specs.Lang.{IsLang, RefusesLang, SpellsLang};
ghost use Rattle.site_docs.specs.inner.Unread.{RefusesSpelling};
ghost use Rattle.site_docs.specs.declared.plain.unread.Unread.TheVariants.{NoMemory};

use crate::plain::unread::Unread;
use lang_core::{Lang, LangFault};
use std::alloc::Global;
use std::marker::Model;

/// The most languages that are kept, so that a message of very many takes no more memory.
const MAX_LANGUAGES: usize = 64;

/// The languages of a message in the order in which they came, and after them what is left of those
/// of the message before, some at most.
///
/// Most messages have the languages of the message before, in the same order, and so are read
/// without parsing one. A contract sees the language of the last row.
#[derive(Drop)]
pub(crate) struct KnownLanguages {
    languages: Vec<Lang>,
    /// Where the language of the last row is.
    place: usize,
}

impl Model for KnownLanguages {
    ghost use Rattle.std.specs.Prelude.{◌<◌, ◌≤◌, [], List, ℕ, get_or, length};

    ghost Value = { List ℕ };

    ghost view = { λ known. get_or known.languages.items known.place [] };

    ghost invariant = { λ known. (known.place < length known.languages.items)
        × (length known.languages.items ≤ 64) };
}

impl KnownLanguages {
    /// The language with this text, of a first row.
    pub(crate) fn new(alloc: Global, text: &str) -> Result<KnownLanguages, Unread>
        ensures { MatchResult result (λ known. (known ≡ text.now) × IsLang text.now)
            (RefusesSpelling (IsLang text.now)) }
    {
        let mut languages = Vec::new(alloc);
        set(alloc, &mut languages, 0, text)?;
        Ok(KnownLanguages {
            languages,
            place: 0,
        })
    }

    /// The language of the last row.
    #[inline(always)]
    pub(crate) fn last(&self) -> &Lang
        ensures { result.now ≡ self.now }
    {
        &self.languages[self.place]
    }

    /// Becomes the language with this text, of the next row: in the same message, or the first of
    /// another one.
    #[inline(always)]
    pub(crate) fn follow(
        &mut self,
        alloc: Global,
        same_message: bool,
        text: &str,
    ) -> Result<(), Unread>
        ensures ok { OnOk result ((self.new ≡ text.now) × IsLang text.now) }
        ensures err { IfErr result (RefusesSpelling (IsLang text.now)) }
    {
        let place = if same_message {
            place_after(self.place)
        } else {
            0
        };
        set(alloc, &mut self.languages, place, text)?;
        self.place = place;
        Ok(())
    }
}

/// The place after this one; the last one is for all languages that come there.
fn place_after(place: usize) -> usize
    ensures near { result ≤ place + 1 }
    ensures kept { place < 64 → result < 64 }
{
    if place < MAX_LANGUAGES - 1 {
        place + 1
    } else {
        place
    }
}

/// Makes the language at the place that of the text, where it is not already.
#[inline(always)]
fn set(alloc: Global, languages: &mut Vec<Lang>, place: usize, text: &str) -> Result<(), Unread>
    requires { place ≤ length languages.old.items }
    ensures ok { OnOk result ((get_or languages.new.items place [] ≡ text.now)
        × IsLang text.now × (place < length languages.new.items)) }
    ensures err { IfErr result (RefusesSpelling (IsLang text.now)) }
    ensures least { length languages.old.items ≤ length languages.new.items }
    ensures most { length languages.new.items ≤ max (length languages.old.items) (place + 1) }
{
    if is_at(languages.as_slice(), place, text) {
        return Ok(());
    }
    parse_at(alloc, languages, place, text)
}

/// Parses the language and puts it at the place, out of the way of rows that need neither.
#[cold]
#[inline(never)]
fn parse_at(
    alloc: Global,
    languages: &mut Vec<Lang>,
    place: usize,
    text: &str,
) -> Result<(), Unread>
    requires { place ≤ length languages.old.items }
    ensures ok { OnOk result ((get_or languages.new.items place [] ≡ text.now)
        × IsLang text.now × (place < length languages.new.items)) }
    ensures err { IfErr result (RefusesSpelling (IsLang text.now)) }
    ensures least { length languages.old.items ≤ length languages.new.items }
    ensures most { length languages.new.items ≤ max (length languages.old.items) (place + 1) }
{
    let lang = spelled_lang(alloc, text)?;
    put(languages, place, lang)
}

/// The language with this text, which is in lower case.
fn spelled_lang(alloc: Global, text: &str) -> Result<Lang, Unread>
    ensures { MatchResult result (λ lang. (lang ≡ text.now) × IsLang text.now)
        (RefusesSpelling (IsLang text.now)) }
{
    match Lang::parse(alloc, text.as_bytes()) {
        Ok(lang) => in_lower_case(lang, text),
        Err(fault) => Err(of_lang(fault)),
    }
}

/// Why a text that is refused so as a language is not read.
fn of_lang(fault: LangFault) -> Unread
    ensures { (text : List ℕ) → RefusesLang text fault → RefusesSpelling (IsLang text) result }
{
    match fault {
        LangFault::NoMemory => Unread::NoMemory,
        _ => Unread::NotWritten,
    }
}

/// The language that the text spells, where the text is in lower case.
fn in_lower_case(lang: Lang, text: &str) -> Result<Lang, Unread>
    requires { SpellsLang text.now lang }
    ensures { MatchResult result (λ lang. (lang ≡ text.now) × IsLang text.now)
        (RefusesSpelling (IsLang text.now)) }
{
    if lang.as_str() == text {
        Ok(lang)
    } else {
        Err(Unread::NotWritten)
    }
}

/// Whether the language at the place is that of the text.
#[inline(always)]
fn is_at(languages: &[Lang], place: usize, text: &str) -> bool
    ensures { IsTrue result → (get_or languages.now place [] ≡ text.now) × IsLang text.now
        × (place < length languages.now) }
{
    place < languages.len() && languages[place].as_str() == text
}

/// Puts the language at the place, instead of another or after all.
fn put(languages: &mut Vec<Lang>, place: usize, lang: Lang) -> Result<(), Unread>
    requires { place ≤ length languages.old.items }
    ensures ok { OnOk result ((get_or languages.new.items place [] ≡ lang)
        × (place < length languages.new.items)) }
    ensures err { IfErr result (λ why. why ≡ NoMemory) }
    ensures least { length languages.old.items ≤ length languages.new.items }
    ensures most { length languages.new.items ≤ max (length languages.old.items) (place + 1) }
{
    if place < languages.len() {
        languages[place] = lang;
        return Ok(());
    }
    match languages.push(lang) {
        Ok(()) => Ok(()),
        Err(_) => Err(Unread::NoMemory),
    }
}
