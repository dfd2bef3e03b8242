//! Priority lists over the live labels of a message.

use super::makers::{catalogue, default, id, list, scheme};
use super::shown;
use super::words::{gives, gives_in};
use cata_core::{Catalogue, Entries, Labels, LentEntries, Message, list_languages};
use cell_core::MessageId;
use lang_core::Lang;
use nego_core::{Offer, PriorityList, Scheme, Shortlist, Widening};
use std::alloc::{AllocError, Global};
use std::test::Fail;

/// A message with a label without language, one in English, one in French, and none left in German.
const GREETINGS: &str = "m fr 1 1 2 Bonjour; m en 1 1 1 Hello; m @none 1 1 0 x; m de 1 1 3 -";

/// The labels that are left, each before a semicolon.
fn listed(alloc: Global, labels: Labels) -> Result<String, AllocError> {
    let mut text = String::new(alloc);
    for (lang, label) in labels {
        let shown = format!(in alloc; "{} {};", lang.as_str(), shown::text_of(label))?;
        text.push_str(&shown)?;
    }
    Ok(text)
}

fn labels_of(alloc: Global, message: &str) -> Result<String, Fail> {
    let id = id(alloc, message)?;
    let held = catalogue(alloc, GREETINGS)?;
    Ok(listed(alloc, held.labels(&id))?)
}

/// What a list takes of a message, copied.
fn taken(
    alloc: Global,
    message: &str,
    list: &PriorityList,
    scheme: Scheme,
) -> Result<Entries, Fail> {
    let id = id(alloc, message)?;
    let held = catalogue(alloc, GREETINGS)?;
    Ok(held.ask_filter(alloc, &id, list, scheme)?.copy(alloc)?)
}

fn filtered(alloc: Global, message: &str, scheme: Scheme, field: &str) -> Result<String, Fail> {
    let entries = taken(alloc, message, &list(alloc, scheme, field)?, scheme)?;
    Ok(shown::entries(alloc, &entries)?)
}

/// A case, a message, a scheme, a field, and what is taken.
const FILTERS: &[(&str, &str, &str, &str, &str)] = &[
    (
        "a filter answers by weight",
        "m",
        "basic",
        "fr;q=0.5, en",
        "filter; en Hello 1000; fr Bonjour 500",
    ),
    (
        "a filter of an unknown message is empty",
        "z",
        "basic",
        "fr;q=0.5, en",
        "filter",
    ),
    (
        "a filter by extended ranges",
        "m",
        "extended",
        "fr-*, en",
        "filter; fr Bonjour 1000; en Hello 1000",
    ),
];

#[test]
fn filters(rt: HostRuntime) -> Result<(), Fail> {
    for (case, message, word, field, wanted) in FILTERS {
        let found = filtered(rt.alloc(), message, scheme(word), field);
        gives_in(case, found, wanted)?;
    }
    Ok(())
}

/// The language and weight at a place of what a list takes of a message, as it is borrowed.
fn lent_at(alloc: Global, field: &str, place: usize) -> Result<String, Fail> {
    let held = catalogue(alloc, GREETINGS)?;
    let list = list(alloc, Scheme::Basic, field)?;
    let lent = held.ask_filter(alloc, &id(alloc, "m")?, &list, Scheme::Basic)?;
    Ok(entry_at(alloc, &lent, place)?)
}

fn entry_at(alloc: Global, lent: &LentEntries, place: usize) -> Result<String, AllocError> {
    match lent.nth(place) {
        Some((lang, _, weight)) => {
            format!(in alloc; "{} {weight} of {}", lang.as_str(), lent.len())
        }
        None => "none".to_string(alloc),
    }
}

/// What a message answers.
fn found(
    alloc: Global,
    held: &Catalogue,
    id: &MessageId,
    list: &PriorityList,
    default: Option<&Lang>,
) -> Result<String, AllocError> {
    let reply = held.ask_lookup(id, list, default).copy(alloc)?;
    shown::reply(alloc, &reply)
}

/// The same by a list that may be widened.
fn found_by(
    alloc: Global,
    held: &Catalogue,
    id: &MessageId,
    list: &PriorityList,
    widening: Widening,
    default: Option<&Lang>,
) -> Result<String, AllocError> {
    let reply = held.ask_lookup_by(id, Offer::All, list, widening, default);
    shown::reply(alloc, &reply.copy(alloc)?)
}

/// The same, asked of the message itself.
fn found_in(
    alloc: Global,
    message: &Message,
    list: &PriorityList,
    widening: Widening,
    default: Option<&Lang>,
) -> Result<String, AllocError> {
    let reply = message.lookup_by(list, widening, default);
    shown::reply(alloc, &reply.copy(alloc)?)
}

/// The same by a list that is cut.
fn found_within(
    alloc: Global,
    message: &Message,
    shortlist: &Shortlist,
    default: Option<&Lang>,
) -> Result<String, AllocError> {
    let reply = message.lookup_within(Offer::All, shortlist, default);
    shown::reply(alloc, &reply.copy(alloc)?)
}

/// Checks what the messages answer, each by the list and by the list that is cut.
fn messages_answer(
    alloc: Global,
    held: &Catalogue,
    list: &PriorityList,
    widening: Widening,
    shortlist: &Shortlist,
    default: Option<&Lang>,
    answer: &str,
) -> Result<(), Fail> {
    for message in held.messages() {
        let own = found_in(alloc, &message, list, widening, default)?;
        gives(Ok(own), answer)?;
        let own = found_within(alloc, &message, shortlist, default)?;
        gives(Ok(own), answer)?;
    }
    Ok(())
}

/// Checks what they answer where the list is cut to these languages.
fn answer_within<'a>(
    alloc: Global,
    held: &Catalogue,
    list: &'a PriorityList,
    widening: Widening,
    langs: &'a [&'a Lang],
    default: Option<&Lang>,
    answer: &str,
) -> Result<(), Fail> {
    let shortlist = Shortlist::new(alloc, list, widening, langs)?;
    messages_answer(alloc, held, list, widening, &shortlist, default, answer)
}

/// Checks what they answer where the list is cut to the languages of the catalogue.
fn answer_cut(
    alloc: Global,
    held: &Catalogue,
    list: &PriorityList,
    widening: Widening,
    default: Option<&Lang>,
    answer: &str,
) -> Result<(), Fail> {
    let langs = held.languages(alloc)?;
    let listed = list_languages(alloc, &langs)?;
    answer_within(alloc, held, list, widening, &listed, default, answer)
}

/// What the catalogue answers, which is what its message answers.
fn looked_up(
    alloc: Global,
    held: &Catalogue,
    list: &PriorityList,
    widening: Widening,
    default: Option<&Lang>,
) -> Result<String, Fail> {
    let answer = found_by(alloc, held, &id(alloc, "m")?, list, widening, default)?;
    answer_cut(alloc, held, list, widening, default, answer.as_str())?;
    Ok(answer)
}

/// Cells, a field, a default, and what is looked up in "m".
type Lookup = (&'static str, &'static str, &'static str, &'static str);

const LOOKUPS: &[Lookup] = &[
    (GREETINGS, "de", "fr", "default fr Bonjour"),
    (GREETINGS, "de, en;q=0.5", "fr", "matched en Hello"),
    (GREETINGS, "de, *;q=0", "fr", "nothing"),
    // A deleted default is nothing.
    (GREETINGS, "de", "de", "nothing"),
    (GREETINGS, "de", "-", "nothing"),
    ("m en 1 1 0 -", "en", "en", "nothing"),
];

const WIDENED: &[Lookup] = &[
    (
        "m en-us 1 1 0 a; m fr 1 1 1 b",
        "en",
        "-",
        "matched en-us a",
    ),
    (
        "m en 1 1 0 a; m fr-ca 1 1 1 b",
        "fr-FR, fr;q=0.9, en;q=0.7",
        "-",
        "matched fr-ca b",
    ),
    (
        "m en-us 1 1 0 a; m de-ch 1 1 1 b; m de-at 1 1 2 -",
        "de, en;q=0.5",
        "-",
        "matched de-ch b",
    ),
    (
        "m en-us 1 1 0 a; m en-gb 1 1 1 b",
        "en, en-US;q=0",
        "-",
        "matched en-gb b",
    ),
    ("m de 1 1 0 a; m fr 1 1 1 b", "*", "fr", "default fr b"),
    ("m @none 1 1 0 a", "ja", "en", "nothing"),
    ("m en-us 1 1 0 -", "en", "en-us", "nothing"),
];

/// What is looked up in the cells.
fn answered(
    alloc: Global,
    cells: &str,
    list: &PriorityList,
    widening: Widening,
    tag: &str,
) -> Result<String, Fail> {
    let default = default(alloc, tag)?;
    let held = catalogue(alloc, cells)?;
    looked_up(alloc, &held, list, widening, default.as_ref())
}

fn all_answer(alloc: Global, lookups: &[Lookup], widening: Widening) -> Result<(), Fail> {
    for (cells, field, tag, wanted) in lookups {
        let list = list(alloc, Scheme::Basic, field)?;
        gives_in(field, answered(alloc, cells, &list, widening, tag), wanted)?;
    }
    Ok(())
}

#[test]
fn lookups(rt: HostRuntime) -> Result<(), Fail> {
    all_answer(rt.alloc(), LOOKUPS, Widening::Off)
}

#[test]
fn widened_lookups(rt: HostRuntime) -> Result<(), Fail> {
    all_answer(rt.alloc(), WIDENED, Widening::By(Scheme::Basic))
}

fn found_by_field(alloc: Global, held: &Catalogue, field: &str) -> Result<String, Fail> {
    let list = list(alloc, Scheme::Basic, field)?;
    Ok(found(alloc, held, &id(alloc, "m")?, &list, None)?)
}

fn plain_lookup(alloc: Global, field: &str) -> Result<String, Fail> {
    found_by_field(alloc, &catalogue(alloc, GREETINGS)?, field)
}

/// The languages, each before a blank.
fn tags(alloc: Global, langs: &[&Lang]) -> Result<String, AllocError> {
    let mut text = String::new(alloc);
    for lang in langs {
        text.push_str(lang.as_str())?;
        text.push_str(" ")?;
    }
    Ok(text)
}

fn languages_of(alloc: Global, edits: &str) -> Result<String, Fail> {
    let held = catalogue(alloc, edits)?;
    let langs = held.languages(alloc)?;
    Ok(tags(alloc, &list_languages(alloc, &langs)?)?)
}

#[test]
fn single_cases(rt: HostRuntime) -> Result<(), Fail> {
    let alloc = rt.alloc();
    gives_in(
        "live labels are in order",
        labels_of(alloc, "m"),
        "@none x;en Hello;fr Bonjour;",
    )?;
    gives_in("an unknown message", labels_of(alloc, "z"), "")?;
    gives_in(
        "lent entries are counted from 0",
        lent_at(alloc, "fr;q=0.5, en", 1),
        "fr 500 of 2",
    )?;
    gives_in(
        "a lookup by the call that never widens",
        plain_lookup(alloc, "de, en;q=0.5"),
        "matched en Hello",
    )?;
    gives_in(
        "languages of live labels",
        languages_of(
            alloc,
            "m en 1 1 0 a; m de 1 1 1 -; n @none 1 1 2 b; n en 1 1 3 c; o fr-ca 1 1 4 d",
        ),
        "@none en fr-ca ",
    )
}
