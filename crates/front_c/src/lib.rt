//! The library for C: the questions of `front_core`, which language or label a reader gets. Each
//! export is one call of `silkwaram.h`.
//!
//! - [`sw_pick`] picks a tag for a field.
//! - [`sw_site_open`] reads a site into a handle, [`sw_site_share`] makes one more handle of it,
//!   and [`sw_site_free`] releases it.
//! - [`sw_rules_new`] makes the rules of an offer and a table of fallbacks, and [`sw_rules_free`]
//!   ends them.
//! - [`sw_site_lookup`], [`sw_site_text`], [`sw_site_filter`] and [`sw_site_bundle`] put questions
//!   to a site, of the labels that are offered.
//! - [`sw_text_lookup`], [`sw_text_text`] and [`sw_text_filter`] put them to the document of a site
//!   where it lies.
//! - [`sw_site_new`] makes a site; [`sw_site_put`], [`sw_site_delete`], [`sw_site_import`] and
//!   [`sw_site_update`] edit one, [`sw_site_take`] and [`sw_site_merge`] join edits of others, and
//!   all of these leave the other handles of it as they are.
//! - [`sw_site_write`], [`sw_site_summary`], [`sw_site_status`], [`sw_site_labels`] and
//!   [`sw_site_delta`] write it.
//! - [`sw_filter`] filters tags; [`sw_refusal`], [`sw_refusal_code`] and [`sw_refusal_text`]
//!   explain a refusal.
//! - [`sw_version`] is the version.
//!
//! Each of them returns a status, that of the command for the same question, and reports the rest
//! in a [`Told`], which is written whatever the status. An answer is written to the buffer from its
//! first byte, and the rest of it is as it was. Where the buffer is too small, and where there is
//! no answer or a refusal, all of it is as it was; the status and the reported length are as with
//! room. No export has a `requires`: the contract of each holds for whatever it is passed.
//!
//! A question has [`Rules`]. Their offer is a field too, which is read strictly, as an
//! Accept-Language field; without bytes it stands for `*, x;q=0`: all languages but those of
//! private use. Their table of fallbacks is that of each lookup.
//!
//! The flags of a question are 1, by which its field is a list of extended ranges (RFC 4647 section
//! 2.2), 2, by which malformed elements of the field are skipped, and, for a lookup alone, 4, by
//! which a range also finds the languages that it matches. The flag of [`sw_site_take`] and
//! [`sw_site_merge`] is 8, by which they test the site's own edits, and that of [`sw_site_summary`]
//! is 16, by which it shows labels. A call with any other flag, or with a handle that is not open,
//! has status 2.
#![tactic(auto)]

ghost use Rattle.std.specs.Prelude.{◌≡◌, [], None};
ghost use denote.RawPtr.{null_ptr};
ghost use Rattle.front_c.specs.Calls.{ReportsBundle, ReportsChanges, ReportsDeleted, ReportsDelta};
ghost use Rattle.front_c.specs.Calls.{ReportsFilter, ReportsImported, ReportsLookup};
ghost use Rattle.front_c.specs.Calls.{ReportsLookupText, ReportsMeaning, ReportsMerged};
ghost use Rattle.front_c.specs.Calls.{ReportsMissing, ReportsNew, ReportsOpened, ReportsOutdated};
ghost use Rattle.front_c.specs.Calls.{ReportsPick, ReportsPut, ReportsReadFilter};
ghost use Rattle.front_c.specs.Calls.{ReportsReadLookup, ReportsRefusalCode, ReportsRefusalText};
ghost use Rattle.front_c.specs.Calls.{ReportsRules, ReportsShared, ReportsSummary};
ghost use Rattle.front_c.specs.Calls.{ReportsTagFilter};
ghost use Rattle.front_c.specs.Calls.{ReportsTaken, ReportsUpdated, ReportsView, ReportsWritten};
ghost use Rattle.front_c.specs.Reporting.{ReportsAnswer, ReportsLabelText};
ghost use Rattle.front_c.specs.Handles.{site_of};
ghost use Rattle.front_core.specs.declared.exchange.View.TheVariants.{Document, Export, Labels};
ghost use Rattle.front_core.specs.declared.exchange.View.TheVariants.{Status};

mod handles;
pub mod laws;
mod question;
mod reporting;
mod rules;
mod status;
mod told;

use crate::question::{checks_of, default_of, field_of, lookup_field_of, shows_of};
use crate::reporting::{
    ask, explained, hold, hold_share, report, report_done, report_edit, report_label_text,
    report_nothing, report_pick, report_refusal, report_text, report_text_in, report_usage,
};
use front_core::{
    Filter, FrontFault, Lookup, Missing, OpenSite, Outdated, Reader, VERSION_NUMBER, View, changes,
    delta, filter_tags,
};
pub use handles::site_handle::{SiteBlock, SiteHandle};
pub use rules::Rules;
use std::alloc::{AllocError, Global};
use std::mem;
pub use told::Told;

/// Picks a tag for a field: what lookup (RFC 4647 section 3.4) finds among the tags that are
/// offered, as it was passed in; else the default, if it is not empty, is among these tags and is
/// not refused by the field. There is one tag on a line.
///
/// The reported count is 1 if it is the default. Refused are the default first (1 to 4), then the
/// offer (8, 9), the table of fallbacks (8, 31) and the field (8, 9), then the tags in their order
/// (1 to 4; a line without bytes is 1).
#[unsafe(no_mangle)]
pub extern "C" fn sw_pick(
    alloc: Global,
    flags: u32,
    rules: &Rules<'_>,
    field: &[u8],
    tags: &[u8],
    default: &[u8],
    out: &mut [u8],
    told: &mut Told,
) -> i32
    ensures { ReportsPick flags rules.now field.now tags.now default.now out.old out.new told.new
        result }
{
    match lookup_field_of(flags, rules.fallbacks, field) {
        Some(field) => report_pick(alloc, rules.offering(), field, tags, default, out, told),
        None => report_usage(told),
    }
}

/// Reads a document of a site into a handle. Where the handle is open its old site is released once
/// the new one is read, and kept where the document is refused (1 to 4, 10 to 12, 18 to 21, 27, 28)
/// or memory ends (26).
#[unsafe(no_mangle)]
pub extern "C" fn sw_site_open(
    alloc: Global,
    text: &[u8],
    site: &mut SiteHandle,
    told: &mut Told,
) -> i32
    ensures { ReportsOpened text.now (site_of site.old) (site_of site.new) told.new result }
{
    hold(alloc, OpenSite::read(alloc, text), site, told)
}

/// Makes the empty site of a name in a handle. Where the handle is open its old site is released
/// once the new one is made, and kept where the name is refused (27) or memory ends (26).
#[unsafe(no_mangle)]
pub extern "C" fn sw_site_new(
    alloc: Global,
    name: &[u8],
    site: &mut SiteHandle,
    told: &mut Told,
) -> i32
    ensures { ReportsNew name.now (site_of site.old) (site_of site.new) told.new result }
{
    hold(alloc, OpenSite::new(alloc, name), site, told)
}

/// Puts a label of one text at the time `now`, in milliseconds since 1970 by custom. The other
/// handles of the site keep what they had.
///
/// Refused, and then the site is as it was, are the id (10), the language (1 to 4), the text (18
/// where it is not UTF-8, 11 where it is too long), then the edit if no stamp is left for it (14).
#[unsafe(no_mangle)]
pub extern "C" fn sw_site_put(
    alloc: Global,
    site: &mut SiteHandle,
    now: u64,
    id: &[u8],
    lang: &[u8],
    text: &[u8],
    told: &mut Told,
) -> i32
    ensures { ReportsPut now id.now lang.now text.now (site_of site.old) (site_of site.new) told.new
        result }
{
    match site.open() {
        Some(held) => report_edit(held.put(alloc, now, id, lang, text), told),
        None => report_usage(told),
    }
}

/// Deletes a label at the time `now`. Refused as [`sw_site_put`] is, without the text.
#[unsafe(no_mangle)]
pub extern "C" fn sw_site_delete(
    alloc: Global,
    site: &mut SiteHandle,
    now: u64,
    id: &[u8],
    lang: &[u8],
    told: &mut Told,
) -> i32
    ensures { ReportsDeleted now id.now lang.now (site_of site.old) (site_of site.new) told.new
        result }
{
    match site.open() {
        Some(held) => report_edit(held.delete(alloc, now, id, lang), told),
        None => report_usage(told),
    }
}

/// Joins what the site of another handle has. The other handles of the site keep what they had.
///
/// If `not_after` is not 0, a time of the other site that is greater is refused (29). Then, with
/// flag 8, an edit of this site that it lacks is refused (30), and then one stamp with two labels
/// (13). After each of these the site is as it was. After out of memory (26) each key has its old
/// cell, or none as before, or that of the join, so that a repeat gives the join.
#[unsafe(no_mangle)]
pub extern "C" fn sw_site_merge(
    alloc: Global,
    site: &mut SiteHandle,
    flags: u32,
    other: &mut SiteHandle,
    not_after: u64,
    told: &mut Told,
) -> i32
    ensures other { other.new.value ≡ other.old.value }
    ensures merged { ReportsMerged flags (site_of other.old) not_after (site_of site.old)
        (site_of site.new) told.new result }
{
    let Some(cells) = other.open() else {
        return report_usage(told);
    };
    let Some(checks) = checks_of(flags, not_after) else {
        return report_usage(told);
    };
    match site.open() {
        Some(held) => report_edit(held.merge(alloc, cells.site(), checks), told),
        None => report_usage(told),
    }
}

/// Takes the document of a delta for the site. The other handles of the site keep what they had.
///
/// Refused is first the delta (18 to 21, 27, 28; 10 to 12, or 1 to 4, in a row of it), then, if
/// `not_after` is not 0, a time of it that is greater (29), then a delta for another site (15),
/// then, with flag 8, an edit of this site that it lacks (30), then one stamp with two labels (13).
/// After each of these the site is as it was. After out of memory (26) each key has its old cell,
/// or none as before, or that of the join, so that a repeat gives the join.
#[unsafe(no_mangle)]
pub extern "C" fn sw_site_take(
    alloc: Global,
    site: &mut SiteHandle,
    flags: u32,
    delta: &[u8],
    not_after: u64,
    told: &mut Told,
) -> i32
    ensures { ReportsTaken flags delta.now not_after (site_of site.old) (site_of site.new) told.new
        result }
{
    let Some(checks) = checks_of(flags, not_after) else {
        return report_usage(told);
    };
    match site.open() {
        Some(held) => report_edit(held.take(alloc, delta, checks), told),
        None => report_usage(told),
    }
}

/// Puts the labels of language maps at the time `now`, all or none, as the command `import` does.
///
/// Refused, and then the site is as it was, are the maps (18 to 20, 22; 1 to 4 or 10 to 12 in a row
/// of them), then a label for which no stamp is left (14).
#[unsafe(no_mangle)]
pub extern "C" fn sw_site_import(
    alloc: Global,
    site: &mut SiteHandle,
    now: u64,
    maps: &[u8],
    told: &mut Told,
) -> i32
    ensures { ReportsImported now maps.now (site_of site.old) (site_of site.new) told.new result }
{
    match site.open() {
        Some(held) => report_edit(held.import(alloc, now, maps), told),
        None => report_usage(told),
    }
}

/// Makes the changes from old language maps to new ones at the time `now`, all or none, as the
/// command `update` does. Refused as [`sw_site_import`] is, the old maps first.
#[unsafe(no_mangle)]
pub extern "C" fn sw_site_update(
    alloc: Global,
    site: &mut SiteHandle,
    now: u64,
    old: &[u8],
    new: &[u8],
    told: &mut Told,
) -> i32
    ensures { ReportsUpdated now old.now new.now (site_of site.old) (site_of site.new) told.new
        result }
{
    match site.open() {
        Some(held) => report_edit(held.update(alloc, now, old, new), told),
        None => report_usage(told),
    }
}

/// Answers the document of the site, which [`sw_site_open`] reads as this site.
#[unsafe(no_mangle)]
pub extern "C" fn sw_site_write(
    alloc: Global,
    site: &mut SiteHandle,
    out: &mut [u8],
    told: &mut Told,
) -> i32
    ensures site { site.new.value ≡ site.old.value }
    ensures answer { ReportsView Document (site_of site.old) out.old out.new told.new result }
{
    ask(alloc, site, Ok(View::Document), out, told)
}

/// Answers the document of the site's summary, as the command `summary` prints it. With flag 16 it
/// has a digest of each label too.
#[unsafe(no_mangle)]
pub extern "C" fn sw_site_summary(
    alloc: Global,
    site: &mut SiteHandle,
    flags: u32,
    out: &mut [u8],
    told: &mut Told,
) -> i32
    ensures site { site.new.value ≡ site.old.value }
    ensures answer { ReportsSummary flags (site_of site.old) out.old out.new told.new result }
{
    match shows_of(flags) {
        Some(shows) => ask(alloc, site, Ok(View::Summary(shows)), out, told),
        None => report_usage(told),
    }
}

/// Answers the line of the command `status`.
#[unsafe(no_mangle)]
pub extern "C" fn sw_site_status(
    alloc: Global,
    site: &mut SiteHandle,
    out: &mut [u8],
    told: &mut Told,
) -> i32
    ensures site { site.new.value ≡ site.old.value }
    ensures answer { ReportsView Status (site_of site.old) out.old out.new told.new result }
{
    ask(alloc, site, Ok(View::Status), out, told)
}

/// Answers the document of the delta of what a summary lacks, as the command `delta` prints it.
///
/// Refused is the summary (10, 1 to 4, 18 to 21, 27, 28).
#[unsafe(no_mangle)]
pub extern "C" fn sw_site_delta(
    alloc: Global,
    site: &mut SiteHandle,
    summary: &[u8],
    out: &mut [u8],
    told: &mut Told,
) -> i32
    ensures site { site.new.value ≡ site.old.value }
    ensures answer { ReportsDelta (site_of site.old) summary.now out.old out.new told.new result }
{
    match site.open() {
        Some(held) => report(delta(alloc, held.site(), summary), out, told),
        None => report_usage(told),
    }
}

/// Answers the language maps of all labels, as the command `export` prints them.
#[unsafe(no_mangle)]
pub extern "C" fn sw_site_export(
    alloc: Global,
    site: &mut SiteHandle,
    out: &mut [u8],
    told: &mut Told,
) -> i32
    ensures site { site.new.value ≡ site.old.value }
    ensures answer { ReportsView Export (site_of site.old) out.old out.new told.new result }
{
    ask(alloc, site, Ok(View::Export), out, told)
}

/// Answers how many labels each language has, as the command `labels` prints it.
#[unsafe(no_mangle)]
pub extern "C" fn sw_site_labels(
    alloc: Global,
    site: &mut SiteHandle,
    out: &mut [u8],
    told: &mut Told,
) -> i32
    ensures site { site.new.value ≡ site.old.value }
    ensures answer { ReportsView Labels (site_of site.old) out.old out.new told.new result }
{
    ask(alloc, site, Ok(View::Labels), out, told)
}

/// Answers the language maps of the messages that lack a language, as the command `missing` prints
/// them. Refused is the language (1 to 4).
#[unsafe(no_mangle)]
pub extern "C" fn sw_site_missing(
    alloc: Global,
    site: &mut SiteHandle,
    lang: &[u8],
    out: &mut [u8],
    told: &mut Told,
) -> i32
    ensures site { site.new.value ≡ site.old.value }
    ensures answer { ReportsMissing (site_of site.old) lang.now out.old out.new told.new result }
{
    ask(alloc, site, Missing::read(alloc, lang), out, told)
}

/// Answers the language maps of the messages whose label in a language is older than that in the
/// source language, as the command `outdated` prints them. Refused are the language, then the
/// source (1 to 4).
#[unsafe(no_mangle)]
pub extern "C" fn sw_site_outdated(
    alloc: Global,
    site: &mut SiteHandle,
    lang: &[u8],
    source: &[u8],
    out: &mut [u8],
    told: &mut Told,
) -> i32
    ensures site { site.new.value ≡ site.old.value }
    ensures answer { ReportsOutdated (site_of site.old) lang.now source.now out.old out.new told.new
        result }
{
    ask(alloc, site, Outdated::read(alloc, lang, source), out, told)
}

/// Answers what changed from the site to that of another handle, as the command `changes` prints
/// it.
#[unsafe(no_mangle)]
pub extern "C" fn sw_site_changes(
    alloc: Global,
    site: &mut SiteHandle,
    other: &mut SiteHandle,
    out: &mut [u8],
    told: &mut Told,
) -> i32
    ensures site { site.new.value ≡ site.old.value }
    ensures other { other.new.value ≡ other.old.value }
    ensures answer { ReportsChanges (site_of site.old) (site_of other.old) out.old out.new told.new
        result }
{
    let Some(after) = other.open() else {
        return report_usage(told);
    };
    match site.open() {
        Some(before) => report(changes(alloc, before.site(), after.site()), out, told),
        None => report_usage(told),
    }
}

/// Filters the tags that are offered, one on a line, by a field (RFC 4647, sections 3.3.1 and
/// 3.3.2): `filter N`, then N lines `TAG WEIGHT`, with each tag as it was passed in.
///
/// Refused are the offer (8, 9), then the field (8, 9), then the tags in their order (1 to 4; a
/// line without bytes is 1).
#[unsafe(no_mangle)]
pub extern "C" fn sw_filter(
    alloc: Global,
    flags: u32,
    rules: &Rules<'_>,
    field: &[u8],
    tags: &[u8],
    out: &mut [u8],
    told: &mut Told,
) -> i32
    ensures { ReportsTagFilter flags rules.now field.now tags.now out.old out.new told.new result }
{
    match field_of(flags, field) {
        Some(field) => report(filter_tags(alloc, rules.offering(), field, tags), out, told),
        None => report_usage(told),
    }
}

/// Answers in a sentence, without an end mark, what was wanted where this refusal comes; nothing
/// for a number that no refusal has.
#[unsafe(no_mangle)]
pub extern "C" fn sw_refusal(number: u32, out: &mut [u8], told: &mut Told) -> i32
    ensures { ReportsMeaning number out.old out.new told.new result }
{
    match explained(number) {
        Some(refusal) => report_text(refusal.meaning.as_bytes(), 0, status::FOUND, out, told),
        None => report_nothing(0, told),
    }
}

/// Answers the word for this refusal, as `clock-ahead`, which has at most 32 bytes; nothing for a
/// number that no refusal has.
#[unsafe(no_mangle)]
pub extern "C" fn sw_refusal_code(number: u32, out: &mut [u8], told: &mut Told) -> i32
    ensures { ReportsRefusalCode number out.old out.new told.new result }
{
    match explained(number) {
        Some(refusal) => report_text(refusal.code.as_bytes(), 0, status::FOUND, out, told),
        None => report_nothing(0, told),
    }
}

/// Answers the text that the command prints of this refusal after its number, with `OFFSET`,
/// `INDEX`, `COUNT` and `PLACE` for what [`Told`] reports, but of 13 without the stamp and of 15
/// without the site; nothing for a number that no refusal has.
#[unsafe(no_mangle)]
pub extern "C" fn sw_refusal_text(number: u32, out: &mut [u8], told: &mut Told) -> i32
    ensures { ReportsRefusalText number out.old out.new told.new result }
{
    match explained(number) {
        Some(refusal) => report_text(refusal.text.as_bytes(), 0, status::FOUND, out, told),
        None => report_nothing(0, told),
    }
}

/// Makes the rules of an offer and a table of fallbacks, which are read here for their refusals:
/// the offer first (8, 9), then the table (8, 31). Out of memory (26) may come before. After a
/// refusal the rules are as they were. They borrow both texts.
#[unsafe(no_mangle)]
pub extern "C" fn sw_rules_new<'a>(
    alloc: Global,
    offer: &'a [u8],
    fallbacks: &'a [u8],
    rules: &mut Rules<'a>,
    told: &mut Told,
) -> i32
    ensures { ReportsRules offer.now fallbacks.now rules.old rules.new told.new result }
{
    match Rules::read(alloc, offer, fallbacks) {
        Ok(read) => {
            *rules = read;
            report_done(told)
        }
        Err(fault) => report_refusal(&FrontFault::from(fault), told),
    }
}

/// Leaves the rules with an empty offer and an empty table. They own no memory.
#[unsafe(no_mangle)]
pub extern "C" fn sw_rules_free<'a>(rules: &mut Rules<'a>)
    ensures { (rules.new.offer.now ≡ []) × (rules.new.fallbacks.now ≡ []) }
{
    *rules = Rules {
        offer: &[],
        fallbacks: &[],
    };
}

/// Looks up the label of a message for a field (RFC 4647 section 3.4), or that of the default, and
/// answers the line of the command `lookup`, of the labels that are offered.
///
/// Refused are the id (10), the default (1 to 4), the offer (8, 9), the table of
/// fallbacks (8, 31), then the field (8, 9).
#[unsafe(no_mangle)]
pub extern "C" fn sw_site_lookup(
    alloc: Global,
    site: &mut SiteHandle,
    rules: &Rules<'_>,
    flags: u32,
    id: &[u8],
    field: &[u8],
    default: &[u8],
    out: &mut [u8],
    told: &mut Told,
) -> i32
    ensures site { site.new.value ≡ site.old.value }
    ensures answer { ReportsLookup (site_of site.old) rules.now flags id.now field.now
        default.now out.old out.new told.new result }
{
    match lookup_field_of(flags, rules.fallbacks, field) {
        Some(field) => {
            let asked = Lookup::read(alloc, id, rules.offering(), field, default_of(default));
            ask(alloc, site, asked, out, told)
        }
        None => report_usage(told),
    }
}

/// Answers, as it is, the text at a place, from 0, of the label that [`sw_site_lookup`] finds.
///
/// The reported count is how many texts the label has. A place past them is nothing, and so is a
/// lookup that finds no label. Refusals are those of [`sw_site_lookup`].
#[unsafe(no_mangle)]
pub extern "C" fn sw_site_text(
    alloc: Global,
    site: &mut SiteHandle,
    rules: &Rules<'_>,
    flags: u32,
    id: &[u8],
    field: &[u8],
    default: &[u8],
    place: usize,
    out: &mut [u8],
    told: &mut Told,
) -> i32
    ensures site { site.new.value ≡ site.old.value }
    ensures answer { ReportsLookupText (site_of site.old) rules.now flags id.now
        field.now default.now place out.old out.new told.new result }
{
    let Some(field) = lookup_field_of(flags, rules.fallbacks, field) else {
        return report_usage(told);
    };
    let Some(held) = site.open() else {
        return report_usage(told);
    };
    match Lookup::read(alloc, id, rules.offering(), field, default_of(default)) {
        Ok(asked) => report_label_text(asked.text(held.site(), place), out, told),
        Err(fault) => report_refusal(&fault, told),
    }
}

/// Finds the labels of a message whose languages fit a field (RFC 4647, sections 3.3.1 and 3.3.2),
/// and answers the lines of the command `filter`.
///
/// Refused are the id (10), the offer, then the field (each 8, 9).
#[unsafe(no_mangle)]
pub extern "C" fn sw_site_filter(
    alloc: Global,
    site: &mut SiteHandle,
    rules: &Rules<'_>,
    flags: u32,
    id: &[u8],
    field: &[u8],
    out: &mut [u8],
    told: &mut Told,
) -> i32
    ensures site { site.new.value ≡ site.old.value }
    ensures answer { ReportsFilter (site_of site.old) rules.now flags id.now field.now
        out.old out.new told.new result }
{
    match field_of(flags, field) {
        Some(field) => ask(
            alloc,
            site,
            Filter::read(alloc, id, rules.offering(), field),
            out,
            told,
        ),
        None => report_usage(told),
    }
}

/// Looks up the one label of each message for a field, or that of the default, and answers the
/// language maps of the command `bundle`.
///
/// Refused are the default (1 to 4), the offer (8, 9), the table of
/// fallbacks (8, 31), then the field (8, 9).
#[unsafe(no_mangle)]
pub extern "C" fn sw_site_bundle(
    alloc: Global,
    site: &mut SiteHandle,
    rules: &Rules<'_>,
    flags: u32,
    field: &[u8],
    default: &[u8],
    out: &mut [u8],
    told: &mut Told,
) -> i32
    ensures site { site.new.value ≡ site.old.value }
    ensures answer { ReportsBundle (site_of site.old) rules.now flags field.now
        default.now out.old out.new told.new result }
{
    match lookup_field_of(flags, rules.fallbacks, field) {
        Some(field) => {
            let asked = Reader::read(alloc, rules.offering(), field, default_of(default));
            ask(alloc, site, asked, out, told)
        }
        None => report_usage(told),
    }
}

/// Looks up the one label of a message for a field in the document of a site, where it lies, and
/// answers the line of the command `lookup`.
///
/// Where the rows of the document have no blanks, as in what is written for a site, the call ends
/// as [`sw_site_lookup`] does over that site. Whatever the text is, a question that is refused
/// there is refused here, in the same way. What else is answered or refused for any other text is
/// not said.
#[unsafe(no_mangle)]
pub extern "C" fn sw_text_lookup(
    alloc: Global,
    text: &[u8],
    rules: &Rules<'_>,
    flags: u32,
    id: &[u8],
    field: &[u8],
    default: &[u8],
    out: &mut [u8],
    told: &mut Told,
) -> i32
    ensures written { ReportsWritten text.now (λ site. ReportsLookup site rules.now
        flags id.now field.now default.now) out.old out.new told.new result }
    ensures read { ReportsReadLookup rules.now flags id.now field.now default.now
        ReportsAnswer out.old out.new told.new result }
{
    let Some(field) = lookup_field_of(flags, rules.fallbacks, field) else {
        return report_usage(told);
    };
    match Lookup::read(alloc, id, rules.offering(), field, default_of(default)) {
        Ok(lookup) => report(lookup.answer_in(alloc, text), out, told),
        Err(fault) => report_refusal(&fault, told),
    }
}

/// Answers, as it is, the text at a place, from 0, of the label that [`sw_text_lookup`] finds, as
/// [`sw_site_text`] does over the site of the text. A question is refused as [`sw_text_lookup`]
/// refuses it.
#[unsafe(no_mangle)]
pub extern "C" fn sw_text_text(
    alloc: Global,
    text: &[u8],
    rules: &Rules<'_>,
    flags: u32,
    id: &[u8],
    field: &[u8],
    default: &[u8],
    place: usize,
    out: &mut [u8],
    told: &mut Told,
) -> i32
    ensures written { ReportsWritten text.now (λ site. ReportsLookupText site
        rules.now flags id.now field.now default.now place) out.old out.new told.new
        result }
    ensures read { ReportsReadLookup rules.now flags id.now field.now default.now
        ReportsLabelText out.old out.new told.new result }
{
    let Some(field) = lookup_field_of(flags, rules.fallbacks, field) else {
        return report_usage(told);
    };
    match Lookup::read(alloc, id, rules.offering(), field, default_of(default)) {
        Ok(asked) => report_text_in(alloc, text, &asked, place, out, told),
        Err(fault) => report_refusal(&fault, told),
    }
}

/// Finds the labels of a message whose languages fit a field in the document of a site, where it
/// lies, and answers the lines of the command `filter`, as [`sw_site_filter`] does over the site of
/// the text. Whatever the text is, a question that is refused there is refused here, in the same
/// way.
#[unsafe(no_mangle)]
pub extern "C" fn sw_text_filter(
    alloc: Global,
    text: &[u8],
    rules: &Rules<'_>,
    flags: u32,
    id: &[u8],
    field: &[u8],
    out: &mut [u8],
    told: &mut Told,
) -> i32
    ensures written { ReportsWritten text.now (λ site. ReportsFilter site rules.now
        flags id.now field.now) out.old out.new told.new result }
    ensures read { ReportsReadFilter rules.now flags id.now field.now out.old out.new
        told.new result }
{
    let Some(field) = field_of(flags, field) else {
        return report_usage(told);
    };
    match Filter::read(alloc, id, rules.offering(), field) {
        Ok(filter) => report(filter.answer_in(alloc, text), out, told),
        Err(fault) => report_refusal(&fault, told),
    }
}

/// Makes the other handle one more handle of the same site, for another thread: both share the
/// memory. Where the other handle is open its old site is released; where there is no site to
/// share, or memory ends, it is left as it was.
#[unsafe(no_mangle)]
pub extern "C" fn sw_site_share(alloc: Global, site: &mut SiteHandle, other: &mut SiteHandle) -> i32
    ensures site { site.new.value ≡ site.old.value }
    ensures shared { ReportsShared (site_of site.old) (site_of other.old) (site_of other.new)
        result }
{
    let Some(held) = site.open() else {
        return status::USAGE;
    };
    match held.share() {
        Ok(share) => hold_share(alloc, share, other),
        Err(AllocError) => status::OUT_OF_MEMORY,
    }
}

/// Releases the site of a handle, and leaves the handle closed, of zeros. The last handle of a site
/// frees its memory; a handle that is not open stays as it is.
#[unsafe(no_mangle)]
pub extern "C" fn sw_site_free(alloc: Global, site: &mut SiteHandle)
    ensures { (site.new.value ≡ None) × (site.new.at ≡ null_ptr) }
{
    mem::replace(site, SiteHandle::closed(alloc)).close(alloc);
}

/// The version of the library: 10,000 times its major number, 100 times its minor number and its
/// patch number, added up.
#[unsafe(no_mangle)]
pub extern "C" fn sw_version() -> u32
    ensures { result ≡ VERSION_NUMBER }
{
    VERSION_NUMBER
}
