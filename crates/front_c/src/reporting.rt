//! What a call comes to, reported to C: its status, its record and the buffer of its answer.
ghost use Rattle.std.specs.Prelude.{◌≡◌, ◌≤◌, ◌++◌, Err, MatchResult, Ok, drop, length, option_map};
ghost use Rattle.cata_core.specs.Site.{SiteState};
ghost use Rattle.front_core.specs.Ask.{AnswersText, IsAnswer, IsNoMemory, RefusesAnswer};
ghost use Rattle.text_docs.specs.Message.{IsCompactSite};
ghost use Rattle.front_core.specs.Preferences.{field_text};
ghost use Rattle.docs_core.specs.Lines.{lines_of};
ghost use Rattle.front_core.specs.Offering.{offers_of};
ghost use Rattle.front_core.specs.TagPick.{IsPickedOffered, RefusesPickOffered};
ghost use Rattle.front_core.specs.Refusal.{refusal_of, refusal_texts};
ghost use Rattle.front_c.specs.Calls.{IsShared, ReportsAsked};
ghost use Rattle.front_c.specs.inner.Calls.{IsHeld};
ghost use Rattle.front_c.specs.Handles.{site_of};
ghost use Rattle.front_c.specs.Question.{default_of};
ghost use Rattle.front_c.specs.Reporting.{IsWrittenTo, ReportsAnswer, ReportsDone, ReportsEither};
ghost use Rattle.front_c.specs.Reporting.{ReportsFault, ReportsLabelText, ReportsPicked};
ghost use Rattle.front_c.specs.Reporting.{ReportsRefusal, ReportsSome, ReportsText, ReportsUsage};
ghost use Rattle.front_c.specs.Reporting.{answered};
ghost use Rattle.front_c.specs.Reporting.{refused};
ghost use Rattle.front_c.specs.Status.{nothing, usage};

use crate::handles::site_handle::SiteHandle;
use crate::question::default_of;
use crate::status;
use crate::told::Told;
use front_core::{
    Answer, Field, FrontFault, LabelText, Lookup, Offering, OpenSite, Picked, Question, Refusal,
    SiteIn, explain, message_in, pick,
};
use std::alloc::Global;
use std::mem;

/// Reports what answers a question to the site of a handle, or why it is refused.
pub(crate) fn ask<Q: Question>(
    alloc: Global,
    site: &mut SiteHandle,
    question: Result<Q, FrontFault>,
    out: &mut [u8],
    told: &mut Told,
) -> i32
    ensures site { site.new.value ≡ site.old.value }
    ensures answer { ReportsAsked (site_of site.old)
        (IsAnswer (λ asked. question ≡ Ok asked) Q.Answers)
        (RefusesAnswer (λ asked. question ≡ Ok asked) (λ fault. question ≡ Err fault))
        out.old out.new told.new result }
{
    let Some(held) = site.open() else {
        return report_usage(told);
    };
    match question {
        Ok(asked) => report(asked.answer(alloc, SiteIn::Open(held.site())), out, told),
        Err(fault) => report_refusal(&fault, told),
    }
}

/// Puts a site into a handle, and releases the old one of the handle; or reports why there is none.
pub(crate) fn hold(
    alloc: Global,
    made: Result<OpenSite, FrontFault>,
    site: &mut SiteHandle,
    told: &mut Told,
) -> i32
    ensures { IsHeld made (site_of site.old) (site_of site.new) told.new result }
{
    match made {
        Ok(open) => match SiteHandle::new(alloc, open) {
            Some(handle) => {
                mem::replace(site, handle).close(alloc);
                report_done(told)
            }
            None => report_refusal(&FrontFault::NoMemory, told),
        },
        Err(fault) => report_refusal(&fault, told),
    }
}

/// Makes the other handle hold this share, and releases its old site; the status.
pub(crate) fn hold_share(alloc: Global, share: OpenSite, other: &mut SiteHandle) -> i32
    ensures { IsShared share (site_of other.old) (site_of other.new) result }
{
    match SiteHandle::new(alloc, share) {
        Some(handle) => {
            mem::replace(other, handle).close(alloc);
            status::FOUND
        }
        None => status::OUT_OF_MEMORY,
    }
}

/// Reports an answer, or a refusal.
pub(crate) fn report(answer: Result<Answer, FrontFault>, out: &mut [u8], told: &mut Told) -> i32
    ensures { MatchResult answer (λ found. ReportsAnswer found out.old out.new told.new result)
        (λ fault. ReportsRefusal fault out.old out.new told.new result) }
{
    match answer {
        Ok(found) => {
            let status = status::of_outcome(found.outcome);
            report_text(found.text.bytes(), 0, status, out, told)
        }
        Err(fault) => report_refusal(&fault, told),
    }
}

/// Reports the tag that a field picks, or a refusal.
pub(crate) fn report_pick(
    alloc: Global,
    offering: Offering<'_>,
    field: Field<'_>,
    tags: &[u8],
    default: &[u8],
    out: &mut [u8],
    told: &mut Told,
) -> i32
    ensures { ReportsEither (IsPickedOffered (offers_of offering.entry) (field_text field.entry)
        (default_of default.now) (lines_of tags.now))
        (RefusesPickOffered (offers_of offering.entry) (field_text field.entry)
        (default_of default.now) (lines_of tags.now))
        ReportsPicked out.old out.new told.new result }
{
    match pick(alloc, offering, field, default_of(default), tags) {
        Ok(picked) => report_picked(picked, out, told),
        Err(fault) => report_refusal(&fault, told),
    }
}

/// Reports a text of a label; the count is that of the label's texts.
pub(crate) fn report_label_text(text: LabelText<'_>, out: &mut [u8], told: &mut Told) -> i32
    ensures { ReportsLabelText text.entry out.old out.new told.new result }
{
    match text {
        LabelText::Found { text, count } => {
            report_text(text.as_bytes(), count, status::FOUND, out, told)
        }
        LabelText::PastEnd { count } => report_nothing(count, told),
        LabelText::Nothing => report_nothing(0, told),
    }
}

/// Reports a text of the label that a lookup finds in the document of a site where it lies.
pub(crate) fn report_text_in(
    alloc: Global,
    text: &[u8],
    asked: &Lookup,
    place: usize,
    out: &mut [u8],
    told: &mut Told,
) -> i32
    ensures written { (site : SiteState) → IsCompactSite text.now site
        → ReportsEither (AnswersText site.cells asked.now place) IsNoMemory ReportsLabelText
        out.old out.new told.new result }
    ensures some { ReportsSome ReportsLabelText out.old out.new told.new result }
{
    match message_in(alloc, text, &asked.id) {
        Ok(part) => report_label_text(asked.text(&part, place), out, told),
        Err(fault) => report_refusal(&fault, told),
    }
}

/// Reports what an edit came to.
pub(crate) fn report_edit(edit: Result<(), FrontFault>, told: &mut Told) -> i32
    ensures { MatchResult edit (λ _. ReportsDone told.new result)
        (λ fault. ReportsFault fault told.new result) }
{
    match edit {
        Ok(()) => report_done(told),
        Err(fault) => report_refusal(&fault, told),
    }
}

/// The refusal of a number, where there is one.
pub(crate) fn explained(number: u32) -> Option<Refusal>
    ensures { option_map refusal_texts result ≡ refusal_of number }
{
    match u8::try_from(number) {
        Ok(number) => explain(number),
        Err(_) => None,
    }
}

/// Reports that a call without an answer is done.
pub(crate) fn report_done(told: &mut Told) -> i32
    ensures { ReportsDone told.new result }
{
    *told = Told::answered(0, 0);
    status::FOUND
}

/// Reports that there is no question: a flag is unknown, or the handle is not open.
pub(crate) fn report_usage(told: &mut Told) -> i32
    ensures { (result ≡ usage) × (told.new ≡ answered 0 0) }
{
    *told = Told::answered(0, 0);
    status::USAGE
}

/// Reports a refusal.
pub(crate) fn report_refusal(fault: &FrontFault, told: &mut Told) -> i32
    ensures { ReportsFault fault.now told.new result }
{
    *told = Told::refused(fault);
    status::of_refusal(fault)
}

/// Reports that nothing was found.
pub(crate) fn report_nothing(count: usize, told: &mut Told) -> i32
    ensures { (result ≡ nothing) × (told.new ≡ answered 0 count) }
{
    *told = Told::answered(0, count);
    status::NOTHING
}

/// Reports a text, with a count and a status.
pub(crate) fn report_text(
    text: &[u8],
    count: usize,
    status: i32,
    out: &mut [u8],
    told: &mut Told,
) -> i32
    ensures { ReportsText text.now count status out.old out.new told.new result }
{
    write_to(text, out);
    *told = Told::answered(text.len(), count);
    status
}

/// Reports the tag that a pick finds; the count is 1 where it is the default.
fn report_picked(picked: Picked<'_>, out: &mut [u8], told: &mut Told) -> i32
    ensures { ReportsPicked picked.entry out.old out.new told.new result }
{
    match picked {
        Picked::Matched(tag) => report_text(tag, 0, status::FOUND, out, told),
        Picked::Default(tag) => report_text(tag, 1, status::FOUND, out, told),
        Picked::Nothing => report_nothing(0, told),
    }
}

/// Writes a text to the start of the buffer, where there is room for all of it.
fn write_to(text: &[u8], out: &mut [u8])
    ensures { IsWrittenTo text.now out.old out.new }
{
    if text.len() <= out.len() {
        copy_to_front(text, out);
    }
}

/// Copies a text to the start of the buffer, which has room for it.
fn copy_to_front(text: &[u8], out: &mut [u8])
    requires { length text.now ≤ length out.old }
    ensures { out.new ≡ text.now ++ drop (length text.now) out.old }
{
    out[..text.len()].copy_from_slice(text);
}
