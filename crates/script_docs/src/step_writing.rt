//! The steps of a script as rows of its document, written.
ghost use Rattle.std.specs.Prelude.{◌≡◌, IfErr, IfOk, OnOk};
ghost use Rattle.cata_core.specs.declared.step.Step.TheVariants.{AskCells, AskFilter, AskLookup};
ghost use Rattle.cata_core.specs.declared.step.Step.TheVariants.{Deliver, Edit as EditStep, Merge};
ghost use Rattle.cata_core.specs.declared.step.Step.TheVariants.{Post, Tell};
ghost use Rattle.cell_core.specs.MessageId.{IsMessageId};
ghost use Rattle.json_docs.specs.declared.fault.DocCause.TheVariants.{Shape};
ghost use Rattle.row_docs.specs.Entries.{row_of};
ghost use Rattle.row_docs.specs.WritingTexts.{Adds, value_tokens};
ghost use Rattle.row_docs.specs.EntriesValid.{IsKeptCell};
ghost use Rattle.script_docs.specs.StepsWritten.{FitsMember, edit_value, filter_value};
ghost use Rattle.script_docs.specs.StepsWritten.{lookup_value, pair_value, scheme_text};
ghost use Rattle.script_docs.specs.StepsWritten.{single_value};
ghost use Rattle.script_docs.specs.inner.StepsWritten.{IsDefault, RefusesRow, RefusesStep};
ghost use Rattle.script_docs.specs.inner.StepsWritten.{WritesStep};
ghost use Rattle.json_docs.specs.declared.fault.Spot.TheVariants as spot;

use crate::field_writing::field_of;
use cata_core::{Edit, Step};
use cell_core::MessageId;
use json::Writer;
use json_docs::{DocCause, Spot};
use lang_core::Lang;
use nego_core::{PriorityList, Scheme};
use row_docs::write_entry;
use std::alloc::{AllocError, Global};

/// The most that a document has as the number of a site, a told summary or a post.
const MAX_NUMBER: usize = 4_294_967_295;

/// Adds the row of the step at this place.
///
/// Refused in its row (20) where a number of the step is over 32 bits, or no field gives its
/// priority list; or since memory ran out (26).
pub(crate) fn write_step(
    alloc: Global,
    out: &mut Writer,
    place: usize,
    step: &Step,
) -> Result<(), DocCause>
    ensures ok { OnOk result (WritesStep step.now out.old out.new) }
    ensures err { IfErr result (RefusesStep place step.now) }
{
    match step {
        Step::Edit { site, edit } => write_edit(out, place, *site, edit),
        Step::Merge { into, source } => write_merge(out, place, *into, *source),
        Step::AskFilter {
            site,
            id,
            scheme,
            list,
        } => write_filter(alloc, out, place, *site, id, *scheme, list),
        Step::AskLookup {
            site,
            id,
            list,
            default,
        } => write_lookup(alloc, out, place, *site, id, list, default),
        Step::AskCells { site } => write_cells(out, place, *site),
        Step::Tell { site } => write_tell(out, place, *site),
        Step::Post { site, told } => write_post(out, place, *site, *told),
        Step::Deliver { post } => write_deliver(out, place, *post),
    }
}

/// Adds the row of an edit.
fn write_edit(out: &mut Writer, place: usize, site: usize, edit: &Edit) -> Result<(), DocCause>
    ensures ok { OnOk result (WritesStep (EditStep site edit.now) out.old out.new) }
    ensures err { IfErr result (RefusesStep place (EditStep site edit.now)) }
{
    let Ok(number) = number_of(place, site) else {
        return Err(no_row(place));
    };
    edit_row(out, number, edit)?;
    Ok(())
}

/// Adds the row of a merge.
fn write_merge(out: &mut Writer, place: usize, into: usize, source: usize) -> Result<(), DocCause>
    ensures ok { OnOk result (WritesStep (Merge into source) out.old out.new) }
    ensures err { IfErr result (RefusesStep place (Merge into source)) }
{
    write_pair(out, place, "merge", into, source)
}

/// Adds the row of a filter.
fn write_filter(
    alloc: Global,
    out: &mut Writer,
    place: usize,
    site: usize,
    id: &MessageId,
    scheme: Scheme,
    list: &PriorityList,
) -> Result<(), DocCause>
    ensures ok { OnOk result (WritesStep (AskFilter site id.now scheme list.now) out.old out.new) }
    ensures err { IfErr result (RefusesStep place (AskFilter site id.now scheme list.now)) }
{
    let number = number_of(place, site)?;
    let Some(field) = field_of(alloc, scheme, list)? else {
        return Err(no_row(place));
    };
    filter_row(out, number, id, scheme, field.as_str())?;
    Ok(())
}

/// Adds the row of a lookup.
fn write_lookup(
    alloc: Global,
    out: &mut Writer,
    place: usize,
    site: usize,
    id: &MessageId,
    list: &PriorityList,
    default: &Option<Lang>,
) -> Result<(), DocCause>
    ensures ok { OnOk result
        (WritesStep (AskLookup site id.now list.now default.now) out.old out.new) }
    ensures err { IfErr result (RefusesStep place (AskLookup site id.now list.now default.now)) }
{
    let number = number_of(place, site)?;
    let Some(field) = field_of(alloc, Scheme::Basic, list)? else {
        return Err(no_row(place));
    };
    lookup_row(out, number, id, field.as_str(), default)?;
    Ok(())
}

/// Adds the row of a question for all cells.
fn write_cells(out: &mut Writer, place: usize, site: usize) -> Result<(), DocCause>
    ensures ok { OnOk result (WritesStep (AskCells site) out.old out.new) }
    ensures err { IfErr result (RefusesStep place (AskCells site)) }
{
    write_single(out, place, "cells", site)
}

/// Adds the row of a told summary.
fn write_tell(out: &mut Writer, place: usize, site: usize) -> Result<(), DocCause>
    ensures ok { OnOk result (WritesStep (Tell site) out.old out.new) }
    ensures err { IfErr result (RefusesStep place (Tell site)) }
{
    write_single(out, place, "tell", site)
}

/// Adds the row of a post.
fn write_post(out: &mut Writer, place: usize, site: usize, told: usize) -> Result<(), DocCause>
    ensures ok { OnOk result (WritesStep (Post site told) out.old out.new) }
    ensures err { IfErr result (RefusesStep place (Post site told)) }
{
    write_pair(out, place, "post", site, told)
}

/// Adds the row of a delivery.
fn write_deliver(out: &mut Writer, place: usize, post: usize) -> Result<(), DocCause>
    ensures ok { OnOk result (WritesStep (Deliver post) out.old out.new) }
    ensures err { IfErr result (RefusesStep place (Deliver post)) }
{
    write_single(out, place, "deliver", post)
}

/// Adds a step of one number.
fn write_single(out: &mut Writer, place: usize, word: &str, first: usize) -> Result<(), DocCause>
    ensures ok { OnOk result
        (FitsMember first × Adds out.old out.new (value_tokens (single_value word.now first))) }
    ensures err { IfErr result (RefusesRow place (FitsMember first)) }
{
    let Ok(number) = number_of(place, first) else {
        return Err(no_row(place));
    };
    single_row(out, word, number)?;
    Ok(())
}

/// Adds a step of two numbers.
fn write_pair(
    out: &mut Writer,
    place: usize,
    word: &str,
    first: usize,
    second: usize,
) -> Result<(), DocCause>
    ensures ok { OnOk result
        (FitsMember first × FitsMember second
        × Adds out.old out.new (value_tokens (pair_value word.now first second))) }
    ensures err { IfErr result (RefusesRow place (FitsMember first × FitsMember second)) }
{
    let Ok(number) = number_of(place, first) else {
        return Err(no_row(place));
    };
    let Ok(other) = number_of(place, second) else {
        return Err(no_row(place));
    };
    pair_row(out, word, number, other)?;
    Ok(())
}

/// The number, where it is of 32 bits.
fn number_of(place: usize, number: usize) -> Result<u64, DocCause>
    ensures ok { IfOk result (λ n. FitsMember number × (n ≡ number)) }
    ensures err { IfErr result
        (λ cause. (¬ (FitsMember number)) × (cause ≡ Shape (spot.Row place))) }
{
    if number <= MAX_NUMBER {
        Ok(number as u64)
    } else {
        Err(no_row(place))
    }
}

/// No document has the step at this place.
fn no_row(place: usize) -> DocCause
    ensures { result ≡ Shape (spot.Row place) }
{
    DocCause::Shape {
        spot: Spot::Row(place),
    }
}

/// Adds `[WORD, NUMBER]`.
fn single_row(out: &mut Writer, word: &str, number: u64) -> Result<(), AllocError>
    ensures { OnOk result (Adds out.old out.new (value_tokens (single_value word.now number))) }
{
    out.begin_array()?;
    out.string(word)?;
    out.u64(number)?;
    out.end_array()
}

/// Adds `[WORD, FIRST, SECOND]`.
fn pair_row(out: &mut Writer, word: &str, first: u64, second: u64) -> Result<(), AllocError>
    ensures { OnOk result (Adds out.old out.new (value_tokens (pair_value word.now first second))) }
{
    out.begin_array()?;
    out.string(word)?;
    out.u64(first)?;
    out.u64(second)?;
    out.end_array()
}

/// Adds `["edit", SITE, CELL]`, with the row of the cell.
fn edit_row(out: &mut Writer, site: u64, edit: &Edit) -> Result<(), AllocError>
    ensures tokens { OnOk result
        (Adds out.old out.new (value_tokens (edit_value site (row_of edit.now) edit.now.1.label))) }
    ensures kept { OnOk result (IsKeptCell edit.now) }
{
    out.begin_array()?;
    out.string("edit")?;
    out.u64(site)?;
    write_entry(out, edit.id(), edit.lang(), edit.cell())?;
    out.end_array()
}

/// Adds `["filter", SITE, ID, SCHEME, FIELD]`.
fn filter_row(
    out: &mut Writer,
    site: u64,
    id: &MessageId,
    scheme: Scheme,
    field: &str,
) -> Result<(), AllocError>
    ensures tokens { OnOk result
        (Adds out.old out.new (value_tokens (filter_value site id.now scheme field.now))) }
    ensures id { OnOk result (IsMessageId id.now) }
{
    out.begin_array()?;
    out.string("filter")?;
    out.u64(site)?;
    out.string(id.as_str())?;
    out.string(scheme_text(scheme))?;
    out.string(field)?;
    out.end_array()
}

/// Adds `["lookup", SITE, ID, FIELD, DEFAULT]`; no default is null.
fn lookup_row(
    out: &mut Writer,
    site: u64,
    id: &MessageId,
    field: &str,
    default: &Option<Lang>,
) -> Result<(), AllocError>
    ensures tokens { OnOk result
        (Adds out.old out.new (value_tokens (lookup_value site id.now field.now default.now))) }
    ensures id { OnOk result (IsMessageId id.now) }
    ensures default { OnOk result (IsDefault default.now) }
{
    out.begin_array()?;
    out.string("lookup")?;
    out.u64(site)?;
    out.string(id.as_str())?;
    out.string(field)?;
    match default {
        None => out.null()?,
        Some(lang) => out.string(lang.as_str())?,
    }
    out.end_array()
}

/// The name of a scheme.
fn scheme_text(scheme: Scheme) -> &'static str
    ensures { result.now ≡ scheme_text scheme }
{
    match scheme {
        Scheme::Basic => "basic",
        Scheme::Extended => "extended",
    }
}
