//! The fields of a step, each by the call that reads it.
ghost use Rattle.std.specs.Prelude.{◌≡◌, option_map, MatchResult};
ghost use Rattle.std.specs.Str.{str_to_ascii_lowercase};
ghost use Rattle.json_docs.specs.FaultChecks.{AllPass, FirstFails, OrMemory};
ghost use Rattle.json_docs.specs.declared.fault.DocCause.TheVariants.{NoMemory};
ghost use Rattle.row_docs.specs.ShapesRowsSeen.{AreTextsOf, cell_of};
ghost use Rattle.script_docs.specs.StepFields.{IsListRefusal, Lists, Makes, default_checks};
ghost use Rattle.script_docs.specs.StepFields.{step_fields};
ghost use Rattle.script_docs.specs.Steps.{edit_step, filter_step, lookup_step};
ghost use Rattle.script_docs.specs.inner.StepsSeen.{HasTexts, text_of};

use crate::steps::StepRow;
use cata_core::{Edit, Step};
use json_docs::{DocCause, FieldFault};
use lang_core::Lang;
use nego_core::{Malformed, NegoFault, PriorityList, Scheme};
use row_docs::{CellRow, cell_entry, id_of, language_of};
use std::alloc::Global;

/// What the fields of a step make.
///
/// Refused by the first field that breaks its rule: message id (10), language (1 to 4), site name
/// (27) and label (12, 11) of an edit; message id (10), priority list (8, 9) and default (1 to 4)
/// of a question; or since memory ran out (26).
pub(crate) fn read_step(alloc: Global, place: usize, row: StepRow<'_, '_>) -> Result<Step, DocCause>
    requires { HasTexts row }
    ensures { MatchResult result
        (λ step. AllPass (step_fields place (text_of row.entry)) × Makes (text_of row.entry) step)
        (OrMemory NoMemory (FirstFails (step_fields place (text_of row.entry)))) }
{
    match row {
        StepRow::Edit { site, cell } => read_edit(alloc, place, site, cell),
        StepRow::Filter {
            site,
            id,
            scheme,
            field,
        } => read_filter(alloc, place, site, id, scheme, field),
        StepRow::Lookup {
            site,
            id,
            field,
            default,
        } => read_lookup(alloc, place, site, id, field, default),
        StepRow::Merge { into, source } => Ok(Step::Merge {
            into: into as usize,
            source: source as usize,
        }),
        StepRow::Cells { site } => Ok(Step::AskCells {
            site: site as usize,
        }),
        StepRow::Tell { site } => Ok(Step::Tell {
            site: site as usize,
        }),
        StepRow::Post { site, told } => Ok(Step::Post {
            site: site as usize,
            told: told as usize,
        }),
        StepRow::Deliver { post } => Ok(Step::Deliver {
            post: post as usize,
        }),
    }
}

/// The fields of an edit.
fn read_edit(
    alloc: Global,
    place: usize,
    site: u32,
    cell: CellRow<'_, '_>,
) -> Result<Step, DocCause>
    requires { AreTextsOf cell.texts }
    ensures { let text = edit_step site (cell_of cell.entry) in MatchResult result
        (λ step. AllPass (step_fields place text) × Makes text step)
        (OrMemory NoMemory (FirstFails (step_fields place text))) }
{
    let (id, lang, cell) = cell_entry(alloc, place, cell)?.into_parts();
    Ok(Step::Edit {
        site: site as usize,
        edit: Edit::new(id, lang, cell),
    })
}

/// The fields of a filter.
fn read_filter(
    alloc: Global,
    place: usize,
    site: u32,
    id: &str,
    scheme: Scheme,
    field: &str,
) -> Result<Step, DocCause>
    ensures { let text = filter_step site id.now scheme field.now in MatchResult result
        (λ step. AllPass (step_fields place text) × Makes text step)
        (OrMemory NoMemory (FirstFails (step_fields place text))) }
{
    let id = id_of(alloc, place, id)?;
    let list = list_of(alloc, place, scheme, field)?;
    Ok(Step::AskFilter {
        site: site as usize,
        id,
        scheme,
        list,
    })
}

/// The fields of a lookup.
fn read_lookup(
    alloc: Global,
    place: usize,
    site: u32,
    id: &str,
    field: &str,
    default: Option<&str>,
) -> Result<Step, DocCause>
    ensures { let text = lookup_step site id.now field.now (option_map (λ s. s.now) default.entry)
        in MatchResult result
        (λ step. AllPass (step_fields place text) × Makes text step)
        (OrMemory NoMemory (FirstFails (step_fields place text))) }
{
    let id = id_of(alloc, place, id)?;
    let list = list_of(alloc, place, Scheme::Basic, field)?;
    let default = default_of(alloc, place, default)?;
    Ok(Step::AskLookup {
        site: site as usize,
        id,
        list,
        default,
    })
}

/// The priority list of a question.
fn list_of(
    alloc: Global,
    place: usize,
    scheme: Scheme,
    field: &str,
) -> Result<PriorityList, DocCause>
    ensures { MatchResult result (Lists scheme field.now)
        (OrMemory NoMemory (IsListRefusal place scheme field.now)) }
{
    match PriorityList::parse(alloc, scheme, Malformed::Refused, field.as_bytes()) {
        Ok(list) => Ok(list),
        Err(NegoFault::NoMemory) => Err(DocCause::NoMemory),
        Err(fault) => Err(DocCause::Field {
            row: place,
            fault: FieldFault::Priorities(fault),
        }),
    }
}

/// The default of a lookup; no text is none.
fn default_of(alloc: Global, place: usize, default: Option<&str>) -> Result<Option<Lang>, DocCause>
    ensures { let text = option_map (λ s. s.now) default.entry in MatchResult result
        (λ lang. AllPass (default_checks place text)
        × (lang ≡ option_map str_to_ascii_lowercase text))
        (OrMemory NoMemory (FirstFails (default_checks place text))) }
{
    match default {
        None => Ok(None),
        Some(text) => {
            let lang = language_of(alloc, place, text)?;
            Ok(Some(lang))
        }
    }
}
