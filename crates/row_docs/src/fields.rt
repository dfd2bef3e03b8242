//! The fields of a row, each by the call that reads it.
ghost use Rattle.std.specs.Prelude.{◌≡◌, Some, map, option_map, string_bytes, MatchResult, IfOk};
ghost use Rattle.cell_core.specs.MessageId.{IsMessageId};
ghost use Rattle.cell_core.specs.SiteName.{IsSiteName};
ghost use Rattle.cell_core.specs.declared.fault.CellFault.TheVariants.{IdRefused};
ghost use Rattle.cell_core.specs.declared.fault.CellFault.TheVariants.{SiteName as NameRefused};
ghost use Rattle.lang_core.specs.Lang.{SpellsLang};
ghost use Rattle.json_docs.specs.FaultChecks.{AllPass, FirstFails, OrMemory};
ghost use Rattle.json_docs.specs.ScanningReads.{seen};
ghost use Rattle.row_docs.specs.Fields.{IsLabelRefusal, IsLabelText, IsLanguageRefusal};
ghost use Rattle.row_docs.specs.Fields.{cell_cause, cell_fields, entry_of, stamp_fields};
ghost use Rattle.row_docs.specs.Fields.{stamped_of};
ghost use Rattle.serde_json.specs.Find.{as_str};
ghost use Rattle.std.specs.List.{filter_map};
ghost use Rattle.json_docs.specs.declared.fault.DocCause.TheVariants.{Field, NoMemory};
ghost use Rattle.json_docs.specs.declared.fault.FieldFault.TheVariants.{Cell as CellRefused};
ghost use Rattle.row_docs.specs.ShapesRowsSeen.{AreTexts, AreTextsOf, row_of, site_of, texts_of};

use crate::shapes::{CellRow, Row, SiteText};
use cell_core::{Cell, CellFault, Entry, Label, MessageId, SiteName, Stamp};
use json::Value;
use json_docs::{DocCause, FieldFault, text_of};
use lang_core::{Lang, LangFault};
use std::alloc::{AllocError, Global};

/// The id of a row.
pub fn id_of(alloc: Global, place: usize, text: &str) -> Result<MessageId, DocCause>
    ensures { MatchResult result (λ id. IsMessageId text.now × (id ≡ text.now))
        (OrMemory NoMemory (λ e. (¬ (IsMessageId text.now))
        × (e ≡ Field place (CellRefused IdRefused)))) }
{
    match MessageId::new(alloc, text) {
        Ok(id) => Ok(id),
        Err(fault) => Err(of_cell(place, fault)),
    }
}

/// The language of a row.
pub fn language_of(alloc: Global, place: usize, text: &str) -> Result<Lang, DocCause>
    ensures { MatchResult result (SpellsLang text.now)
        (OrMemory NoMemory (IsLanguageRefusal place text.now)) }
{
    match Lang::parse(alloc, text.as_bytes()) {
        Ok(lang) => Ok(lang),
        Err(LangFault::NoMemory) => Err(DocCause::NoMemory),
        Err(fault) => Err(DocCause::Field {
            row: place,
            fault: FieldFault::Language(fault),
        }),
    }
}

/// The name of a row's site; a number has its padded name.
pub(crate) fn name_of(place: usize, site: SiteText<'_>) -> Result<SiteName, DocCause>
    ensures { MatchResult result
        (λ name. IsSiteName (site_of site.entry) × (name ≡ site_of site.entry))
        (λ e. (¬ (IsSiteName (site_of site.entry))) × (e ≡ Field place (CellRefused NameRefused))) }
{
    match site {
        SiteText::Number(number) => Ok(SiteName::of_number(number)),
        SiteText::Name(text) => match SiteName::new(text) {
            Ok(name) => Ok(name),
            Err(fault) => Err(of_cell(place, fault)),
        },
    }
}

/// The label of a row; no texts are a deletion.
pub(crate) fn label_of(
    alloc: Global,
    place: usize,
    texts: Option<&[Value<'_>]>,
) -> Result<Option<Label>, DocCause>
    requires { AreTextsOf texts }
    ensures { let plain = option_map (λ values. texts_of values.now) texts.entry in
        MatchResult result (λ label. IsLabelText plain × (label ≡ plain))
        (OrMemory NoMemory (IsLabelRefusal place plain)) }
{
    match texts {
        None => Ok(None),
        Some(values) => {
            let label = label_from(alloc, place, values)?;
            Ok(Some(label))
        }
    }
}

/// The key and the stamp that the fields of a row of a summary make.
pub fn stamp_entry(alloc: Global, place: usize, row: Row<'_>) -> Result<Entry<Stamp>, DocCause>
    ensures { let plain = row_of row.entry in MatchResult result
        (λ x. AllPass (stamp_fields place plain) × (x ≡ stamped_of plain))
        (OrMemory NoMemory (FirstFails (stamp_fields place plain))) }
{
    let id = id_of(alloc, place, row.id)?;
    let lang = language_of(alloc, place, row.language)?;
    let site = name_of(place, row.site)?;
    let stamp = Stamp {
        time: row.time,
        site,
        count: row.count,
    };
    Ok(Entry::new(id, lang, stamp))
}

/// The key and the cell that the fields of a row of a site or a delta make.
pub fn cell_entry(
    alloc: Global,
    place: usize,
    cell: CellRow<'_, '_>,
) -> Result<Entry<Cell>, DocCause>
    requires { AreTextsOf cell.texts }
    ensures { let plain = row_of cell.entry.row in
        let texts = option_map (λ values. texts_of values.now) cell.entry.texts in
        MatchResult result
        (λ x. AllPass (cell_fields place plain texts) × (x ≡ entry_of plain texts))
        (OrMemory NoMemory (FirstFails (cell_fields place plain texts))) }
{
    let (id, lang, stamp) = stamp_entry(alloc, place, cell.row)?.into_parts();
    let label = label_of(alloc, place, cell.texts)?;
    Ok(Entry::new(id, lang, Cell::new(stamp, label)))
}

/// A refusal of a field; out of memory has no row.
pub fn of_cell(place: usize, fault: CellFault) -> DocCause
    ensures { result ≡ cell_cause place fault }
{
    match fault {
        CellFault::NoMemory => DocCause::NoMemory,
        _ => DocCause::Field {
            row: place,
            fault: FieldFault::Cell(fault),
        },
    }
}

/// The label of these values, all of them texts.
fn label_from(alloc: Global, place: usize, values: &[Value<'_>]) -> Result<Label, DocCause>
    requires { AreTexts values.now }
    ensures { let plain = texts_of values.now in
        MatchResult result (λ label. IsLabelText (Some plain) × (label ≡ plain))
        (OrMemory NoMemory (IsLabelRefusal place (Some plain))) }
{
    let texts = copied_texts(alloc, values)?;
    match Label::from_texts(texts) {
        Ok(label) => Ok(label),
        Err(fault) => Err(of_cell(place, fault)),
    }
}

/// Copies of the values that are texts.
fn copied_texts(alloc: Global, values: &[Value<'_>]) -> Result<Vec<String>, AllocError>
    ensures { IfOk result (λ texts. map string_bytes texts.items
        ≡ filter_map as_str (map seen values.now)) }
{
    let mut texts = Vec::with_capacity(alloc, values.len())?;
    for value in values {
        if let Some(text) = text_of(value) {
            texts.push(String::from_str(alloc, text)?)?;
        }
    }
    Ok(texts)
}
