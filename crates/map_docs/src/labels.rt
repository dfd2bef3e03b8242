//! The labels of a language-map document, made of its rows.
ghost use Rattle.std.specs.Prelude.{◌≡◌, ◌++◌, ◌∷◌, ◌<◌, ◌^◌, [], List, ℕ, Bool, MatchResult};
ghost use Rattle.std.specs.Prelude.{IfErr, OnOk, IfOk, map, string_bytes, unwrap_or, length};
ghost use Rattle.std.specs.List.Sorted.{IsPermutation};
ghost use Rattle.cell_core.specs.Keyed.{IsMap};
ghost use Rattle.cell_core.specs.Entry.{key_cmp, text_cmp};
ghost use Rattle.catalogue.specs.CatalogueFlat.{under};
ghost use Rattle.json_docs.specs.FaultChecks.{AllPass, FirstFails, OrMemory};
ghost use Rattle.json_docs.specs.declared.fault.DocCause.TheVariants.{Field, NoMemory};
ghost use Rattle.json_docs.specs.declared.fault.DocCause.TheVariants.{Shape as ShapeRefused};
ghost use Rattle.json_docs.specs.declared.fault.FieldFault.TheVariants.{Cell};
ghost use Rattle.json_docs.specs.declared.fault.Spot.TheVariants.{Row as InRow};
ghost use Rattle.map_docs.specs.LabelsChecks.{IsLabelOrNone, IsStringsRefusal, is_marked};
ghost use Rattle.map_docs.specs.LabelsChecks.{key_checks, keys_checks, message_checks};
ghost use Rattle.map_docs.specs.LabelsChecks.{member_checks, members_checks};
ghost use Rattle.map_docs.specs.MapsLabels.{languages_of, rows_labels};
ghost use Rattle.map_docs.specs.MembersRows.{Keys as PlainKeys};
ghost use Rattle.map_docs.specs.inner.MembersRowsSeen.{AddsLanguages, AddsRow, AreLesser};
ghost use Rattle.map_docs.specs.inner.MembersRowsSeen.{AreSorted, HoldsKeys, IsOneLabel};
ghost use Rattle.map_docs.specs.inner.MembersRowsSeen.{keys_in_seen, keys_seen, live, rows_seen};
ghost use Rattle.map_docs.specs.inner.MembersRowsSeen.{strings_seen};
ghost use Rattle.cell_core.specs.MessageId.{IsMessageId};
ghost use Rattle.cell_core.specs.declared.fault.CellFault.TheVariants.{IdRefused};

use crate::maps::LangMaps;
use crate::rows::{Keys, Rows, Strings};
use cell_core::{Key, Label, MessageId};
use json_docs::{DocCause, FieldFault, Spot};
use lang_core::Lang;
use row_docs::{language_of, of_cell};
use std::alloc::{AllocError, Global};
use std::collections::BTreeMap;

/// The labels of the rows in ascending order of key, or the refusal of the first test that fails.
pub(crate) fn labels_of(alloc: Global, rows: Rows) -> Result<LangMaps, DocCause>
    requires { AreSorted rows.items }
    ensures { MatchResult result
        (λ maps. AllPass (members_checks 0 (rows_seen rows.items))
        × IsPermutation (rows_labels (rows_seen rows.items)) maps × IsMap key_cmp maps)
        (OrMemory NoMemory (FirstFails (members_checks 0 (rows_seen rows.items)))) }
{
    let mut maps = LangMaps::with_capacity(alloc, rows.len())?;
    let mut row = 0;
    for (name, keys) in rows {
        add_row(alloc, &mut maps, row, name, keys)?;
        row += 1;
    }
    Ok(maps)
}

/// Appends the labels of a row to those of smaller messages; a name that begins with "@" is
/// skipped.
fn add_row(
    alloc: Global,
    maps: &mut LangMaps,
    row: usize,
    name: String,
    keys: Option<Keys>,
) -> Result<(), DocCause>
    requires lesser { AreLesser maps.old (string_bytes name) }
    requires sorted { IsMap key_cmp maps.old }
    ensures ok { OnOk result
        (AllPass (member_checks row (string_bytes name, keys_in_seen keys))
        × AddsRow maps.old maps.new (string_bytes name, keys_in_seen keys)) }
    ensures err { IfErr result
        (OrMemory NoMemory
        (FirstFails (member_checks row (string_bytes name, keys_in_seen keys)))) }
{
    if is_marked(&name) {
        return Ok(());
    }
    add_message(alloc, maps, row, name, keys)
}

/// Whether the name begins with "@".
fn is_marked(name: &String) -> bool
    ensures { result ≡ is_marked (string_bytes name.now) }
{
    match name.as_bytes().first() {
        Some(first) => *first == b'@',
        None => false,
    }
}

/// Appends the labels of a message to those of smaller messages.
fn add_message(
    alloc: Global,
    maps: &mut LangMaps,
    row: usize,
    name: String,
    keys: Option<Keys>,
) -> Result<(), DocCause>
    requires lesser { AreLesser maps.old (string_bytes name) }
    requires sorted { IsMap key_cmp maps.old }
    ensures ok { OnOk result
        (AllPass (message_checks row (string_bytes name) (keys_in_seen keys))
        × AddsLanguages maps.old maps.new (string_bytes name)
        (unwrap_or (keys_in_seen keys) [])) }
    ensures err { IfErr result
        (OrMemory NoMemory
        (FirstFails (message_checks row (string_bytes name) (keys_in_seen keys)))) }
{
    let id = id_of_name(row, name)?;
    let Some(keys) = keys else {
        return Err(DocCause::Shape {
            spot: Spot::Row(row),
        });
    };
    let found = languages_of(alloc, row, keys)?;
    push_languages(alloc, maps, &id, found)?;
    Ok(())
}

/// The id that a name is.
fn id_of_name(row: usize, name: String) -> Result<MessageId, DocCause>
    ensures { MatchResult result (λ id. IsMessageId (string_bytes name) × (id ≡ string_bytes name))
        (λ e. (¬ (IsMessageId (string_bytes name))) × (e ≡ Field row (Cell IdRefused))) }
{
    match MessageId::from_text(name) {
        Ok(id) => Ok(id),
        Err(fault) => Err(DocCause::Field {
            row,
            fault: FieldFault::Cell(fault),
        }),
    }
}

/// The languages of a language map, each with its label where it has one.
fn languages_of(
    alloc: Global,
    row: usize,
    keys: Keys,
) -> Result<BTreeMap<Lang, Option<Label>>, DocCause>
    ensures { MatchResult result
        (λ found. AllPass (keys_checks row [] (keys_seen keys.items))
        × HoldsKeys (keys_seen keys.items) found.entries)
        (OrMemory NoMemory (FirstFails (keys_checks row [] (keys_seen keys.items)))) }
{
    let mut found = BTreeMap::new(alloc);
    for (key, strings) in keys {
        add_key(alloc, &mut found, row, key, strings)?;
    }
    Ok(found)
}

/// Appends a key of a language map.
fn add_key(
    alloc: Global,
    found: &mut BTreeMap<Lang, Option<Label>>,
    row: usize,
    key: String,
    strings: Strings,
) -> Result<(), DocCause>
    ensures ok { OnOk result ((before : PlainKeys) → HoldsKeys before found.old.entries
        → AllPass (key_checks row (map (λ m. m.0) before) (string_bytes key) (strings_seen strings))
        × HoldsKeys (before ++ (string_bytes key, strings_seen strings) ∷ []) found.new.entries) }
    ensures err { IfErr result
        (OrMemory NoMemory (λ e. (before : PlainKeys) → HoldsKeys before found.old.entries
        → FirstFails (key_checks row (map (λ m. m.0) before) (string_bytes key)
        (strings_seen strings)) e)) }
{
    let lang = language_of(alloc, row, key.as_str())?;
    if found.contains_key(&lang) {
        return Err(DocCause::RepeatedTag { row });
    }
    let Some(strings) = strings else {
        return Err(DocCause::Shape {
            spot: Spot::Row(row),
        });
    };
    let label = label_of(row, strings)?;
    drop(found.insert(lang, label)?);
    Ok(())
}

/// The label of some strings; none where there is no string.
fn label_of(row: usize, strings: Vec<String>) -> Result<Option<Label>, DocCause>
    ensures { let texts = map string_bytes strings.items in MatchResult result
        (λ label. IsLabelOrNone texts × IsOneLabel texts label)
        (OrMemory NoMemory (IsStringsRefusal row texts)) }
{
    if strings.is_empty() {
        return Ok(None);
    }
    match Label::from_texts(strings) {
        Ok(label) => Ok(Some(label)),
        Err(fault) => Err(of_cell(row, fault)),
    }
}

/// Appends the labels that were found to those of smaller messages.
fn push_languages(
    alloc: Global,
    maps: &mut LangMaps,
    id: &MessageId,
    found: BTreeMap<Lang, Option<Label>>,
) -> Result<(), AllocError>
    requires { IsMap key_cmp (maps.old ++ under id.now (live found.entries)) }
    ensures { OnOk result (maps.new ≡ maps.old ++ under id.now (live found.entries)) }
{
    for (lang, label) in found {
        if let Some(label) = label {
            maps.push(id.copy(alloc)?, lang, label)?;
        }
    }
    Ok(())
}
