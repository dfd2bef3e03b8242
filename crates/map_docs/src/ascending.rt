//! The labels of a document whose messages and languages ascend, given on as they are read.
ghost use Rattle.std.specs.Prelude.{◌≡◌, ◌<◌, ◌≤◌, ◌∷◌, [], List, IfSome, IsUtf8, Some, length};
ghost use Rattle.std.specs.Prelude.{option_map};
ghost use Rattle.std.specs.declared.cmp.Ordering.TheVariants.{Less};
ghost use Rattle.json.specs.Json.{read_key};
ghost use Rattle.serde_json.specs.Data.{Data, Items, Members, object};
ghost use Rattle.cell_core.specs.Label.{IsLabel};
ghost use Rattle.cell_core.specs.Keyed.{IsMap};
ghost use Rattle.cell_core.specs.MessageId.{IsMessageId};
ghost use Rattle.lang_core.specs.Lang.{SpellsLang};
ghost use Rattle.cell_core.specs.Entry.{key_cmp, text_cmp};
ghost use Rattle.json_docs.specs.inner.ScanningArrays.{ReadsItems};
ghost use Rattle.json_docs.specs.FaultChecks.{AllPass};
ghost use Rattle.json_docs.specs.inner.ObjectMembersRead.{ReadsMembers};
ghost use Rattle.json_docs.specs.Parts.{list_of};
ghost use Rattle.json_docs.specs.ScanningReads.{Reads};
ghost use Rattle.map_docs.specs.LabelsChecks.{members_checks};
ghost use Rattle.map_docs.specs.MapsLabels.{AreLangMaps, rows_labels};
ghost use Rattle.map_docs.specs.MembersRows.{keys_of, message_rows, strings_in, strings_of};
ghost use Rattle.map_docs.specs.inner.MembersRowsSeen.{AreLesser};
ghost use Rattle.map_docs.specs.Maps.{Labelled};
ghost use Rattle.map_docs.specs.inner.AscendingLabels.{IsUnder};

use crate::taking::TakeLabels;
use cell_core::{Label, MessageId};
use json::{Reader, Scratch, Token};
use json_docs::{begins_object, next_name};
use lang_core::Lang;
use std::alloc::Global;

/// Gives the labels of a document to the taker, where its names ascend, and each value is an object
/// whose keys ascend, are languages in lower case, and have a label each.
///
/// `None` says nothing of the document, and the taker may have taken some labels.
pub(crate) fn take_text<T: TakeLabels>(
    alloc: Global,
    text: &str,
    scratch: &mut Scratch,
    taker: &mut T,
) -> Option<()>
    requires utf8 { IsUtf8 text.now }
    requires holds { T.Holds taker.old taker.old [] }
    ensures { IfSome result (λ _. (labels : List Labelled) × AreLangMaps text.now labels
        × T.Holds taker.old taker.new labels) }
{
    let Ok(mut reader) = Reader::new(text, scratch) else {
        return None;
    };
    if !begins_object(&mut reader) {
        return None;
    }
    take_messages(alloc, &mut reader, taker)?;
    match reader.next() {
        None => Some(()),
        Some(_) => None,
    }
}

/// Gives the labels of the messages of the object whose brace was read to the taker.
fn take_messages<T: TakeLabels>(alloc: Global, reader: &mut Reader<'_>, taker: &mut T) -> Option<()>
    requires { T.Holds taker.old taker.old [] }
    ensures { IfSome result (λ _. (ms : Members) × ReadsMembers 126 reader.old ms reader.new
        × AllPass (members_checks 0 (message_rows ms))
        × IsMap key_cmp (rows_labels (message_rows ms))
        × T.Holds taker.old taker.new (rows_labels (message_rows ms))) }
{
    let mut last = "";
    while let Some(name) = name_after(reader, last)? {
        take_message(alloc, reader, name, taker)?;
        last = name;
    }
    Some(())
}

/// Gives the labels of the message of this name, whose value comes next, to the taker.
fn take_message<T: TakeLabels>(
    alloc: Global,
    reader: &mut Reader<'_>,
    name: &str,
    taker: &mut T,
) -> Option<()>
    requires { (first : T) × (before : List Labelled) × T.Holds first taker.old before
        × AreLesser before name.now × IsMap key_cmp before }
    ensures { IfSome result (λ _. (ms : Members) × Reads 126 reader.old (object ms) reader.new
        × (length reader.new < length reader.old)
        × IsMessageId name.now × IsUnder T.Holds taker.old taker.new name.now (keys_of ms)) }
{
    let id = id_of_name(alloc, name)?;
    if !begins_object(reader) {
        return None;
    }
    take_languages(alloc, reader, &id, taker)?;
    Some(())
}

/// Gives the labels of the languages of the object whose brace was read to the taker.
fn take_languages<T: TakeLabels>(
    alloc: Global,
    reader: &mut Reader<'_>,
    id: &MessageId,
    taker: &mut T,
) -> Option<()>
    requires { (first : T) × (before : List Labelled) × T.Holds first taker.old before
        × AreLesser before id.now × IsMap key_cmp before }
    ensures { IfSome result (λ _. (ms : Members) × ReadsMembers 125 reader.old ms reader.new
        × (length reader.new < length reader.old)
        × IsUnder T.Holds taker.old taker.new id.now (keys_of ms)) }
{
    let mut last = "";
    while let Some(key) = name_after(reader, last)? {
        let lang = lower_language(alloc, key)?;
        let label = next_label(alloc, reader)?;
        taker.take(alloc, id, lang, label)?;
        last = key;
    }
    Some(())
}

/// The name of the next member, where it is greater than the last one; the inner none is the end of
/// the object.
fn name_after<'t>(reader: &mut Reader<'t>, last: &str) -> Option<Option<&'t str>>
    ensures read { IfSome result
        (λ name. read_key reader.old ≡ Some (option_map (λ s. s.now) name, reader.new)) }
    ensures ascends { IfSome result
        (λ name. IfSome name (λ n. text_cmp last.now n.now ≡ Less)) }
{
    match next_name(reader) {
        Ok(Some(name)) => {
            if last.cmp(name).is_lt() {
                Some(Some(name))
            } else {
                None
            }
        }
        Ok(None) => Some(None),
        Err(_) => None,
    }
}

/// The id that a name is.
fn id_of_name(alloc: Global, name: &str) -> Option<MessageId>
    ensures { IfSome result (λ id. (id ≡ name.now) × IsMessageId name.now) }
{
    match MessageId::new(alloc, name) {
        Ok(id) => Some(id),
        Err(_) => None,
    }
}

/// The language that a key in lower case is.
fn lower_language(alloc: Global, key: &str) -> Option<Lang>
    ensures { IfSome result (λ lang. (lang ≡ key.now) × SpellsLang key.now lang) }
{
    match Lang::parse(alloc, key.as_bytes()) {
        Ok(lang) => {
            if lang.as_str() == key {
                Some(lang)
            } else {
                None
            }
        }
        Err(_) => None,
    }
}

/// The label that comes next: a string, or an array of strings.
fn next_label(alloc: Global, reader: &mut Reader<'_>) -> Option<Label>
    ensures { IfSome result (λ label. (d : Data) × Reads 125 reader.old d reader.new
        × (strings_in d ≡ Some label) × IsLabel label
        × (length reader.new < length reader.old)) }
{
    match reader.next() {
        Some(Token::String(text)) => one_text(alloc, text),
        Some(Token::BeginArray) => several_texts(alloc, reader),
        _ => None,
    }
}

/// The label of one text.
fn one_text(alloc: Global, text: &str) -> Option<Label>
    ensures { IfSome result (λ label. (label ≡ text.now ∷ []) × IsLabel label) }
{
    let Ok(text) = String::from_str(alloc, text) else {
        return None;
    };
    match Label::from_text(text) {
        Ok(label) => Some(label),
        Err(_) => None,
    }
}

/// The label of the strings of the array whose opening bracket was read.
fn several_texts(alloc: Global, reader: &mut Reader<'_>) -> Option<Label>
    ensures { IfSome result (λ label. (ds : Items) × ReadsItems 124 reader.old ds reader.new
        × (strings_of (list_of ds) ≡ Some label) × IsLabel label
        × (length reader.new ≤ length reader.old)) }
{
    let mut texts = Vec::new(alloc);
    while !reader.take_end_array() {
        let Some(Token::String(text)) = reader.next() else {
            return None;
        };
        let Ok(text) = String::from_str(alloc, text) else {
            return None;
        };
        let Ok(()) = texts.push(text) else {
            return None;
        };
    }
    match Label::from_texts(texts) {
        Ok(label) => Some(label),
        Err(_) => None,
    }
}
