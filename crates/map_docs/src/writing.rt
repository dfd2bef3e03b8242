//! Language maps written piece by piece into one buffer.
ghost use Rattle.std.specs.Prelude.{◌≡◌, ◌∷◌, [], IfOk, List, None, OnOk, Some, false, true};
ghost use Rattle.std.specs.Prelude.{option_map};
ghost use Rattle.json.specs.Token.{begin_object, end_object, key};
ghost use Rattle.cell_core.specs.Label.{IsLabel, texts_of};
ghost use Rattle.cell_core.specs.Keyed.{IsMap};
ghost use Rattle.cell_core.specs.MessageId.{IsMessageId};
ghost use Rattle.cell_core.specs.Entry.{key_cmp};
ghost use Rattle.lang_core.specs.Lang.{IsLang};
ghost use Rattle.row_docs.specs.WritingTexts.{Adds, text, value_tokens};
ghost use Rattle.map_docs.specs.MapsLabels.{AreLangMaps};
ghost use Rattle.map_docs.specs.WritingTexts.{IsTextOf};
ghost use Rattle.map_docs.specs.Maps.{Labelled};
ghost use Rattle.map_docs.specs.MapsValue.{language_value, langmaps_value};
ghost use Rattle.map_docs.specs.WritingMaps.{IsWriting, labels_tokens, opening_tokens};

use crate::maps::LangMaps;
use cell_core::{Label, MessageId};
use json::Writer;
use json_docs::Doc;
use lang_core::Lang;
use row_docs::{finish, write_texts};
use std::alloc::{AllocError, Global};

/// The text of the language-map document of these labels, with its line feed: one object from
/// message id to language map (JSON-LD 1.1, section 9.8), in ascending order of key.
///
/// A label of one text is a string, one of several an array of strings. Out of memory is the only
/// refusal (26).
pub fn write_langmaps(alloc: Global, maps: &LangMaps) -> Result<Doc, AllocError>
    ensures text { IfOk result (λ doc. doc ≡ text (langmaps_value maps.now)) }
    ensures reads { IfOk result (λ doc. AreLangMaps doc maps.now) }
{
    let mut draft = open_labels(alloc)?;
    let mut current: Option<&MessageId> = None;
    for label in maps.labels() {
        let id = label.id();
        open_message(&mut draft, current, id)?;
        write_label(&mut draft, label.lang(), label.value())?;
        current = Some(id);
    }
    close_labels(draft, current)
}

/// Opens the language maps of any labels, with none yet.
pub fn open_labels(alloc: Global) -> Result<Writer, AllocError>
    ensures { IfOk result (λ draft. (labels : List Labelled) → IsWriting draft None labels labels) }
{
    let mut draft = Writer::new(Vec::new(alloc));
    draft.begin_object()?;
    Ok(draft)
}

/// Closes the language maps after all their labels.
pub fn close_labels(mut draft: Writer, current: Option<&MessageId>) -> Result<Doc, AllocError>
    ensures { (labels : List Labelled) → IsMap key_cmp labels
        → IsWriting draft (option_map (λ id. id.now) current.entry) [] labels
        → IfOk result (IsTextOf labels) }
{
    close_objects(&mut draft, current)?;
    finish(draft)
}

/// Opens this message unless it is the current one, which is closed otherwise, and answers whether
/// it did.
pub fn open_message(
    out: &mut Writer,
    current: Option<&MessageId>,
    id: &MessageId,
) -> Result<bool, AllocError>
    ensures tokens { IfOk result (λ _. Adds out.old out.new
        (opening_tokens (option_map (λ m. m.now) current.entry) id.now)) }
    ensures id { IfOk result (λ opened. opened ≡ true → IsMessageId id.now) }
    ensures same { IfOk result
        (λ opened. opened ≡ false → option_map (λ m. m.now) current.entry ≡ Some id.now) }
{
    if let Some(current) = current {
        if current == id {
            return Ok(false);
        }
        out.end_object()?;
    }
    out.key(id.as_str())?;
    out.begin_object()?;
    Ok(true)
}

/// Adds a label to the message that is open.
pub fn write_label(out: &mut Writer, lang: &Lang, label: &Label) -> Result<(), AllocError>
    ensures tokens { OnOk result (Adds out.old out.new
        (key lang.now ∷ value_tokens (language_value label.now))) }
    ensures lang { IsLang lang.now }
    ensures label { IsLabel label.now }
{
    let texts = label.texts();
    out.key(lang.as_str())?;
    write_language(out, texts)
}

/// Adds a label of this one text to the message that is open.
pub fn write_text(out: &mut Writer, lang: &Lang, text: &str) -> Result<(), AllocError>
    ensures tokens { OnOk result (Adds out.old out.new
        (key lang.now ∷ value_tokens (language_value (text.now ∷ [])))) }
    ensures lang { IsLang lang.now }
{
    let name = lang.as_str();
    out.key(name)?;
    out.string(text)
}

/// Closes the current message and the outer object.
fn close_objects(out: &mut Writer, current: Option<&MessageId>) -> Result<(), AllocError>
    ensures { OnOk result
        (Adds out.old out.new (labels_tokens (option_map (λ id. id.now) current.entry) [])) }
{
    if current.is_some() {
        out.end_object()?;
    }
    out.end_object()
}

/// Adds the texts of a label: one as a string, several as an array.
fn write_language(out: &mut Writer, texts: &[String]) -> Result<(), AllocError>
    ensures { OnOk result
        (Adds out.old out.new (value_tokens (language_value (texts_of texts.now)))) }
{
    if let [text] = texts {
        out.string(text.as_str())
    } else {
        write_texts(out, texts)
    }
}
