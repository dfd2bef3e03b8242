//! The texts of documents, written piece by piece into one buffer.
ghost use Rattle.std.specs.Prelude.{◌≡◌, ◌∷◌, [], ◌++◌, List, ℕ, codes, map, option_map, IfOk};
ghost use Rattle.std.specs.Prelude.{IsUtf8, OnOk, string_bytes};
ghost use Rattle.json.specs.Print.{print};
ghost use Rattle.json.specs.Token.{begin_object, end_object, begin_array, end_array, key, number};
ghost use Rattle.json.specs.Token.{string, null};
ghost use Rattle.serde_json.specs.Data.{Data};
ghost use Rattle.row_docs.specs.WritingTexts.{Adds, value_tokens};
ghost use Rattle.row_docs.specs.EntriesValues.{cell_value, label_value, stamp_value, texts_value};
ghost use Rattle.cell_core.specs.Label.{texts_of};
ghost use Rattle.row_docs.specs.inner.WritingSeen.{parts_tokens, row_of};

use json::Writer;
use json_docs::Doc;
use std::alloc::{AllocError, Global};

/// The key and the stamp of a row, borrowed from what is written.
#[derive(Clone, Copy)]
pub(crate) struct WrittenRow<'a> {
    /// The id of the message.
    pub id: &'a str,
    /// The language.
    pub language: &'a str,
    /// The time of the stamp.
    pub time: u64,
    /// The site of the stamp.
    pub site: &'a str,
    /// The count of the stamp.
    pub count: u32,
}

/// Adds `[id, language, time, site, count]`.
pub(crate) fn write_stamp(out: &mut Writer, row: &WrittenRow<'_>) -> Result<(), AllocError>
    ensures { OnOk result (Adds out.old out.new (value_tokens (stamp_value (row_of row.now)))) }
{
    out.begin_array()?;
    write_parts(out, row)?;
    out.end_array()
}

/// Adds `[id, language, time, site, count, label]`; no label is null.
pub(crate) fn write_cell(
    out: &mut Writer,
    row: &WrittenRow<'_>,
    label: Option<&[String]>,
) -> Result<(), AllocError>
    ensures { OnOk result (Adds out.old out.new
        (value_tokens
        (cell_value (row_of row.now) (option_map (λ texts. texts_of texts.now) label.entry)))) }
{
    out.begin_array()?;
    write_parts(out, row)?;
    match label {
        None => out.null()?,
        Some(texts) => write_texts(out, texts)?,
    }
    out.end_array()
}

/// Adds the array of the texts.
pub fn write_texts(out: &mut Writer, texts: &[String]) -> Result<(), AllocError>
    ensures { OnOk result (Adds out.old out.new (value_tokens (texts_value (texts_of texts.now)))) }
{
    out.begin_array()?;
    for text in texts {
        out.string(text.as_str())?;
    }
    out.end_array()
}

/// The text with its line feed.
pub fn finish(draft: Writer) -> Result<Doc, AllocError>
    ensures text { IfOk result (λ doc. doc ≡ draft.before ++ (print draft.tokens ++ 10 ∷ [])) }
    ensures utf8 { IfOk result (λ doc. draft.before ≡ [] → IsUtf8 doc) }
{
    let mut bytes = draft.into_inner();
    bytes.push(b'\n')?;
    Ok(Doc::from(bytes))
}

/// What a row of either kind begins with.
fn write_parts(out: &mut Writer, row: &WrittenRow<'_>) -> Result<(), AllocError>
    ensures { OnOk result (Adds out.old out.new (parts_tokens (row_of row.now))) }
{
    out.string(row.id)?;
    out.string(row.language)?;
    out.u64(row.time)?;
    out.string(row.site)?;
    out.u64(u64::from(row.count))
}
