//! The shapes of rows.
ghost use Rattle.std.specs.Prelude.{◌≡◌, IfSome, is_some, map, option_map};
ghost use Rattle.std.specs.List.{list_all};
ghost use Rattle.json.specs.Value.{value_view};
ghost use Rattle.serde_json.specs.Find.{as_str};
ghost use Rattle.json_docs.specs.ScanningReads.{IsRead, seen};
ghost use Rattle.json_docs.specs.Parts.{texts_in};
ghost use Rattle.row_docs.specs.ShapesRows.{cell_in, label_in, parts_in, site_in, stamp_in};
ghost use Rattle.row_docs.specs.ShapesRowsSeen.{AreTextsOf, cell_of, row_of, site_of, texts_of};

use crate::version::Version;
use json::Value;
use json_docs::{items_of, text_of, u32_of, u64_of};

/// How a document names a site: by its number in version 1, by its name in version 2.
#[derive(Clone, Copy, Debug)]
pub enum SiteText<'t> {
    Number(u32),
    Name(&'t str),
}

/// The key and the stamp of a row, as they are written.
#[derive(Clone, Copy, Debug)]
pub struct Row<'t> {
    /// The id of the message.
    pub id: &'t str,
    /// The language.
    pub language: &'t str,
    /// The time of the stamp.
    pub time: u64,
    /// The site of the stamp.
    pub site: SiteText<'t>,
    /// The count of the stamp.
    pub count: u32,
}

/// A row with a label, as it is written; a deletion has no texts.
#[derive(Clone, Copy)]
pub struct CellRow<'v, 't> {
    /// The key and the stamp.
    pub row: Row<'t>,
    /// The texts of the label; none for a deletion.
    pub texts: Option<&'v [Value<'t>]>,
}

/// The site, where the value names one as this version does.
pub(crate) fn site_of<'t>(version: Version, value: &Value<'t>) -> Option<SiteText<'t>>
    ensures { option_map site_of result ≡ site_in version (seen value.now) }
{
    match version {
        Version::One => Some(SiteText::Number(u32_of(value)?)),
        Version::Two => Some(SiteText::Name(text_of(value)?)),
    }
}

/// The row of a summary, where the value has its shape.
pub(crate) fn stamp_of<'t>(version: Version, value: &Value<'t>) -> Option<Row<'t>>
    requires { IsRead (value_view value.now) }
    ensures { option_map row_of result ≡ stamp_in version (seen value.now) }
{
    let [id, language, time, site, count] = items_of(value)? else {
        return None;
    };
    parts_of(version, id, language, time, site, count)
}

/// The texts of a label, where the value is one; none for null.
pub(crate) fn label_of<'v, 't>(value: &'v Value<'t>) -> Option<Option<&'v [Value<'t>]>>
    requires { IsRead (value_view value.now) }
    ensures label { option_map (λ o. option_map (λ s. texts_of s.now) o) result
        ≡ label_in (seen value.now) }
    ensures texts { IfSome result (λ o. AreTextsOf o) }
{
    if value.is_null() {
        return Some(None);
    }
    let items = items_of(value)?;
    if are_texts(items) {
        Some(Some(items))
    } else {
        None
    }
}

/// The row of a site or a delta, where the value has its shape.
pub fn cell_of<'v, 't>(version: Version, value: &'v Value<'t>) -> Option<CellRow<'v, 't>>
    requires { IsRead (value_view value.now) }
    ensures cell { option_map cell_of result ≡ cell_in version (seen value.now) }
    ensures texts { IfSome result (λ cell. AreTextsOf cell.texts) }
{
    let [id, language, time, site, count, label] = items_of(value)? else {
        return None;
    };
    let row = parts_of(version, id, language, time, site, count)?;
    let texts = label_of(label)?;
    Some(CellRow { row, texts })
}

/// Whether all items are texts.
fn are_texts(items: &[Value<'_>]) -> bool
    ensures { result ≡ is_some (texts_in (map seen items.now)) }
{
    each_is_text(items)
}

/// Whether each item is a text.
fn each_is_text(items: &[Value<'_>]) -> bool
    ensures { result ≡ list_all (λ item. is_some (as_str (seen item))) items.now }
{
    items.iter().all(|item| text_of(item).is_some())
}

/// What a row of either kind begins with.
fn parts_of<'t>(
    version: Version,
    id: &Value<'t>,
    language: &Value<'t>,
    time: &Value<'t>,
    site: &Value<'t>,
    count: &Value<'t>,
) -> Option<Row<'t>>
    ensures { option_map row_of result ≡ parts_in version (seen id.now) (seen language.now)
        (seen time.now) (seen site.now) (seen count.now) }
{
    Some(Row {
        id: text_of(id)?,
        language: text_of(language)?,
        time: u64_of(time)?,
        site: site_of(version, site)?,
        count: u32_of(count)?,
    })
}
