//! Questions to a site, of its document and of the site in memory.

use super::answers::{is_found, is_line};
use cell_core::MessageId;
use docs_core::{
    Ask, Doc, DocFault, Shows, ask_document, bundle_document, export_document, missing_document,
    outdated_document, read_site, status_document, summary_document, write_missing, write_outdated,
};
use lang_core::Lang;
use nego_core::{PriorityList, Scheme};
use std::alloc::Global;
use std::process::Abort;
use std::test::Fail;

/// Each question of the rows, `CALL|MESSAGE OR LANGUAGE|FIELD OR SOURCE|LINE`, is answered by its
/// line.
pub fn all_answered(rt: &(impl Abort + AllocGlobal), site: &[u8], rows: &str) -> Result<(), Fail> {
    for row in rows.lines() {
        let (question, line) = row.rsplit_once("|").unwrap_or((row, ""));
        assert!(rt; is_answered(rt.alloc(), site, question, line)?, "{row}");
    }
    Ok(())
}

/// Whether the site answers the question, `CALL|MESSAGE OR LANGUAGE|FIELD OR SOURCE`, by this line.
pub fn is_answered(alloc: Global, site: &[u8], question: &str, line: &str) -> Result<bool, Fail> {
    let (call, rest) = question.split_once("|").unwrap_or((question, ""));
    let (first, second) = rest.split_once("|").unwrap_or((rest, ""));
    match call {
        "lookup" => looks_up(alloc, site, first, second, line),
        "filter" => filters(alloc, site, first, second, line),
        "bundle" => bundles(alloc, site, second, line),
        "missing" => lacks(alloc, site, first, line),
        "outdated" => is_old(alloc, site, first, second, line),
        "export" => Ok(is_line(export_document(alloc, site), line)),
        "status" => Ok(is_line(status_document(alloc, site), line)),
        _ => Ok(is_line(summary_document(alloc, site, Shows::Stamps), line)),
    }
}

/// The list of a field, and the default that may come after it, as in `fr default en`.
fn preferences(alloc: Global, field: &str) -> Result<(PriorityList, Option<Lang>), Fail> {
    let (field, tag) = field.split_once("default ").unwrap_or((field, ""));
    let default = default_of(alloc, tag)?;
    Ok((PriorityList::from_accept(alloc, field.as_bytes())?, default))
}

fn default_of(alloc: Global, tag: &str) -> Result<Option<Lang>, Fail> {
    match tag {
        "" => Ok(None),
        _ => Ok(Some(Lang::parse(alloc, tag.as_bytes())?)),
    }
}

fn looks_up(alloc: Global, site: &[u8], id: &str, field: &str, line: &str) -> Result<bool, Fail> {
    let id = MessageId::new(alloc, id)?;
    let (list, default) = preferences(alloc, field)?;
    let ask = Ask::Lookup(list, default);
    Ok(is_found(ask_document(alloc, site, &id, &ask), line))
}

fn filters(alloc: Global, site: &[u8], id: &str, field: &str, line: &str) -> Result<bool, Fail> {
    let id = MessageId::new(alloc, id)?;
    let ask = Ask::Filter(
        Scheme::Basic,
        PriorityList::from_accept(alloc, field.as_bytes())?,
    );
    Ok(is_found(ask_document(alloc, site, &id, &ask), line))
}

fn bundles(alloc: Global, site: &[u8], field: &str, line: &str) -> Result<bool, Fail> {
    let (list, default) = preferences(alloc, field)?;
    let bundle = bundle_document(alloc, site, &list, default.as_ref());
    Ok(is_found(bundle, line))
}

fn lacks(alloc: Global, site: &[u8], tag: &str, line: &str) -> Result<bool, Fail> {
    let lang = Lang::parse(alloc, tag.as_bytes())?;
    let of_memory = is_found(missing_in_memory(alloc, site, &lang), line);
    Ok(of_memory && is_found(missing_document(alloc, site, &lang), line))
}

fn missing_in_memory(alloc: Global, site: &[u8], lang: &Lang) -> Result<(Doc, bool), DocFault> {
    let site = read_site(alloc, site)?;
    Ok(write_missing(alloc, site.catalogue(), lang)?)
}

fn is_old(alloc: Global, site: &[u8], tag: &str, source: &str, line: &str) -> Result<bool, Fail> {
    let lang = Lang::parse(alloc, tag.as_bytes())?;
    let source = Lang::parse(alloc, source.as_bytes())?;
    let of_memory = is_found(outdated_in_memory(alloc, site, &lang, &source), line);
    Ok(of_memory && is_found(outdated_document(alloc, site, &lang, &source), line))
}

fn outdated_in_memory(
    alloc: Global,
    site: &[u8],
    lang: &Lang,
    source: &Lang,
) -> Result<(Doc, bool), DocFault> {
    let site = read_site(alloc, site)?;
    Ok(write_outdated(alloc, site.catalogue(), lang, source)?)
}
