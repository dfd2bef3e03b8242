//! Documents of summaries with or without labels, read.
ghost use Rattle.std.specs.Prelude.{◌≡◌, ◌≢◌, ℕ, IfOk, List, MatchOption, MatchResult, None, Some};
ghost use Rattle.std.specs.Prelude.{codes, length, map, option_map};
ghost use Rattle.std.specs.Bool.{MatchBool};
ghost use Rattle.std.specs.List.{list_all};
ghost use Rattle.cell_core.specs.Label.{texts_of};
ghost use Rattle.serde_json.specs.Data.{Data};
ghost use Rattle.serde_json.specs.Find.{get};
ghost use Rattle.serde_json.specs.View.{view};
ghost use Rattle.json_docs.specs.FaultChecks.{IsRefusal, OrMemory};
ghost use Rattle.json_docs.specs.Parts.{items_in};
ghost use Rattle.json_docs.specs.declared.fault.DocCause.TheVariants.{Shape};
ghost use Rattle.json_docs.specs.declared.fault.Spot.TheVariants.{Document};
ghost use Rattle.row_docs.specs.Headers.{rows_in, version_in};
ghost use Rattle.row_docs.specs.Reading.{IsOfDocument, no_memory};
ghost use Rattle.row_docs.specs.declared.kind.Kind.TheVariants as kind;
ghost use Rattle.site_docs.specs.SiteDocuments.{summary_checks};
ghost use Rattle.summary_docs.specs.Reading.{ReadsAsShown, RefusesShown, digest_in, is_digest};
ghost use Rattle.summary_docs.specs.Reading.{is_hex_digit, is_two, without};

use crate::shown::ShownSummary;
use json_docs::{DocCause, DocFault, Spot};
use serde_json::Value;
use site_docs::summary_at;
use std::alloc::{AllocError, Global};

/// The summary of the input document with this number, which shows labels or does not.
///
/// The document's member for labels is refused as its shape (20) in version 1, and if it is not an
/// array of one digest for each stamp. The rest is refused as [`summary_at`] refuses it.
pub fn shown_at(alloc: Global, document: usize, bytes: &[u8]) -> Result<ShownSummary, DocFault>
    ensures { MatchResult result (ReadsAsShown bytes.now)
        (OrMemory no_memory (IsOfDocument document (RefusesShown bytes.now))) }
{
    match summary_at(alloc, document, bytes) {
        Ok(summary) => Ok(ShownSummary::new(summary, Vec::new(alloc))),
        // (A summary without labels has no member for them.)
        Err(fault) => {
            if is_of_document(fault.cause) {
                labelled_at(alloc, document, bytes)
            } else {
                Err(fault)
            }
        }
    }
}

/// Whether it is the refusal of the document's shape.
fn is_of_document(cause: DocCause) -> bool
    ensures { MatchBool result (cause ≡ Shape Document) (cause ≢ Shape Document) }
{
    matches!(
        cause,
        DocCause::Shape {
            spot: Spot::Document
        }
    )
}

/// The same for a document that is refused as a summary without labels.
fn labelled_at(alloc: Global, document: usize, bytes: &[u8]) -> Result<ShownSummary, DocFault>
    requires { IsRefusal summary_checks bytes.now (Shape Document) }
    ensures { MatchResult result (ReadsAsShown bytes.now)
        (OrMemory no_memory (IsOfDocument document (RefusesShown bytes.now))) }
{
    let no_document = DocFault::of_document(
        document,
        DocCause::Shape {
            spot: Spot::Document,
        },
    );
    let Ok(value) = Value::from_slice(alloc, bytes) else {
        return Err(DocFault::of_no_document(DocCause::NoMemory));
    };
    if !is_of_version_2(&value) {
        return Err(no_document);
    }
    let count = count_of_stamps(&value);
    let Some((plain, labels)) = without_labels(value) else {
        return Err(no_document);
    };
    let Some(digests) = digests_of(alloc, &labels)? else {
        return Err(no_document);
    };
    if digests.as_slice().len() != count {
        return Err(no_document);
    }
    let text = plain.to_vec(alloc)?;
    let summary = summary_at(alloc, document, text.as_slice())?;
    Ok(ShownSummary::new(summary, digests))
}

/// Whether the document is of version 2.
fn is_of_version_2(value: &Value) -> bool
    ensures { result ≡ is_two (version_in (view value.now)) }
{
    match value.get("version") {
        Some(version) => match version.as_u64() {
            Some(number) => number == 2,
            None => false,
        },
        None => false,
    }
}

/// How many rows the document of a summary has.
fn count_of_stamps(value: &Value) -> usize
    ensures { result ≡ length (rows_in kind.Summary (view value.now)) }
{
    match value.get("stamps") {
        Some(stamps) => match stamps.as_array() {
            Some(rows) => rows.as_slice().len(),
            None => 0,
        },
        None => 0,
    }
}

/// The document without its member for labels, and that member; none if it has no such member.
fn without_labels(value: Value) -> Option<(Value, Value)>
    ensures { MatchOption result (get (codes "labels") (view value) ≡ None)
        (λ r. (view r.0 ≡ without (codes "labels") (view value))
        × (get (codes "labels") (view value) ≡ Some (view r.1))) }
{
    let Value::Object(members) = value else {
        return None;
    };
    let mut rest = members;
    let Some(labels) = rest.remove("labels") else {
        return None;
    };
    Some((Value::Object(rest), labels))
}

/// The digests, if the value is an array of digests.
fn digests_of(alloc: Global, labels: &Value) -> Result<Option<Vec<String>>, AllocError>
    ensures { IfOk result (λ found. MatchOption found
        ((items : List Data) (digests : List (List ℕ)) → items_in (view labels.now) ≡ Some items
        → map digest_in items ≡ map Some digests → ⊥)
        (λ digests. (items : List Data) × (items_in (view labels.now) ≡ Some items)
        × (map digest_in items ≡ map Some (texts_of digests.items)))) }
{
    match labels.as_array() {
        Some(items) => digests_among(alloc, items.as_slice()),
        None => Ok(None),
    }
}

/// The digests, if each value is one.
fn digests_among(alloc: Global, items: &[Value]) -> Result<Option<Vec<String>>, AllocError>
    ensures { IfOk result (λ found. MatchOption found ((digests : List (List ℕ))
        → map digest_in (map view items.now) ≡ map Some digests → ⊥)
        (λ digests. map digest_in (map view items.now) ≡ map Some (texts_of digests.items))) }
{
    let mut digests = Vec::with_capacity(alloc, items.len())?;
    for item in items {
        let Some(digest) = digest_of(item) else {
            return Ok(None);
        };
        let digest = String::from_str(alloc, digest)?;
        digests.push(digest)?;
    }
    Ok(Some(digests))
}

/// The digest, if the value is one.
fn digest_of(value: &Value) -> Option<&str>
    ensures { option_map (λ s. s.now) result ≡ digest_in (view value.now) }
{
    let text = value.as_str()?;
    if is_digest(text) { Some(text) } else { None }
}

/// Whether the text is 16 hexadecimal digits in lower case.
fn is_digest(text: &str) -> bool
    ensures { result ≡ is_digest text.now }
{
    text.len() == 16 && are_hex_digits(text.as_bytes())
}

/// Whether all bytes are hexadecimal digits in lower case.
fn are_hex_digits(bytes: &[u8]) -> bool
    ensures { result ≡ list_all is_hex_digit bytes.now }
{
    bytes.iter().all(|byte| is_hex_digit(*byte))
}

/// Whether the byte is a hexadecimal digit in lower case.
fn is_hex_digit(byte: u8) -> bool
    ensures { result ≡ is_hex_digit byte }
{
    matches!(byte, b'0'..=b'9' | b'a'..=b'f')
}
