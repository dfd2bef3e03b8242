//! What a document has before its rows and after them, written.
ghost use Rattle.std.specs.Prelude.{◌≡◌, ◌∷◌, [], ◌++◌, ℕ, IfOk, IsUtf8, List, OnOk, codes};
ghost use Rattle.json.specs.Print.{print};
ghost use Rattle.json.specs.Token.{begin_object, end_object, begin_array, end_array, key, number};
ghost use Rattle.json.specs.Token.{string};
ghost use Rattle.cell_core.specs.SiteName.{IsSiteName};
ghost use Rattle.cata_core.specs.Delta.{Stamps};
ghost use Rattle.catalogue.specs.Entries.{Entries};
ghost use Rattle.row_docs.specs.inner.WritingEnvelope.{name_tokens, version_tokens};
ghost use Rattle.row_docs.specs.WritingTexts.{Adds};
ghost use Rattle.site_docs.specs.Envelope.{cells_opening};
ghost use Rattle.site_docs.specs.inner.Envelope.{IsFront, IsStampsFront, end_text, stamps_opening};
ghost use Rattle.site_docs.specs.Reading.{IsDeltaText, IsSiteText, IsSummaryText};

use cell_core::SiteName;
use json::Writer;
use json_docs::Doc;
use row_docs::{Kind, finish};
use std::alloc::{AllocError, Global};

/// Opens a site's or a delta's document, with no row yet.
pub(crate) fn open_cells(alloc: Global) -> Result<Writer, AllocError>
    ensures before { IfOk result (λ draft. draft.before ≡ []) }
    ensures tokens { IfOk result (λ draft. draft.tokens ≡ cells_opening) }
{
    let mut draft = Writer::new(Vec::new(alloc));
    draft.begin_object()?;
    draft.key("cells")?;
    draft.begin_array()?;
    Ok(draft)
}

/// Opens a summary's document, with no row yet.
pub(crate) fn open_stamps(alloc: Global, owner: &str) -> Result<Writer, AllocError>
    ensures before { IfOk result (λ draft. draft.before ≡ []) }
    ensures tokens { IfOk result (λ draft. draft.tokens ≡ stamps_opening owner.now) }
{
    let mut draft = Writer::new(Vec::new(alloc));
    draft.begin_object()?;
    write_name(&mut draft, "kind", "summary")?;
    write_name(&mut draft, "owner", owner)?;
    draft.key("stamps")?;
    draft.begin_array()?;
    Ok(draft)
}

/// The document of the site of this name whose cells the text ends with.
pub(crate) fn closed(alloc: Global, mut front: Vec<u8>, name: SiteName) -> Result<Doc, AllocError>
    ensures { (cells : Entries) → IsFront cells front.items
        → IfOk result (IsSiteText (record { name = name; cells = cells })) }
{
    let end = end_of(alloc, Kind::Site, name)?;
    front.extend_from_slice(end.bytes())?;
    Ok(Doc::from(front))
}

/// The same of a copy of the text.
pub(crate) fn closed_copy(alloc: Global, front: &[u8], name: SiteName) -> Result<Doc, AllocError>
    ensures { (cells : Entries) → IsFront cells front.now
        → IfOk result (IsSiteText (record { name = name; cells = cells })) }
{
    let end = end_of(alloc, Kind::Site, name)?;
    let mut text = Vec::with_capacity(alloc, front.len() + end.len())?;
    text.extend_from_slice(front)?;
    text.extend_from_slice(end.bytes())?;
    Ok(Doc::from(text))
}

/// The document of the delta for the site of this name whose cells the text ends with.
pub(crate) fn closed_delta(
    alloc: Global,
    mut front: Vec<u8>,
    addressee: SiteName,
) -> Result<Doc, AllocError>
    ensures { (cells : Entries) → IsFront cells front.items
        → IfOk result (IsDeltaText (record { addressee = addressee; cells = cells })) }
{
    let end = end_of(alloc, Kind::Delta, addressee)?;
    front.extend_from_slice(end.bytes())?;
    Ok(Doc::from(front))
}

/// The document of the summary whose stamps the text ends with.
pub(crate) fn closed_summary(alloc: Global, mut front: Vec<u8>) -> Result<Doc, AllocError>
    ensures { (owner : List ℕ) (stamps : Stamps) → IsSiteName owner
        → IsStampsFront owner stamps front.items
        → IfOk result (IsSummaryText (record { owner = owner; stamps = stamps })) }
{
    let end = close_rows(Writer::new(Vec::new(alloc)))?;
    front.extend_from_slice(end.bytes())?;
    Ok(Doc::from(front))
}

/// What follows the cells in the document of this kind and name.
fn end_of(alloc: Global, kind: Kind, name: SiteName) -> Result<Doc, AllocError>
    ensures text { IfOk result (λ end. end ≡ end_text kind name) }
    ensures utf8 { IfOk result (λ end. IsUtf8 end) }
    ensures name { IsSiteName name }
{
    let draft = Writer::new(Vec::new(alloc));
    close_named(draft, kind.text(), kind.subject(), name.as_str())
}

/// Closes the rows, and adds the version.
fn close_rows(mut draft: Writer) -> Result<Doc, AllocError>
    ensures text { IfOk result (λ doc. doc ≡ draft.before
        ++ (print (draft.tokens ++ end_array ∷ version_tokens) ++ 10 ∷ [])) }
    ensures utf8 { IfOk result (λ doc. draft.before ≡ [] → IsUtf8 doc) }
{
    draft.end_array()?;
    write_version(&mut draft)?;
    finish(draft)
}

/// Closes the rows, and adds the kind, a name and the version.
fn close_named(mut draft: Writer, kind: &str, member: &str, name: &str) -> Result<Doc, AllocError>
    ensures text { IfOk result (λ doc. doc ≡ draft.before
        ++ (print (draft.tokens ++ end_array ∷ (name_tokens (codes "kind") kind.now
        ++ (name_tokens member.now name.now ++ version_tokens))) ++ 10 ∷ [])) }
    ensures utf8 { IfOk result (λ doc. draft.before ≡ [] → IsUtf8 doc) }
{
    draft.end_array()?;
    write_name(&mut draft, "kind", kind)?;
    write_name(&mut draft, member, name)?;
    write_version(&mut draft)?;
    finish(draft)
}

/// Adds a member that is a text.
fn write_name(draft: &mut Writer, member: &str, name: &str) -> Result<(), AllocError>
    ensures { OnOk result (Adds draft.old draft.new (name_tokens member.now name.now)) }
{
    draft.key(member)?;
    draft.string(name)
}

/// Adds the version, and closes the document's object.
fn write_version(draft: &mut Writer) -> Result<(), AllocError>
    ensures { OnOk result (Adds draft.old draft.new version_tokens) }
{
    draft.key("version")?;
    draft.u64(2)?;
    draft.end_object()
}
