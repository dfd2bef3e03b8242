//! The document of a summary that shows labels, written.
ghost use Rattle.std.specs.Prelude.{◌≡◌, ◌∷◌, IfOk, OnOk, length, true};
ghost use Rattle.std.specs.List.{list_all};
ghost use Rattle.json.specs.Token.{end_array};
ghost use Rattle.cell_core.specs.Label.{texts_of};
ghost use Rattle.cell_core.specs.SiteName.{IsSiteName};
ghost use Rattle.row_docs.specs.Entries.{stamps_values};
ghost use Rattle.row_docs.specs.EntriesValid.{AreKeptStamps};
ghost use Rattle.row_docs.specs.inner.WritingEnvelope.{version_tokens};
ghost use Rattle.row_docs.specs.WritingTexts.{Adds};
ghost use Rattle.row_docs.specs.inner.WritingTexts.{row_tokens};
ghost use Rattle.summary_docs.specs.Reading.{is_digest};
ghost use Rattle.summary_docs.specs.Writing.{IsShownText};
ghost use Rattle.summary_docs.specs.inner.Writing.{kind_opening, labels_opening, stamps_opening};

use crate::shown::ShownSummary;
use cata_core::Summary;
use cell_core::SiteName;
use json::Writer;
use json_docs::Doc;
use row_docs::{finish, write_stamped, write_texts};
use std::alloc::{AllocError, Global};

/// The document of a summary with its digests, which are one for each stamp, version 2. It reads as
/// this summary.
///
/// Its one refusal is out of memory (26).
pub(crate) fn write_shown(alloc: Global, shown: &ShownSummary) -> Result<Doc, AllocError>
    requires digests { list_all is_digest shown.now.digests ≡ true }
    requires each { length shown.now.digests ≡ length shown.now.summary.stamps }
    ensures { IfOk result (IsShownText shown.now) }
{
    let mut draft = Writer::new(Vec::new(alloc));
    open_labels(&mut draft, shown.digests(), shown.owner())?;
    write_stamps(&mut draft, shown.summary())?;
    end_stamps(&mut draft)?;
    let doc = finish(draft)?;
    Ok(doc)
}

/// Opens the document of a summary with labels, as far as its stamps.
fn open_labels(draft: &mut Writer, digests: &[String], owner: SiteName) -> Result<(), AllocError>
    ensures tokens { OnOk result
        (Adds draft.old draft.new (labels_opening owner (texts_of digests.now))) }
    ensures owner { IsSiteName owner }
{
    open_kind(draft)?;
    write_texts(draft, digests)?;
    open_stamps(draft, owner)
}

/// Opens the document as far as its digests.
fn open_kind(draft: &mut Writer) -> Result<(), AllocError>
    ensures { OnOk result (Adds draft.old draft.new kind_opening) }
{
    draft.begin_object()?;
    draft.key("kind")?;
    draft.string("summary")?;
    draft.key("labels")
}

/// Adds the owner, and opens the stamps.
fn open_stamps(draft: &mut Writer, owner: SiteName) -> Result<(), AllocError>
    ensures tokens { OnOk result (Adds draft.old draft.new (stamps_opening owner)) }
    ensures owner { IsSiteName owner }
{
    draft.key("owner")?;
    draft.string(owner.as_str())?;
    draft.key("stamps")?;
    draft.begin_array()
}

/// Adds the rows of the stamps.
fn write_stamps(draft: &mut Writer, summary: &Summary) -> Result<(), AllocError>
    ensures rows { OnOk result
        (Adds draft.old draft.new (row_tokens (stamps_values summary.now.stamps))) }
    ensures kept { OnOk result (AreKeptStamps summary.now.stamps) }
{
    for place in 0..summary.len() {
        if let Some((id, lang, stamp)) = summary.nth(place) {
            write_stamped(draft, id, lang, stamp)?;
        }
    }
    Ok(())
}

/// Closes the rows, and adds the version.
fn end_stamps(draft: &mut Writer) -> Result<(), AllocError>
    ensures { OnOk result (Adds draft.old draft.new (end_array ∷ version_tokens)) }
{
    draft.end_array()?;
    draft.key("version")?;
    draft.u64(2)?;
    draft.end_object()
}
