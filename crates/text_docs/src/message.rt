//! One message of a document.
ghost use Rattle.std.specs.Prelude.{◌≡◌, ◌≤◌, ◌++◌, IfOk, MatchResult, drop, length};
ghost use Rattle.std.specs.List.{slice_range};
ghost use Rattle.cata_core.specs.Site.{SiteState};
ghost use Rattle.catalogue.specs.Live.{live};
ghost use Rattle.row_docs.specs.Reading.{no_memory};
ghost use Rattle.text_docs.specs.Message.{IsCompactSite};
ghost use Rattle.text_docs.specs.Rows.{opening};
ghost use Rattle.text_docs.specs.inner.Rows.{AreRowsAt};

use crate::part::part_of;
use crate::rows::{OPENING, Rows, rows_in};
use cata_core::Site;
use cell_core::MessageId;
use json_docs::DocFault;
use query_docs::read_message;
use std::alloc::{AllocError, Global};

/// The site of a document, as far as a question about one message needs it: with the live labels
/// of this message. Where the rows of the document have no blanks, whatever escapes their strings
/// have, a question about the message has the answers that it has over the whole site, and the one
/// refusal is out of memory (26). What is written for a site is such a document, with its last line
/// feed or without.
///
/// Of such a text the rows of the message are read, those that bisection falls on, and those beside
/// them whose ids have other escapes than `\"` and `\\`. Any other text is read as far as it seems
/// to be such a one, or else whole: what is answered or refused then is not said. No bytes but
/// those of the text are read, whatever they are.
pub fn message_in(alloc: Global, text: &[u8], id: &MessageId) -> Result<Site, DocFault>
    ensures { (site : SiteState) → IsCompactSite text.now site
        → MatchResult result (λ part. live part.cells id.now ≡ live site.cells id.now)
        (λ fault. fault ≡ no_memory) }
{
    match rows_in(text) {
        Some(rows) => message_of(alloc, text, rows, id),
        None => read_message(alloc, text, id),
    }
}

/// The same, where all rows of the text are these.
fn message_of(alloc: Global, text: &[u8], rows: Rows, id: &MessageId) -> Result<Site, DocFault>
    requires { AreRowsAt text.now rows.start rows.end }
    ensures { (site : SiteState) → IsCompactSite text.now site
        → MatchResult result (λ part. live part.cells id.now ≡ live site.cells id.now)
        (λ fault. fault ≡ no_memory) }
{
    let part = part_of(text, rows, id.as_str().as_bytes());
    let document = document_of(alloc, text, part, rows.end)?;
    read_message(alloc, document.as_slice(), id)
}

/// The document with these rows alone, where all rows of the text end at `end`.
fn document_of(alloc: Global, text: &[u8], part: Rows, end: usize) -> Result<Vec<u8>, AllocError>
    requires { (part.start ≤ part.end) × (part.end ≤ end) × (end ≤ length text.now) }
    ensures { IfOk result (λ document. document.items
        ≡ opening ++ (slice_range text.now part.start part.end ++ drop end text.now)) }
{
    let document = with(Vec::new(alloc), OPENING)?;
    let document = with(document, &text[part.start..part.end])?;
    let document = with(document, &text[end..])?;
    Ok(document)
}

/// The document with these bytes after it.
fn with(mut document: Vec<u8>, bytes: &[u8]) -> Result<Vec<u8>, AllocError>
    ensures { IfOk result (λ longer. longer.items ≡ document.items ++ bytes.now) }
{
    document.extend_from_slice(bytes)?;
    Ok(document)
}
