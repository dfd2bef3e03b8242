//! Questions to a document of a site.
ghost use Rattle.std.specs.Prelude.{◌≡◌, IfOk, MatchResult};
ghost use Rattle.catalogue.specs.Reply.{reply_of};
ghost use Rattle.json_docs.specs.FaultChecks.{OrMemory};
ghost use Rattle.row_docs.specs.Reading.{IsOfDocument, no_memory};
ghost use Rattle.site_docs.specs.Reading.{RefusesSite};
ghost use Rattle.query_docs.specs.Asking.{Answers, IsAsked, is_found};

use crate::lines::{filter_lines, reply_line};
use crate::one_message::read_message;
use cata_core::{Catalogue, LentReply};
use cell_core::MessageId;
use json_docs::{Doc, DocFault};
use lang_core::Lang;
use nego_core::{PriorityList, Scheme};
use std::alloc::{AllocError, Global};

/// A question about the live labels of a message.
#[derive(Drop)]
pub enum Ask {
    /// Those whose languages the list takes (RFC 4647, sections 3.3.1 and 3.3.2).
    Filter(Scheme, PriorityList),
    /// The one that the list looks up (RFC 4647, section 3.4), or that of the default.
    Lookup(PriorityList, Option<Lang>),
}

/// The lines of the answer of a site to a question about a message, and whether anything was found:
/// nothing was exactly where the lines are `filter 0` or `nothing`.
///
/// Refused as the document of the site is by its reader, with document 1, or since memory ran out
/// (26).
pub fn ask_document(
    alloc: Global,
    site: &[u8],
    id: &MessageId,
    ask: &Ask,
) -> Result<(Doc, bool), DocFault>
    ensures { MatchResult result (λ answer. IsAsked site.now id.now ask.now answer.0 answer.1)
        (OrMemory no_memory (IsOfDocument 1 (RefusesSite site.now))) }
{
    let site = read_message(alloc, site, id)?;
    let answer = answer_of(alloc, site.catalogue(), id, ask)?;
    Ok(answer)
}

/// The lines of the answer, and whether anything was found.
fn answer_of(
    alloc: Global,
    catalogue: &Catalogue,
    id: &MessageId,
    ask: &Ask,
) -> Result<(Doc, bool), AllocError>
    ensures { IfOk result (λ answer. Answers catalogue.now id.now ask.now answer.0 answer.1) }
{
    match ask {
        Ask::Filter(scheme, list) => filter_answer(alloc, catalogue, id, *scheme, list),
        Ask::Lookup(list, default) => {
            let reply = catalogue.ask_lookup(id, list, default.as_ref());
            let line = reply_line(alloc, &reply)?;
            Ok((line, is_found(&reply)))
        }
    }
}

/// The lines of a filter, and whether they have a label.
fn filter_answer(
    alloc: Global,
    catalogue: &Catalogue,
    id: &MessageId,
    scheme: Scheme,
    list: &PriorityList,
) -> Result<(Doc, bool), AllocError>
    ensures { IfOk result
        (λ answer. Answers catalogue.now id.now (Ask.Filter scheme list.now) answer.0 answer.1) }
{
    let entries = catalogue.ask_filter(alloc, id, list, scheme)?;
    let lines = filter_lines(alloc, &entries)?;
    Ok((lines, entries.len() != 0))
}

/// Whether a lookup found a label.
fn is_found(reply: &LentReply<'_>) -> bool
    ensures { result ≡ is_found (reply_of reply.now) }
{
    !matches!(reply, LentReply::Nothing)
}
