//! Answers.
ghost use Rattle.std.specs.Prelude.{◌≡◌};

use cata_core::LentReply;
use docs_core::Doc;

/// Whether an answer has found anything.
#[derive(Clone, Copy, Debug, PartialEq, Eq)]
pub enum Outcome {
    /// The answer has a tag, a label or a line, or it is the document, the summary, the delta, the
    /// status or the export of a site.
    Found,
    /// The answer is `nothing`, `filter 0`, `changes 0`, `labels 0` or `{}`.
    Nothing,
}

impl Outcome {
    ghost use Rattle.catalogue.specs.Reply.{reply_of};
    ghost use Rattle.query_docs.specs.Asking.{is_found as is_reply};
    ghost use Rattle.front_core.specs.Ask.{is_found};

    /// `Found` if `found`, else `Nothing`.
    pub fn of(found: bool) -> Outcome
        ensures { is_found result ≡ found }
    {
        if found {
            Outcome::Found
        } else {
            Outcome::Nothing
        }
    }

    /// Whether the answer of a lookup has a label.
    pub(crate) fn of_reply(reply: &LentReply<'_>) -> Outcome
        ensures { is_found result ≡ is_reply (reply_of reply.now) }
    {
        Outcome::of(!matches!(reply, LentReply::Nothing))
    }
}

/// What answers a question: lines or language maps, as the command prints them.
#[derive(Drop)]
pub struct Answer {
    /// The bytes to print, with their line feed.
    pub text: Doc,
    /// Whether anything was found.
    pub outcome: Outcome,
}

impl Answer {
    ghost use Rattle.front_core.specs.Ask.{is_found};

    /// The answer of this text.
    pub fn new(text: Doc, outcome: Outcome) -> Answer
        ensures { result ≡ record { text = text; outcome = outcome } }
    {
        Answer { text, outcome }
    }

    /// The answer of this text, which counts as found.
    pub(crate) fn found(text: Doc) -> Answer
        ensures { result ≡ record { text = text; outcome = Outcome.Found } }
    {
        Answer::new(text, Outcome::Found)
    }

    /// The answer of a text that has found something if `written.1`.
    pub(crate) fn of(written: (Doc, bool)) -> Answer
        ensures text { result.text ≡ written.0 }
        ensures found { is_found result.outcome ≡ written.1 }
    {
        let (text, found) = written;
        Answer::new(text, Outcome::of(found))
    }
}

/// The text at a place of the label that a lookup finds.
#[derive(Clone, Copy, Debug, PartialEq, Eq)]
pub enum LabelText<'a> {
    /// The text at the place, and how many texts the label has.
    Found { text: &'a str, count: usize },
    /// The label has `count` texts, and none at the place.
    PastEnd { count: usize },
    /// Lookup finds no label.
    Nothing,
}
