//! Answers of lookup.

ghost use Rattle.std.specs.Prelude.{◌≡◌, IfOk};
ghost use Rattle.catalogue.specs.Reply.{reply_of};

use cell_core::Label;
use lang_core::Lang;
use std::alloc::{AllocError, Global};

/// The answer of a lookup, borrowed from the catalogue.
#[derive(Debug, Drop)]
pub enum LentReply<'a> {
    /// The language found, with its label.
    Matched(&'a Lang, &'a Label),
    /// The default, with its label.
    Default(&'a Lang, &'a Label),
    /// Nothing fits, and no default is open.
    Nothing,
}

/// The answer of a lookup.
#[derive(Debug, PartialEq, Eq, Drop)]
pub enum Reply {
    /// The language found, with its label.
    Matched(Lang, Label),
    /// The default, with its label.
    Default(Lang, Label),
    /// Nothing fits, and no default is open.
    Nothing,
}

impl Reply {
    /// An equal answer.
    pub fn copy(&self, alloc: Global) -> Result<Reply, AllocError>
        ensures { IfOk result (λ copied. copied ≡ self.now) }
    {
        self.lent().copy(alloc)
    }

    /// The answer, borrowed.
    fn lent(&self) -> LentReply<'_>
        ensures { reply_of result ≡ self.now }
    {
        match self {
            Reply::Matched(lang, label) => LentReply::Matched(lang, label),
            Reply::Default(lang, label) => LentReply::Default(lang, label),
            Reply::Nothing => LentReply::Nothing,
        }
    }
}

impl LentReply<'_> {
    /// The answer, copied.
    pub fn copy(&self, alloc: Global) -> Result<Reply, AllocError>
        ensures { IfOk result (λ copied. copied ≡ reply_of self.now) }
    {
        match self {
            LentReply::Matched(lang, label) => {
                Ok(Reply::Matched(lang.copy(alloc)?, label.copy(alloc)?))
            }
            LentReply::Default(lang, label) => {
                Ok(Reply::Default(lang.copy(alloc)?, label.copy(alloc)?))
            }
            LentReply::Nothing => Ok(Reply::Nothing),
        }
    }
}
