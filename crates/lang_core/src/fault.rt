//! Why a text is refused.
ghost use Rattle.std.specs.Prelude.{◌≡◌};
ghost use Rattle.lang_core.specs.declared.fault.LangFault.TheVariants.{NoMemory};

use std::alloc::{AllocError, AllocFailed};
use thiserror::Error;

/// Why a text is no tag, no language or no range.
///
/// Offsets count the text's bytes from 0. A subtag begins after the hyphen before it, so the empty
/// subtag after a final hyphen begins at the text's length.
#[derive(Clone, Copy, Debug, PartialEq, Eq, Error)]
pub enum LangFault {
    /// 1: the text has no bytes.
    #[error("tag is empty")]
    TagEmpty,
    /// 2: the text has more than 255 bytes.
    #[error("tag is over 255 bytes")]
    TagTooLong,
    /// 3: the first subtag that is not 1 to 8 ASCII letters or digits begins here.
    #[error("subtag at {offset}")]
    TagSubtag { offset: usize },
    /// 4: each subtag might be one, but together they are no tag (RFC 5646 section 2.1).
    #[error("tag is not well-formed")]
    TagNotWellFormed,
    /// 5: the text has no bytes.
    #[error("range is empty")]
    RangeEmpty,
    /// 6: the text has more than 255 bytes.
    #[error("range is over 255 bytes")]
    RangeTooLong,
    /// 7: the first subtag that the range's grammar does not allow at its place begins here.
    #[error("range subtag at {offset}")]
    RangeSubtag { offset: usize },
    /// 26: nothing else is wrong, but an allocation was refused.
    #[error("out of memory")]
    NoMemory,
}

impl LangFault {
    ghost use Rattle.lang_core.specs.Fault.{number_of, offset_of, meaning_of};

    /// The fault's number among all refusals.
    pub fn number(&self) -> u8
        ensures { result ≡ number_of self.now }
    {
        match self {
            LangFault::TagEmpty => 1,
            LangFault::TagTooLong => 2,
            LangFault::TagSubtag { .. } => 3,
            LangFault::TagNotWellFormed => 4,
            LangFault::RangeEmpty => 5,
            LangFault::RangeTooLong => 6,
            LangFault::RangeSubtag { .. } => 7,
            LangFault::NoMemory => 26,
        }
    }

    /// Where the subtag that is refused begins, in bytes from 0: of 3 and 7 alone.
    ///
    /// ```text
    /// Tag::parse(alloc, b"en--us")  Err(fault), fault.offset() is Some(3)
    /// Tag::parse(alloc, b"")        Err(fault), fault.offset() is None
    /// ```
    pub fn offset(&self) -> Option<usize>
        ensures { result ≡ offset_of self.now }
    {
        match *self {
            LangFault::TagSubtag { offset } | LangFault::RangeSubtag { offset } => Some(offset),
            _ => None,
        }
    }

    /// What was wanted, in one sentence without an end mark, to be shown after the fault's text.
    ///
    /// ```text
    /// "{fault}: {meaning}"  subtag at 3: each subtag is 1 to 8 letters or digits, ..
    /// ```
    pub fn meaning(&self) -> &'static str
        ensures { result.now ≡ meaning_of self.now }
    {
        match *self {
            LangFault::TagEmpty => "a tag has at least one byte",
            LangFault::TagTooLong => "a tag has at most 255 bytes",
            LangFault::TagSubtag { .. } => {
                "each subtag is 1 to 8 letters or digits, with a hyphen between two"
            }
            LangFault::TagNotWellFormed => {
                "a language comes first, then script, region, variants, extensions, private use"
            }
            LangFault::RangeEmpty => "a range has at least one byte",
            LangFault::RangeTooLong => "a range has at most 255 bytes",
            LangFault::RangeSubtag { .. } => {
                "each subtag is * or 1 to 8 letters, after the first also digits; \
                 in a basic range * is alone"
            }
            LangFault::NoMemory => "there is memory for the text",
        }
    }
}

/// Out of memory is refusal 26.
impl From<AllocError> for LangFault {
    ghost from_gives = { λ _ e. e ≡ NoMemory };

    fn from(_e: AllocError) -> LangFault {
        LangFault::NoMemory
    }
}

/// What found no memory is dropped, and the refusal is 26.
impl<T: Drop> From<AllocFailed<T>> for LangFault {
    ghost from_gives = { λ _ e. e ≡ NoMemory };

    fn from(_e: AllocFailed<T>) -> LangFault {
        LangFault::NoMemory
    }
}
