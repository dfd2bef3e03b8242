//! Why a document is refused.
ghost use Rattle.std.specs.Prelude.{◌≡◌};

use crate::stream::sources::MAX_BYTES;
use cata_core::{CataFault, PlayFault};
use cell_core::CellFault;
use lang_core::LangFault;
use nego_core::NegoFault;
use std::alloc::{AllocError, AllocFailed};
use std::fmt;
use thiserror::Error;

/// What a refusal points at: the whole document, or one of its rows, counted from 0.
#[derive(Clone, Copy, Debug, PartialEq, Eq)]
pub enum Spot {
    /// The document as a whole.
    Document,
    /// The row at this place, from 0.
    Row(usize),
}

/// Which rule a field of a row breaks, as the call that reads the field says it. Out of memory is
/// no such rule: it is [`DocCause::NoMemory`].
#[derive(Clone, Copy, Debug, PartialEq, Eq, Error)]
pub enum FieldFault {
    /// The text is no language.
    #[error(transparent)]
    Language(LangFault),
    /// The text is no message id or no site name, or the texts are no label.
    #[error(transparent)]
    Cell(CellFault),
    /// The text is no priority list.
    #[error(transparent)]
    Priorities(NegoFault),
}

impl FieldFault {
    ghost use Rattle.json_docs.specs.Faults.{field_number};

    /// The number of the refusal.
    pub fn number(&self) -> u8
        ensures { result ≡ field_number self.now }
    {
        match self {
            FieldFault::Language(fault) => fault.number(),
            FieldFault::Cell(fault) => fault.number(),
            FieldFault::Priorities(fault) => fault.number(),
        }
    }
}

/// Which rule is broken, or what failed. Its text says this alone, without row and document.
///
/// Each refusal has one form: out of memory is always [`DocCause::NoMemory`], never a fault inside
/// another cause.
#[derive(Clone, Copy, Debug, PartialEq, Eq, Error)]
pub enum DocCause {
    /// The bytes are not UTF-8 (RFC 3629); the longest valid prefix has `offset` bytes.
    #[error("not UTF-8 at {offset}")]
    NotUtf8 { offset: usize },
    /// The text is no JSON (RFC 8259) that `serde_json` reads.
    #[error("not JSON")]
    NotJson,
    /// A value does not have the shape that its place requires.
    #[error("shape")]
    Shape { spot: Spot },
    /// A field of a row breaks a rule.
    #[error("{fault}")]
    Field { row: usize, fault: FieldFault },
    /// The key of a row is not greater than that of the row before.
    #[error("cell order")]
    CellOrder { row: usize },
    /// A language of a message equals an earlier one without case.
    #[error("language repeated")]
    RepeatedTag { row: usize },
    /// The source gave more than [`MAX_BYTES`] bytes.
    #[error("document is over {most} bytes", most = MAX_BYTES)]
    TooLarge,
    /// A read gave an error.
    #[error("read fault")]
    ReadFault,
    /// A write gave an error, or took none of some bytes.
    #[error("write fault")]
    WriteFault,
    /// Memory was refused.
    #[error("out of memory")]
    NoMemory,
    /// What the document names its site by is no site name.
    #[error("site name")]
    SiteName,
    /// The version is neither 1 nor 2.
    #[error("version unknown")]
    VersionUnknown,
    /// The time of a row is greater than the limit that was given.
    #[error("time is ahead")]
    TimeAhead { row: usize },
    /// A row is an edit of the site that takes it, which the site lacks or has at a lesser stamp.
    #[error("an edit of this site is missing here")]
    OwnEditMissing { row: usize },
    /// The site refuses the call: a stamp used twice, an exhausted clock, or another site's delta.
    #[error(transparent)]
    Site(CataFault),
    /// A step of a script is refused.
    #[error(transparent)]
    Step(PlayFault),
}

impl DocCause {
    ghost use Rattle.json_docs.specs.Faults.{number_of, row_of};

    /// The number of the refusal.
    pub fn number(&self) -> u8
        ensures { result ≡ number_of self.now }
    {
        match self {
            DocCause::NotUtf8 { .. } => 18,
            DocCause::NotJson => 19,
            DocCause::Shape { .. } => 20,
            DocCause::Field { fault, .. } => fault.number(),
            DocCause::CellOrder { .. } => 21,
            DocCause::RepeatedTag { .. } => 22,
            DocCause::TooLarge => 23,
            DocCause::ReadFault => 24,
            DocCause::WriteFault => 25,
            DocCause::NoMemory => 26,
            DocCause::SiteName => 27,
            DocCause::VersionUnknown => 28,
            DocCause::TimeAhead { .. } => 29,
            DocCause::OwnEditMissing { .. } => 30,
            DocCause::Site(fault) => fault.number(),
            DocCause::Step(fault) => fault.number(),
        }
    }

    /// The row that is named, counted from 0, or none.
    pub fn row(&self) -> Option<usize>
        ensures { result ≡ row_of self.now }
    {
        match self {
            DocCause::Shape {
                spot: Spot::Row(row),
            }
            | DocCause::Field { row, .. }
            | DocCause::CellOrder { row }
            | DocCause::RepeatedTag { row }
            | DocCause::TimeAhead { row }
            | DocCause::OwnEditMissing { row } => Some(*row),
            _ => None,
        }
    }
}

/// Out of memory is refusal 26.
impl From<AllocError> for DocCause {
    ghost use Rattle.json_docs.specs.declared.fault.DocCause.TheVariants.{NoMemory};

    ghost from_gives = { λ _ cause. cause ≡ NoMemory };

    fn from(_refused: AllocError) -> DocCause {
        DocCause::NoMemory
    }
}

/// What found no memory is dropped, and the refusal is 26.
impl<T: Drop> From<AllocFailed<T>> for DocCause {
    ghost use Rattle.json_docs.specs.declared.fault.DocCause.TheVariants.{NoMemory};

    ghost from_gives = { λ _ cause. cause ≡ NoMemory };

    fn from(_refused: AllocFailed<T>) -> DocCause {
        DocCause::from(AllocError)
    }
}

/// A refusal, with the input document that it names, counted from 1. Faults of streams and out of
/// memory name none, which is 0.
///
/// Its text is the whole line that a user reads, as `refused 21: cell order in row 1 of document
/// 1`.
#[derive(Clone, Copy, Debug, PartialEq, Eq, Error)]
#[error("refused {number}: {cause}{row}{document}", number = .cause.number(), row = InRow(.cause.row()), document = OfDocument(*.document))]
pub struct DocFault {
    /// The input document, from 1; 0 means none.
    pub document: usize,
    /// Why it is refused.
    pub cause: DocCause,
}

impl DocFault {
    ghost use Rattle.json_docs.specs.Faults.{number_of, of_document, of_no_document};

    /// A refusal that names no input document.
    pub fn of_no_document(cause: DocCause) -> DocFault
        ensures { result ≡ of_no_document cause }
    {
        DocFault { document: 0, cause }
    }

    /// The refusal of this input document by its reader; out of memory names none.
    pub fn of_document(document: usize, cause: DocCause) -> DocFault
        ensures { result ≡ of_document document cause }
    {
        match cause {
            DocCause::NoMemory => DocFault::of_no_document(cause),
            _ => DocFault { document, cause },
        }
    }

    /// The number of the refusal.
    pub fn number(&self) -> u8
        ensures { result ≡ number_of self.now.cause }
    {
        self.cause.number()
    }
}

/// Out of memory is refusal 26.
impl From<AllocError> for DocFault {
    ghost use Rattle.json_docs.specs.Faults.{of_no_document};
    ghost use Rattle.json_docs.specs.declared.fault.DocCause.TheVariants.{NoMemory};

    ghost from_gives = { λ _ fault. fault ≡ of_no_document NoMemory };

    fn from(_refused: AllocError) -> DocFault {
        DocFault::of_no_document(DocCause::NoMemory)
    }
}

/// What found no memory is dropped, and the refusal is 26.
impl<T: Drop> From<AllocFailed<T>> for DocFault {
    ghost use Rattle.json_docs.specs.Faults.{of_no_document};
    ghost use Rattle.json_docs.specs.declared.fault.DocCause.TheVariants.{NoMemory};

    ghost from_gives = { λ _ fault. fault ≡ of_no_document NoMemory };

    fn from(_refused: AllocFailed<T>) -> DocFault {
        DocFault::from(AllocError)
    }
}

/// The refusal of a site is kept, and names no document.
impl From<CataFault> for DocFault {
    ghost use Rattle.json_docs.specs.Faults.{of_no_document, of_site};

    ghost from_gives = { λ refused fault. fault ≡ of_no_document (of_site refused) };

    fn from(refused: CataFault) -> DocFault {
        DocFault::of_no_document(match refused {
            CataFault::NoMemory => DocCause::NoMemory,
            _ => DocCause::Site(refused),
        })
    }
}

/// The refusal of a step is kept, and names no document.
impl From<PlayFault> for DocFault {
    ghost use Rattle.json_docs.specs.Faults.{of_no_document, of_step};

    ghost from_gives = { λ refused fault. fault ≡ of_no_document (of_step refused) };

    fn from(refused: PlayFault) -> DocFault {
        DocFault::of_no_document(match refused {
            PlayFault::NoMemory => DocCause::NoMemory,
            _ => DocCause::Step(refused),
        })
    }
}

/// The row after a refusal's text, where it names one.
#[derive(Clone, Copy)]
struct InRow(Option<usize>);

impl fmt::Display for InRow {
    fn fmt<W: fmt::Write>(&self, f: &mut fmt::Formatter<W>) -> fmt::Result {
        match self.0 {
            None => Ok(()),
            Some(row) => write!(f, " in row {row}"),
        }
    }
}

/// The end of a refusal's line: the input document, where it names one.
#[derive(Clone, Copy)]
struct OfDocument(usize);

impl fmt::Display for OfDocument {
    fn fmt<W: fmt::Write>(&self, f: &mut fmt::Formatter<W>) -> fmt::Result {
        let document = self.0;
        if document == 0 {
            return Ok(());
        }
        write!(f, " of document {document}")
    }
}
