//! Why a question or a command is refused.
ghost use Rattle.std.specs.Prelude.{◌≡◌};
ghost use Rattle.front_core.specs.Fault.{cause_count, cause_offset, cell_count, nego_offset};
ghost use Rattle.front_core.specs.Fault.{row_offset};

use cata_core::CataFault;
use cell_core::CellFault;
use docs_core::{DocCause, DocFault, FieldFault};
use lang_core::LangFault;
use nego_core::NegoFault;
use std::alloc::{AllocError, AllocFailed};
use thiserror::Error;

/// Why a question or a command is refused. Out of memory is always `NoMemory`, never a cause of
/// another kind.
#[derive(Clone, Copy, Debug, PartialEq, Eq, Error)]
pub enum FrontFault {
    /// A text is no message id (10), no label (11, 12) or no site name (27).
    #[error("{0}")]
    Cell(CellFault),
    /// A text is no language: 1 to 4.
    #[error("{0}")]
    Language(LangFault),
    /// The field is no priority list: 8, 9.
    #[error("{0}")]
    Field(NegoFault),
    /// A document or a stream is refused, or a site refuses an edit: 1 to 4, 8 to 25, 27 to 30.
    #[error("{cause}", cause = .0.cause)]
    Document(DocFault),
    /// 26.
    #[error("out of memory")]
    NoMemory,
}

impl FrontFault {
    ghost use Rattle.front_core.specs.Fault.{count_of, document_of, number_of, offset_of, row_of};

    /// The number of the refusal.
    pub fn number(&self) -> u8
        ensures { result ≡ number_of self.now }
    {
        match self {
            FrontFault::Cell(fault) => fault.number(),
            FrontFault::Language(fault) => fault.number(),
            FrontFault::Field(fault) => fault.number(),
            FrontFault::Document(fault) => fault.number(),
            FrontFault::NoMemory => 26,
        }
    }

    /// Where in the text that is refused the fault lies, in bytes from 0: of refusals 3, 9 and 18,
    /// and of 7, which no call gives. In a document 3 and 9 count in the text of the row's field.
    pub fn offset(&self) -> Option<usize>
        ensures { result ≡ offset_of self.now }
    {
        match self {
            FrontFault::Language(fault) => fault.offset(),
            FrontFault::Field(fault) => nego_offset(*fault),
            FrontFault::Document(fault) => cause_offset(fault.cause),
            FrontFault::Cell(_) | FrontFault::NoMemory => None,
        }
    }

    /// What the text of the refusal counts. If its number is 11: the index of the text in its
    /// label; if 12: how many texts the label has; if 13: the index of the cell in the receiving
    /// site. Indexes count from 0.
    pub fn count(&self) -> Option<usize>
        ensures { result ≡ count_of self.now }
    {
        match self {
            FrontFault::Cell(fault) => cell_count(*fault),
            FrontFault::Document(fault) => cause_count(fault.cause),
            _ => None,
        }
    }

    /// The row of the document that is refused, counted from 0, where one is named.
    pub fn row(&self) -> Option<usize>
        ensures { result ≡ row_of self.now }
    {
        match self {
            FrontFault::Document(fault) => fault.cause.row(),
            _ => None,
        }
    }

    /// The input document that is refused, counted from 1; 0 where none is named.
    pub fn document(&self) -> usize
        ensures { result ≡ document_of self.now }
    {
        match self {
            FrontFault::Document(fault) => fault.document,
            _ => 0,
        }
    }
}

/// The refusal is kept, and out of memory has one form.
impl From<CellFault> for FrontFault {
    ghost use Rattle.front_core.specs.Fault.{cell_fault};

    ghost from_gives = { λ refused fault. fault ≡ cell_fault refused };

    fn from(refused: CellFault) -> FrontFault {
        match refused {
            CellFault::NoMemory => FrontFault::NoMemory,
            refused => FrontFault::Cell(refused),
        }
    }
}

/// The refusal is kept, and out of memory has one form.
impl From<LangFault> for FrontFault {
    ghost use Rattle.front_core.specs.Fault.{language_fault};

    ghost from_gives = { λ refused fault. fault ≡ language_fault refused };

    fn from(refused: LangFault) -> FrontFault {
        match refused {
            LangFault::NoMemory => FrontFault::NoMemory,
            refused => FrontFault::Language(refused),
        }
    }
}

/// The refusal is kept, and out of memory has one form.
impl From<NegoFault> for FrontFault {
    ghost use Rattle.front_core.specs.Fault.{field_fault};

    ghost from_gives = { λ refused fault. fault ≡ field_fault refused };

    fn from(refused: NegoFault) -> FrontFault {
        match refused {
            NegoFault::NoMemory => FrontFault::NoMemory,
            refused => FrontFault::Field(refused),
        }
    }
}

/// The refusal is kept, with its row and its document, and out of memory has one form.
impl From<DocFault> for FrontFault {
    ghost use Rattle.front_core.specs.Fault.{document_fault};

    ghost from_gives = { λ refused fault. fault ≡ document_fault refused };

    fn from(refused: DocFault) -> FrontFault {
        match refused.cause {
            DocCause::NoMemory => FrontFault::NoMemory,
            _ => FrontFault::Document(refused),
        }
    }
}

/// The refusal is kept, names no document, and out of memory has one form.
impl From<CataFault> for FrontFault {
    ghost use Rattle.front_core.specs.Fault.{site_fault};

    ghost from_gives = { λ refused fault. fault ≡ site_fault refused };

    fn from(refused: CataFault) -> FrontFault {
        FrontFault::from(DocFault::from(refused))
    }
}

/// Out of memory is refusal 26.
impl From<AllocError> for FrontFault {
    ghost use Rattle.front_core.specs.declared.fault.FrontFault.TheVariants.{NoMemory};

    ghost from_gives = { λ _ fault. fault ≡ NoMemory };

    fn from(_refused: AllocError) -> FrontFault {
        FrontFault::NoMemory
    }
}

/// What found no memory is dropped, and the refusal is 26.
impl<T: Drop> From<AllocFailed<T>> for FrontFault {
    ghost use Rattle.front_core.specs.declared.fault.FrontFault.TheVariants.{NoMemory};

    ghost from_gives = { λ _ fault. fault ≡ NoMemory };

    fn from(_refused: AllocFailed<T>) -> FrontFault {
        FrontFault::NoMemory
    }
}

/// The offset of a fault of a field, or of a table of fallbacks.
fn nego_offset(fault: NegoFault) -> Option<usize>
    ensures { result ≡ nego_offset fault }
{
    match fault {
        NegoFault::FieldMalformed { offset } | NegoFault::FallbackMalformed { offset } => {
            Some(offset)
        }
        _ => None,
    }
}

/// The offset of a fault in the field of a row.
fn row_offset(fault: FieldFault) -> Option<usize>
    ensures { result ≡ row_offset fault }
{
    match fault {
        FieldFault::Language(fault) => fault.offset(),
        FieldFault::Cell(_) => None,
        FieldFault::Priorities(fault) => nego_offset(fault),
    }
}

/// The offset of a document's refusal.
fn cause_offset(cause: DocCause) -> Option<usize>
    ensures { result ≡ cause_offset cause }
{
    match cause {
        DocCause::NotUtf8 { offset } => Some(offset),
        DocCause::Field { fault, .. } => row_offset(fault),
        _ => None,
    }
}

/// The count of a fault of a cell.
fn cell_count(fault: CellFault) -> Option<usize>
    ensures { result ≡ cell_count fault }
{
    match fault {
        CellFault::TextTooLong { index } => Some(index),
        CellFault::LabelCount { count } => Some(count),
        _ => None,
    }
}

/// The count of a document's refusal.
fn cause_count(cause: DocCause) -> Option<usize>
    ensures { result ≡ cause_count cause }
{
    match cause {
        DocCause::Field {
            fault: FieldFault::Cell(fault),
            ..
        } => cell_count(fault),
        DocCause::Site(CataFault::StampReused { place, .. }) => usize::try_from(place).ok(),
        _ => None,
    }
}
