//! Why a site name, a message id, a label or a stamp is refused.

ghost use Rattle.std.specs.Prelude.{◌≡◌};
ghost use Rattle.cell_core.specs.declared.fault.CellFault.TheVariants.{NoMemory};

use std::alloc::{AllocError, AllocFailed};
use thiserror::Error;

/// Why a site name, a message id, a label or a stamp is refused.
#[derive(Clone, Copy, Debug, PartialEq, Eq, Error)]
pub enum CellFault {
    /// 10: the text is no message id.
    #[error("message id")]
    IdRefused,
    /// 11: the first text that is over 65,535 bytes, counted from 0.
    #[error("text {index} is over 65535 bytes")]
    TextTooLong { index: usize },
    /// 12: a label has not 1 to 64 texts.
    #[error("label has {count} texts")]
    LabelCount { count: usize },
    /// 14: the site can have no stamp greater than the last one.
    #[error("clock is spent")]
    ClockSpent,
    /// 26: an allocation was refused.
    #[error("out of memory")]
    NoMemory,
    /// 27: the text is no site name.
    #[error("site name")]
    SiteName,
}

impl CellFault {
    ghost use Rattle.cell_core.specs.Fault.{number_of};

    /// The number of the refusal, in the numbering that all crates of the product share.
    pub fn number(&self) -> u8
        ensures { result ≡ number_of self.now }
    {
        match self {
            CellFault::IdRefused => 10,
            CellFault::TextTooLong { .. } => 11,
            CellFault::LabelCount { .. } => 12,
            CellFault::ClockSpent => 14,
            CellFault::NoMemory => 26,
            CellFault::SiteName => 27,
        }
    }
}

/// Out of memory is refusal 26.
impl From<AllocError> for CellFault {
    ghost from_gives = { λ _ fault. fault ≡ NoMemory };

    fn from(_: AllocError) -> CellFault {
        CellFault::NoMemory
    }
}

/// What found no memory is dropped, and the refusal is 26.
impl<T: Drop> From<AllocFailed<T>> for CellFault {
    ghost from_gives = { λ _ fault. fault ≡ NoMemory };

    fn from(_failed: AllocFailed<T>) -> CellFault {
        CellFault::NoMemory
    }
}
