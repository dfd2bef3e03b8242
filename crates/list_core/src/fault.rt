//! Why a field or a table of fallbacks is refused.
ghost use Rattle.std.specs.Prelude.{◌≡◌};
ghost use Rattle.list_core.specs.declared.fault.NegoFault.TheVariants.{NoMemory};

use std::alloc::{AllocError, AllocFailed};
use thiserror::Error;

/// Why a field is no priority list, or a text no table of fallbacks.
#[derive(Clone, Copy, Debug, PartialEq, Eq, Error)]
pub enum NegoFault {
    /// 8: the field or the table has more than 65,535 bytes.
    #[error("field is over 65535 bytes")]
    FieldTooLong,
    /// 9: the first malformed element begins at this byte of the field, blanks before it left out.
    #[error("field element at {offset}")]
    FieldMalformed { offset: usize },
    /// 31: the first element of a table of fallbacks that is none, or has the left side of an
    /// earlier one, begins at this byte.
    #[error("fallback at {offset}")]
    FallbackMalformed { offset: usize },
    /// 26: an allocation was refused.
    #[error("out of memory")]
    NoMemory,
}

impl NegoFault {
    ghost use Rattle.list_core.specs.Fault.{number_of};

    /// The fault's number among all refusals.
    pub fn number(&self) -> u8
        ensures { result ≡ number_of self.now }
    {
        match self {
            NegoFault::FieldTooLong => 8,
            NegoFault::FieldMalformed { .. } => 9,
            NegoFault::FallbackMalformed { .. } => 31,
            NegoFault::NoMemory => 26,
        }
    }
}

/// Out of memory is refusal 26.
impl From<AllocError> for NegoFault {
    ghost from_gives = { λ _ e. e ≡ NoMemory };

    fn from(_e: AllocError) -> NegoFault {
        NegoFault::NoMemory
    }
}

/// What found no memory is dropped, and the refusal is 26.
impl<T: Drop> From<AllocFailed<T>> for NegoFault {
    ghost from_gives = { λ _ e. e ≡ NoMemory };

    fn from(_e: AllocFailed<T>) -> NegoFault {
        NegoFault::NoMemory
    }
}
