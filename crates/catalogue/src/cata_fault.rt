//! Why a catalogue or a site refuses a call.

ghost use Rattle.std.specs.Prelude.{◌≡◌};
ghost use Rattle.catalogue.specs.declared.cata_fault.CataFault.TheVariants.{NoMemory};

use cell_core::{SiteName, Stamp};
use std::alloc::{AllocError, AllocFailed};
use thiserror::Error;

/// Why a catalogue or a site refuses a call.
#[derive(Clone, Copy, Debug, PartialEq, Eq, Error)]
pub enum CataFault {
    /// 13: at a key the incoming cell has the same stamp as the stored one, and another label. The
    /// place is that of the key in the receiving catalogue, from 0, and the stamp is the stored
    /// cell's.
    #[error("stamp {} {} {} used twice, cell {place}", .stamp.time, .stamp.site.as_str(), .stamp.count)]
    StampReused { place: u128, stamp: Stamp },
    /// 14: the site can have no stamp greater than the last one.
    #[error("clock is spent")]
    ClockSpent,
    /// 15: the delta is for another site.
    #[error("delta is for site {}", .addressee.as_str())]
    NotForMe { addressee: SiteName },
    /// 26: an allocation was refused.
    #[error("out of memory")]
    NoMemory,
}

impl CataFault {
    ghost use Rattle.catalogue.specs.CataFault.{number_of};

    /// The number of the refusal, in the numbering that all crates of the product share.
    pub fn number(&self) -> u8
        ensures { result ≡ number_of self.now }
    {
        match self {
            CataFault::StampReused { .. } => 13,
            CataFault::ClockSpent => 14,
            CataFault::NotForMe { .. } => 15,
            CataFault::NoMemory => 26,
        }
    }
}

/// Out of memory is refusal 26.
impl From<AllocError> for CataFault {
    ghost from_gives = { λ _ fault. fault ≡ NoMemory };

    fn from(_: AllocError) -> CataFault {
        CataFault::NoMemory
    }
}

/// What found no memory is dropped, and the refusal is 26.
impl<T: Drop> From<AllocFailed<T>> for CataFault {
    ghost from_gives = { λ _ fault. fault ≡ NoMemory };

    fn from(_failed: AllocFailed<T>) -> CataFault {
        CataFault::NoMemory
    }
}
