//! Why a run is refused.

ghost use Rattle.std.specs.Prelude.{◌≡◌};
ghost use Rattle.cata_core.specs.declared.play_fault.PlayFault.TheVariants.{NoMemory};

use cell_core::Stamp;
use std::alloc::{AllocError, AllocFailed};
use thiserror::Error;

/// Why a run is refused: by its first faulty step, or since memory ran out.
#[derive(Clone, Copy, Debug, PartialEq, Eq, Error)]
pub enum PlayFault {
    /// 13: one stamp of one key would have two labels; the place is that of the key in the
    /// receiving site.
    #[error("stamp {} {} {} used twice, cell {place}, step {step}", .stamp.time, .stamp.site.as_str(), .stamp.count)]
    StampReused {
        step: usize,
        place: u128,
        stamp: Stamp,
    },
    /// 16: the step names a site that is not there.
    #[error("step {step} names no site")]
    NoSuchSite {
        step: usize,
    },
    /// 17: the step names a summary that was not told, or a post that was not made.
    #[error("step {step} names no post")]
    NoSuchPost {
        step: usize,
    },
    /// 26: an allocation was refused.
    #[error("out of memory")]
    NoMemory,
}

impl PlayFault {
    ghost use Rattle.cata_core.specs.PlayFault.{number_of};

    /// The number of the refusal among all refusals.
    pub fn number(&self) -> u8
        ensures { result ≡ number_of self.now }
    {
        match self {
            PlayFault::StampReused { .. } => 13,
            PlayFault::NoSuchSite { .. } => 16,
            PlayFault::NoSuchPost { .. } => 17,
            PlayFault::NoMemory => 26,
        }
    }
}

/// Out of memory is refusal 26.
impl From<AllocError> for PlayFault {
    ghost from_gives = { λ _ e. e ≡ NoMemory };

    fn from(_refused: AllocError) -> PlayFault {
        PlayFault::NoMemory
    }
}

/// What found no memory is dropped, and the refusal is 26.
impl<T: Drop> From<AllocFailed<T>> for PlayFault {
    ghost from_gives = { λ _ e. e ≡ NoMemory };

    fn from(_refused: AllocFailed<T>) -> PlayFault {
        PlayFault::NoMemory
    }
}
