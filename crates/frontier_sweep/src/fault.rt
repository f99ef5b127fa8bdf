//! Why a contraction stops.

ghost use Rattle.std.specs.Prelude.{◌≡◌};
ghost use Rattle.frontier_sweep.specs.declared.fault.NotGlued.TheVariants.{Wide, Memory};

use arc_pairing::TooWide;
use std::alloc::{AllocError, AllocFailed};

/// Why a contraction stops. Steps are counted from 1.
#[derive(Clone, Copy, Debug, PartialEq, Eq)]
pub enum SweepFault {
    /// At that step so many names are open, more than 24, and no step before met a limit.
    Wide { step: u32, ends: u32 },
    /// At that step more than 262,144 different pairings of at most 24 open names arise, and no step before
    /// met a limit.
    Table { step: u32 },
    /// Want of memory.
    Memory,
}

/// Why a node was not glued to a table.
#[derive(Drop)]
pub(crate) enum NotGlued {
    /// So many names would be open, more than `MOST_POINTS`.
    Wide { ends: u32 },
    /// There would be one pairing more than `MOST_PAIRINGS`.
    Full,
    /// Want of memory.
    Memory,
}

impl From<TooWide> for NotGlued {
    ghost from_gives = { λ wide reason. reason ≡ Wide wide.ends };

    fn from(wide: TooWide) -> NotGlued {
        NotGlued::Wide { ends: wide.ends }
    }
}

impl From<AllocError> for NotGlued {
    ghost from_gives = { λ _ reason. reason ≡ Memory };

    fn from(_error: AllocError) -> NotGlued {
        NotGlued::Memory
    }
}

impl<T: Drop> From<AllocFailed<T>> for NotGlued {
    ghost from_gives = { λ _ reason. reason ≡ Memory };

    fn from(_error: AllocFailed<T>) -> NotGlued {
        NotGlued::Memory
    }
}
