//! Why a handle slide is refused.

ghost use Rattle.std.specs.Prelude.{◌≡◌};
ghost use Rattle.slide_laws.specs.declared.fault.SlideFault.TheVariants.{Memory};
ghost use Rattle.slide_laws.specs.Refusals.{of_plane};

use planar_check::PlanarFault;
use std::alloc::{AllocError, AllocFailed};

/// Why an edge is not slid along another.
#[derive(Clone, Copy, Debug, PartialEq, Eq)]
pub enum SlideFault {
    /// The label is not in the diagram.
    NoEdge { edge: u32 },
    /// The label is a loop's.
    LoopEdge { edge: u32 },
    /// Both edges are on one component.
    SameComponent,
    /// The sum of the signs between these two components, numbered from 1, is odd. They are the first such pair.
    OddSigns { first: u32, second: u32 },
    /// The result has more items than `limit`, which is `MOST_ITEMS`.
    TooMany { limit: u32 },
    /// No face has a place of both edges.
    NotSameFace,
    /// The new framing of this component is past 2^60 in size.
    FramingSize { component: u32 },
    /// The result has this many faces, and a planar one would have `wanted`.
    NotPlanar { faces: u32, wanted: u32 },
    /// Memory ran out.
    Memory,
}

impl From<AllocError> for SlideFault {
    ghost from_gives = { λ _ e. e ≡ Memory };

    fn from(_error: AllocError) -> SlideFault {
        SlideFault::Memory
    }
}

impl<T: Drop> From<AllocFailed<T>> for SlideFault {
    ghost from_gives = { λ _ e. e ≡ Memory };

    fn from(_error: AllocFailed<T>) -> SlideFault {
        SlideFault::Memory
    }
}

impl From<PlanarFault> for SlideFault {
    ghost from_gives = { λ fault e. e ≡ of_plane fault };

    fn from(fault: PlanarFault) -> SlideFault {
        match fault {
            PlanarFault::NotPlanar { faces, wanted } => SlideFault::NotPlanar { faces, wanted },
            PlanarFault::Memory => SlideFault::Memory,
        }
    }
}
