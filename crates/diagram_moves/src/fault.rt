//! Why a step is refused.

ghost use Rattle.std.specs.Prelude.{◌≡◌};
ghost use Rattle.diagram_moves.specs.declared.fault.MoveFault.TheVariants.{Memory};
ghost use Rattle.diagram_moves.specs.Steps.{of_plane};

use planar_check::PlanarFault;
use std::alloc::{AllocError, AllocFailed};

/// Why a step is refused.
#[derive(Clone, Copy, Debug, PartialEq, Eq)]
pub enum MoveFault {
    /// The label is not in the diagram.
    NoEdge { edge: u32 },
    /// There is no crossing with this number.
    NoCrossing { crossing: u32 },
    /// Both edges are one.
    SameEdge,
    /// The label is a loop's.
    LoopEdge { edge: u32 },
    /// No face has a place of both edges.
    NotSameFace,
    /// No face has exactly two places, one at each crossing, with one edge over at both and the other under.
    NotBigon,
    /// No face has exactly three places, one at each crossing, with an edge that is over at both of its places.
    NotTriangle,
    /// No label stands at two neighbouring slots of the crossing.
    NotCurl,
    /// The result has more items than `limit`, which is `MOST_ITEMS`.
    TooMany { limit: u32 },
    /// The result has this many faces, and a planar one would have `wanted`.
    NotPlanar { faces: u32, wanted: u32 },
    /// The box of this component, of a coloured diagram, lies inside the move.
    AnchorInside { component: u32 },
    /// Memory ran out.
    Memory,
}

impl From<AllocError> for MoveFault {
    ghost from_gives = { λ _ e. e ≡ Memory };

    fn from(_error: AllocError) -> MoveFault {
        MoveFault::Memory
    }
}

impl<T: Drop> From<AllocFailed<T>> for MoveFault {
    ghost from_gives = { λ _ e. e ≡ Memory };

    fn from(_error: AllocFailed<T>) -> MoveFault {
        MoveFault::Memory
    }
}

impl From<PlanarFault> for MoveFault {
    ghost from_gives = { λ fault e. e ≡ of_plane fault };

    fn from(fault: PlanarFault) -> MoveFault {
        match fault {
            PlanarFault::NotPlanar { faces, wanted } => MoveFault::NotPlanar { faces, wanted },
            PlanarFault::Memory => MoveFault::Memory,
        }
    }
}
