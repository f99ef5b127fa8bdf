//! Why a diagram or a net is not planar, and why framings are not those of a diagram.

ghost use Rattle.std.specs.Prelude.{◌≡◌};
ghost use Rattle.planar_check.specs.declared.fault.PlanarFault.TheVariants.{Memory};

use std::alloc::AllocError;

/// Why a diagram or a net was not found planar.
#[derive(Clone, Copy, Debug, PartialEq, Eq)]
pub enum PlanarFault {
    /// It has this many faces, and a planar one would have `wanted`: E - N + 2k, for E edges between
    /// places, N crossings and vertices, and k connected pieces of these.
    NotPlanar { faces: u32, wanted: u32 },
    /// Memory ran out.
    Memory,
}

impl From<AllocError> for PlanarFault {
    ghost from_gives = { λ _ e. e ≡ Memory };

    fn from(_error: AllocError) -> PlanarFault {
        PlanarFault::Memory
    }
}

/// Why numbers are not the framings of a diagram's components.
#[derive(Clone, Copy, Debug, PartialEq, Eq)]
pub enum FramedFault {
    /// There are `given` framings and `wanted` components.
    Count { given: usize, wanted: u32 },
    /// The framing of this component, the first such one, is past 2^60 in size.
    Size { component: u32 },
    /// Memory ran out.
    Memory,
}

impl From<AllocError> for FramedFault {
    ghost use Rattle.planar_check.specs.declared.fault.FramedFault.TheVariants as framed;

    ghost from_gives = { λ _ fault. fault ≡ framed.Memory };

    fn from(_error: AllocError) -> FramedFault {
        FramedFault::Memory
    }
}
