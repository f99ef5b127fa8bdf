//! Why a text of tetrahedra has no sum.

ghost use Rattle.std.specs.Prelude.{◌≡◌};
ghost use Rattle.tetra_sum.specs.declared.fault.TetraFault.TheVariants as faults;

use std::alloc::AllocError;

/// Why a text of tetrahedra has no sum, in the order in which this is looked at; the last three but `Memory` in the order of the walk
/// over the admissible colourings. Colourings, steps, and faces among the faces of the text count from 1.
#[derive(Clone, Copy, Debug, PartialEq, Eq)]
pub enum TetraFault {
    /// So many labels have more than `limit` colourings, which is `MOST_COLOURINGS`.
    TooMany {
        labels: u32,
        limit: u32,
    },
    /// `Delta` of that index is the first that shares a factor with the modulus, and `common` the greatest one.
    NoInverse {
        index: u32,
        common: u64,
    },
    /// At that step of a net's sum so many names are open, more than 24.
    Wide {
        colouring: u64,
        step: u32,
        ends: u32,
    },
    /// At that step there are more than 262,144 pairings.
    Table {
        colouring: u64,
        step: u32,
    },
    /// The theta of that face shares the factor `common` with the modulus.
    Theta {
        colouring: u64,
        face: u32,
        common: u64,
    },
    /// Memory ran out.
    Memory,
}

impl From<AllocError> for TetraFault {
    ghost from_gives = { λ _ e. e ≡ faults.Memory };

    fn from(_error: AllocError) -> TetraFault {
        TetraFault::Memory
    }
}
