//! Why there is no cable.

use std::alloc::{AllocError, AllocFailed};
use wenzl_table::WenzlFault;

/// Why there is no cable: the first reason that holds, in this order.
#[derive(Clone, Copy, Debug, PartialEq, Eq)]
pub enum CableFault {
    /// So many colours were given, where as many are wanted as there are components, or labels of a net.
    ColourCount { given: usize, wanted: u32 },
    /// The first colour of the list that is past the table's top.
    ColourTooLarge { colour: u32, limit: u32 },
    /// A crossing of a net changes the colour of a strand: the label at its third slot or, where that has the colour of the
    /// first, at its fourth; at the first such crossing.
    Unequal { edge: u32 },
    /// The colours at a vertex aren't admissible: the first such vertex, numbered from 1 among the vertices.
    NotAdmissible { vertex: u32 },
    /// There is no projector of the greatest colour: `Delta_index` shares the factor `common` with the modulus.
    NoInverse { index: u32, common: u64 },
    /// Memory ran out.
    Memory,
}

impl From<AllocError> for CableFault {
    ghost use Rattle.std.specs.Prelude.{◌≡◌};
    ghost use Rattle.skein_network.specs.declared.fault.CableFault.TheVariants as faults;

    ghost from_gives = { λ _ fault. fault ≡ faults.Memory };

    fn from(_error: AllocError) -> CableFault {
        CableFault::Memory
    }
}

impl<T: Drop> From<AllocFailed<T>> for CableFault {
    ghost use Rattle.std.specs.Prelude.{◌≡◌};
    ghost use Rattle.skein_network.specs.declared.fault.CableFault.TheVariants as faults;

    ghost from_gives = { λ _ fault. fault ≡ faults.Memory };

    fn from(_failed: AllocFailed<T>) -> CableFault {
        CableFault::Memory
    }
}

impl From<WenzlFault> for CableFault {
    ghost use Rattle.std.specs.Prelude.{◌≡◌};
    ghost use Rattle.skein_network.specs.Faults.{of_projector};

    ghost from_gives = { λ fault cable_fault. cable_fault ≡ of_projector fault };

    fn from(fault: WenzlFault) -> CableFault {
        match fault {
            WenzlFault::NoInverse { index, common } => CableFault::NoInverse { index, common },
            WenzlFault::Memory => CableFault::Memory,
        }
    }
}
