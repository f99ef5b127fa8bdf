//! Why a list is no pairing, and why parts make no node and no network.

ghost use Rattle.std.specs.Prelude.{◌≡◌};

use std::alloc::{AllocError, AllocFailed};

/// Why a list of partners is no pairing.
#[derive(Clone, Copy, Debug, PartialEq, Eq)]
pub enum PairingFault {
    /// There are `given` points, which is more than 24.
    Long { given: usize },
    /// This point's partner is out of range, is the point itself, or doesn't name it back. It is the
    /// first such point, counted from 0: 2 for `[1, 0, 3]`.
    NotPairing { at: u8 },
}

/// Why ends and terms make no node.
#[derive(Clone, Copy, Debug, PartialEq, Eq)]
pub enum NodeFault {
    /// There are `given` ends, which is more than 24.
    Long { given: usize },
    /// There are more terms than `limit`, which is 1,048,576.
    TooMany { limit: u32 },
    /// This term's pairing hasn't as many points as there are ends. It is the first such term,
    /// counted from 0.
    Ends { term: u32 },
    /// Memory ran out.
    Memory,
}

impl From<AllocError> for NodeFault {
    ghost use Rattle.arc_pairing.specs.declared.fault.NodeFault.TheVariants.{Memory};

    ghost from_gives = { λ _ fault. fault ≡ Memory };

    fn from(_error: AllocError) -> NodeFault {
        NodeFault::Memory
    }
}

impl<T: Drop> From<AllocFailed<T>> for NodeFault {
    ghost use Rattle.arc_pairing.specs.declared.fault.NodeFault.TheVariants.{Memory};

    ghost from_gives = { λ _ fault. fault ≡ Memory };

    fn from(_error: AllocFailed<T>) -> NodeFault {
        NodeFault::Memory
    }
}

/// Why nodes make no network.
#[derive(Clone, Copy, Debug, PartialEq, Eq)]
pub enum NetworkFault {
    /// There are more nodes than `limit`, which is 65,536.
    TooMany { limit: u32 },
    /// This name stands `count` times over all nodes, and not twice. It is the least of these.
    Name { name: u32, count: u32 },
    /// Memory ran out.
    Memory,
}

impl From<AllocError> for NetworkFault {
    ghost use Rattle.arc_pairing.specs.declared.fault.NetworkFault.TheVariants.{Memory};

    ghost from_gives = { λ _ fault. fault ≡ Memory };

    fn from(_error: AllocError) -> NetworkFault {
        NetworkFault::Memory
    }
}

impl<T: Drop> From<AllocFailed<T>> for NetworkFault {
    ghost use Rattle.arc_pairing.specs.declared.fault.NetworkFault.TheVariants.{Memory};

    ghost from_gives = { λ _ fault. fault ≡ Memory };

    fn from(_error: AllocFailed<T>) -> NetworkFault {
        NetworkFault::Memory
    }
}
