//! Why entries are no matrix, and where an elimination stops.

use std::alloc::{AllocError, AllocFailed};

/// Why entries are no symmetric matrix.
#[derive(Clone, Copy, Debug, PartialEq, Eq)]
pub enum MatrixFault {
    /// There are `given` entries and not `wanted`, which is size times size.
    Size { given: usize, wanted: usize },
    /// The entry at this place isn't the one with row and column exchanged. It is the first such place
    /// by rows, counted from 0: row 0 and column 1 for the rows 0, 1 and 2, 0.
    NotSymmetric { row: u32, column: u32 },
    /// Memory ran out.
    Memory,
}

impl From<AllocError> for MatrixFault {
    ghost use Rattle.std.specs.Prelude.{◌≡◌};
    ghost use Rattle.inertia_cert.specs.declared.fault.MatrixFault.TheVariants.{Memory};

    ghost from_gives = { λ _ fault. fault ≡ Memory };

    fn from(_error: AllocError) -> MatrixFault {
        MatrixFault::Memory
    }
}

/// Why no certificate of inertia was made.
#[derive(Clone, Copy, Debug, PartialEq, Eq)]
pub enum InertiaFault {
    /// The elimination forms a number past 2^127 - 1 in size, first in this step, counted from 1.
    Range { step: u32 },
    /// Memory ran out.
    Memory,
}

/// A number that a check forms is past 2^127 - 1 in size.
#[derive(Clone, Copy, Debug, PartialEq, Eq)]
pub struct OutOfBits;

/// Why entries could not be formed.
#[derive(Clone, Copy, Debug, PartialEq, Eq)]
pub(crate) enum FormFault {
    /// A number that they form is past 2^127 - 1 in size.
    OutOfBits,
    /// Memory ran out.
    Memory,
}

impl From<AllocError> for FormFault {
    ghost use Rattle.std.specs.Prelude.{◌≡◌};
    ghost use Rattle.inertia_cert.specs.declared.fault.FormFault.TheVariants.{Memory};

    ghost from_gives = { λ _ fault. fault ≡ Memory };

    fn from(_error: AllocError) -> FormFault {
        FormFault::Memory
    }
}

impl<T: Drop> From<AllocFailed<T>> for FormFault {
    ghost use Rattle.std.specs.Prelude.{◌≡◌};
    ghost use Rattle.inertia_cert.specs.declared.fault.FormFault.TheVariants.{Memory};

    ghost from_gives = { λ _ fault. fault ≡ Memory };

    fn from(_error: AllocFailed<T>) -> FormFault {
        FormFault::Memory
    }
}
