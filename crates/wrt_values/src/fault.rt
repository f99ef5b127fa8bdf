//! Why a diagram has no value.

ghost use Rattle.std.specs.Prelude.{◌≡◌, Some};
ghost use Rattle.wrt_values.specs.Refusals.{text_of_refusal, text_of_step};
ghost use Rattle.wrt_values.specs.declared.fault.ValueFault.TheVariants.{Memory};

use planar_check::Sign;
use std::alloc::AllocError;
use std::fmt;

/// A step of the sweep for a colouring, each numbered from 1.
#[derive(Clone, Copy, Debug, PartialEq, Eq)]
pub struct SweepStep {
    /// The number of the colouring.
    pub colouring: u64,
    /// The number of the step: of nodes that are taken.
    pub step: u32,
}

impl fmt::Display for SweepStep {
    ghost output = { λ step. Some (text_of_step step) };

    fn fmt<W: fmt::Write>(&self, f: &mut fmt::Formatter<W>) -> fmt::Result {
        let SweepStep { colouring, step } = *self;
        write!(f, "colouring {colouring}: step {step}")
    }
}

/// Why a diagram has no value: the first reason that holds, in this order.
#[derive(Clone, Copy, Debug, PartialEq, Eq)]
pub enum ValueRefusal {
    /// So many components give more than 65,536 colourings.
    TooMany { components: u32 },
    /// The elimination of the linking matrix forms a number past 2^127 - 1 in size, first in this step, counted from 1.
    Inertia { step: u32 },
    /// There is no projector of the greatest colour: `Delta_index` is the first that shares a factor with the modulus, and
    /// the greatest one is `common`.
    NoInverse { index: u32, common: u64 },
    /// So many names are open behind that step of the sweep: more than 24.
    Wide { step: SweepStep, ends: u32 },
    /// There are more than 262,144 pairings of the open names behind that step of the sweep.
    Table { step: SweepStep },
    /// The `Omega` of that sign is wanted, and shares the factor `common` with the modulus.
    NoOmegaInverse { sign: Sign, common: u64 },
}

impl fmt::Display for ValueRefusal {
    ghost output = { λ refusal. Some (text_of_refusal refusal) };

    fn fmt<W: fmt::Write>(&self, f: &mut fmt::Formatter<W>) -> fmt::Result {
        match self {
            ValueRefusal::TooMany { components } => {
                write!(f, "{components} components give more than 65536 colourings")
            }
            ValueRefusal::Inertia { step } => write!(f, "inertia leaves 128 bits at step {step}"),
            ValueRefusal::NoInverse { index, common } => {
                write!(
                    f,
                    "Delta {index} has the common factor {common} with the modulus"
                )
            }
            ValueRefusal::Wide { step, ends } => write!(f, "{step} has {ends} open ends"),
            ValueRefusal::Table { step } => write!(f, "{step} has more than 262144 pairings"),
            ValueRefusal::NoOmegaInverse { sign, common } => match sign {
                Sign::Plus => write!(f, "Omega + has the common factor {common} with the modulus"),
                Sign::Minus => write!(f, "Omega - has the common factor {common} with the modulus"),
            },
        }
    }
}

/// Why there is no value: it is refused, or memory ran out.
#[derive(Clone, Copy, Debug, PartialEq, Eq)]
pub enum ValueFault {
    /// It is refused for this reason.
    Refused(ValueRefusal),
    /// Memory ran out.
    Memory,
}

impl From<AllocError> for ValueFault {
    ghost from_gives = { λ _ fault. fault ≡ Memory };

    fn from(_error: AllocError) -> ValueFault {
        ValueFault::Memory
    }
}
