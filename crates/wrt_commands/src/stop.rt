//! Why a run has no report.

ghost use Rattle.std.specs.Prelude.{◌≡◌, Some};
ghost use Rattle.wrt_commands.specs.Stops.{status_of_stop, stop_of_value, text_of_stop};
ghost use Rattle.wrt_commands.specs.declared.stop.Stop.TheVariants as stops;

use crate::refusal::Refusal;
use crate::status::Status;
use std::alloc::AllocError;
use std::fmt;
use wrt_values::ValueFault;

/// Why a run has no report: for what it was asked, or for what happened to it.
#[derive(Clone, Copy, Debug, PartialEq, Eq)]
pub enum Stop {
    /// The words and the input come to this refusal.
    Refused(Refusal),
    /// A read failed.
    ReadFault,
    /// Memory ran out.
    Memory,
}

impl Stop {
    /// The status with which the run ends.
    pub fn status(&self) -> Status
        ensures { result ≡ status_of_stop self.now }
    {
        match self {
            Stop::Refused(refusal) => refusal.status(),
            Stop::ReadFault => Status::ReadFault,
            Stop::Memory => Status::Memory,
        }
    }
}

/// The fault line, without the program's name before it.
impl fmt::Display for Stop {
    ghost output = { λ stop. Some (text_of_stop stop) };

    fn fmt<W: fmt::Write>(&self, f: &mut fmt::Formatter<W>) -> fmt::Result {
        match self {
            Stop::Refused(refusal) => write!(f, "{refusal}"),
            Stop::ReadFault => write!(f, "read failed"),
            Stop::Memory => write!(f, "out of memory"),
        }
    }
}

impl From<Refusal> for Stop {
    ghost from_gives = { λ refusal stop. stop ≡ stops.Refused refusal };

    fn from(refusal: Refusal) -> Stop {
        Stop::Refused(refusal)
    }
}

impl From<ValueFault> for Stop {
    ghost from_gives = { λ fault stop. stop ≡ stop_of_value fault };

    fn from(fault: ValueFault) -> Stop {
        match fault {
            ValueFault::Refused(refusal) => Stop::Refused(Refusal::Value(refusal)),
            ValueFault::Memory => Stop::Memory,
        }
    }
}

impl From<AllocError> for Stop {
    ghost from_gives = { λ _ stop. stop ≡ stops.Memory };

    fn from(_error: AllocError) -> Stop {
        Stop::Memory
    }
}
