//! Why a script has no values.

ghost use Rattle.std.specs.Prelude.{◌≡◌, Some};
ghost use Rattle.script_values.specs.Refusals.{fault_at_line, fault_of_step, text_of_script};
ghost use Rattle.script_values.specs.declared.fault.ScriptFault.TheVariants as faults;

use crate::step_fault::StepFault;
use crate::step_refusal::StepRefusal;
use std::alloc::{AllocError, AllocFailed};
use std::fmt;
use wrt_values::{ValueFault, ValueRefusal};

/// Why a script has no values: the first step that is refused, or else the first diagram without a value.
#[derive(Clone, Copy, Debug, PartialEq, Eq)]
pub enum ScriptRefusal {
    /// The step with this number, from 1, is refused.
    Step { step: u32, reason: StepRefusal },
    /// The diagram with this number, from 0 for the first one, has no value.
    Line { line: u32, reason: ValueRefusal },
}

impl fmt::Display for ScriptRefusal {
    ghost output = { λ refusal. Some (text_of_script refusal) };

    fn fmt<W: fmt::Write>(&self, f: &mut fmt::Formatter<W>) -> fmt::Result {
        match self {
            ScriptRefusal::Step { step, reason } => write!(f, "step {step}: {reason}"),
            ScriptRefusal::Line { line, reason } => write!(f, "line {line}: {reason}"),
        }
    }
}

/// Why there are no values: the script is refused, or memory ran out.
#[derive(Clone, Copy, Debug, PartialEq, Eq)]
pub enum ScriptFault {
    /// It is refused for this reason.
    Refused(ScriptRefusal),
    /// Memory ran out.
    Memory,
}

impl ScriptFault {
    /// The fault of a script, for this one of a step.
    pub(crate) fn of_step(step: u32, fault: StepFault) -> ScriptFault
        ensures { result ≡ fault_of_step step fault }
    {
        match fault {
            StepFault::Refused(reason) => {
                ScriptFault::Refused(ScriptRefusal::Step { step, reason })
            }
            StepFault::Memory => ScriptFault::Memory,
        }
    }

    /// The fault of a script, for this one of a diagram's value.
    pub(crate) fn at_line(line: u32, fault: ValueFault) -> ScriptFault
        ensures { result ≡ fault_at_line line fault }
    {
        match fault {
            ValueFault::Refused(reason) => {
                ScriptFault::Refused(ScriptRefusal::Line { line, reason })
            }
            ValueFault::Memory => ScriptFault::Memory,
        }
    }
}

impl From<AllocError> for ScriptFault {
    ghost from_gives = { λ _ fault. fault ≡ faults.Memory };

    fn from(_error: AllocError) -> ScriptFault {
        ScriptFault::Memory
    }
}

impl<T: Drop> From<AllocFailed<T>> for ScriptFault {
    ghost from_gives = { λ _ fault. fault ≡ faults.Memory };

    fn from(_error: AllocFailed<T>) -> ScriptFault {
        ScriptFault::Memory
    }
}
