//! The statuses of refused scripts: a step that can't be made, or a diagram without a value.

ghost use Rattle.std.specs.Prelude.{◌≡◌};
ghost use Rattle.wrt_commands.specs.ScriptRefusals.{status_of_step, status_of_script, stop_of_script};

use crate::refusal::Refusal;
use crate::status::Status;
use crate::stop::Stop;
use crate::value_refusal::value_status;
use script_values::{ScriptFault, ScriptRefusal, StepRefusal};

/// The status that a refused step ends with.
fn step_status(refusal: &StepRefusal) -> Status
    ensures { result ≡ status_of_step refusal.now }
{
    match refusal {
        StepRefusal::TooMany { .. } => Status::Limit,
        _ => Status::Input,
    }
}

/// The status that a refused script ends with.
pub(crate) fn script_status(refusal: &ScriptRefusal) -> Status
    ensures { result ≡ status_of_script refusal.now }
{
    match refusal {
        ScriptRefusal::Step { reason, .. } => step_status(reason),
        ScriptRefusal::Line { reason, .. } => value_status(reason),
    }
}

impl From<ScriptFault> for Stop {
    ghost from_gives = { λ fault stop. stop ≡ stop_of_script fault };

    fn from(fault: ScriptFault) -> Stop {
        match fault {
            ScriptFault::Refused(refusal) => Stop::Refused(Refusal::Script(refusal)),
            ScriptFault::Memory => Stop::Memory,
        }
    }
}
