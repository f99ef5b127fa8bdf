//! The statuses of refused values: a quantity without an inverse, or a limit.

ghost use Rattle.std.specs.Prelude.{◌≡◌};
ghost use Rattle.wrt_commands.specs.ValueRefusals.{status_of_value};

use crate::status::Status;
use wrt_values::ValueRefusal;

/// The status that a refused value ends with.
pub(crate) fn value_status(refusal: &ValueRefusal) -> Status
    ensures { result ≡ status_of_value refusal.now }
{
    match refusal {
        ValueRefusal::NoInverse { .. } | ValueRefusal::NoOmegaInverse { .. } => Status::NoInverse,
        ValueRefusal::TooMany { .. }
        | ValueRefusal::Inertia { .. }
        | ValueRefusal::Wide { .. }
        | ValueRefusal::Table { .. } => Status::Limit,
    }
}
