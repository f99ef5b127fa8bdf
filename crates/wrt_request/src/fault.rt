//! Why the parts of a command line ask for nothing.

ghost use Rattle.std.specs.Prelude.{◌≡◌};
ghost use Rattle.wrt_request.specs.declared.fault.PartsFault.TheVariants.{Refused, Memory};

use crate::option_name::OptionName;
use std::alloc::{AllocError, AllocFailed};

/// Why the parts of a command line ask for nothing: the first reason that holds, in this order.
#[derive(Clone, Copy, Debug, PartialEq, Eq)]
pub enum PartsRefusal {
    /// The command is none of the program's.
    UnknownCommand,
    /// The command takes so many numbers, and there are more or fewer.
    Takes { numbers: u32 },
    /// The number at this position, from 1, isn't one in decimal below 2^64.
    Number { position: u32 },
    /// The option doesn't belong to the command.
    Option { option: OptionName },
    /// The value of the option is neither one of its words nor a list.
    List { option: OptionName },
    /// The workers aren't 1 to 64.
    Workers,
    /// The crossings aren't 1 to 256.
    Crossings,
    /// `moves` has both `--colors` and `--framing`.
    ColorsAndFraming,
}

/// Why there is no request: the parts are refused, or memory ran out.
#[derive(Clone, Copy, Debug, PartialEq, Eq)]
pub enum PartsFault {
    /// The parts ask for nothing, for this reason.
    Refused(PartsRefusal),
    /// Memory ran out.
    Memory,
}

impl From<PartsRefusal> for PartsFault {
    ghost from_gives = { λ refusal e. e ≡ Refused refusal };

    fn from(refusal: PartsRefusal) -> PartsFault {
        PartsFault::Refused(refusal)
    }
}

impl From<AllocError> for PartsFault {
    ghost from_gives = { λ _ e. e ≡ Memory };

    fn from(_error: AllocError) -> PartsFault {
        PartsFault::Memory
    }
}

impl<T: Drop> From<AllocFailed<T>> for PartsFault {
    ghost from_gives = { λ _ e. e ≡ Memory };

    fn from(_error: AllocFailed<T>) -> PartsFault {
        PartsFault::Memory
    }
}
