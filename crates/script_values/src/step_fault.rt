//! Why a step is not made.

ghost use Rattle.std.specs.Prelude.{◌≡◌};
ghost use Rattle.script_values.specs.Refusals.{fault_of_move, fault_of_slide};

use crate::step_refusal::StepRefusal;
use diagram_moves::MoveFault;
use slide_laws::SlideFault;

/// Why a step is not made: it is refused, or memory ran out.
#[derive(Clone, Copy, Debug, PartialEq, Eq)]
pub enum StepFault {
    /// It is refused for this reason.
    Refused(StepRefusal),
    /// Memory ran out.
    Memory,
}

impl From<MoveFault> for StepFault {
    ghost from_gives = { λ fault told. told ≡ fault_of_move fault };

    fn from(fault: MoveFault) -> StepFault {
        StepFault::Refused(match fault {
            MoveFault::NoEdge { edge } => StepRefusal::NoEdge { edge },
            MoveFault::NoCrossing { crossing } => StepRefusal::NoCrossing { crossing },
            MoveFault::SameEdge => StepRefusal::SameEdge,
            MoveFault::LoopEdge { edge } => StepRefusal::LoopEdge { edge },
            MoveFault::NotSameFace => StepRefusal::NotSameFace,
            MoveFault::NotBigon => StepRefusal::NotBigon,
            MoveFault::NotTriangle => StepRefusal::NotTriangle,
            MoveFault::NotCurl => StepRefusal::NotCurl,
            MoveFault::TooMany { limit } => StepRefusal::TooMany { limit },
            MoveFault::NotPlanar { faces, wanted } => StepRefusal::NotPlanar { faces, wanted },
            MoveFault::AnchorInside { component } => StepRefusal::AnchorInside { component },
            MoveFault::Memory => return StepFault::Memory,
        })
    }
}

impl From<SlideFault> for StepFault {
    ghost from_gives = { λ fault told. told ≡ fault_of_slide fault };

    fn from(fault: SlideFault) -> StepFault {
        StepFault::Refused(match fault {
            SlideFault::NoEdge { edge } => StepRefusal::NoEdge { edge },
            SlideFault::LoopEdge { edge } => StepRefusal::LoopEdge { edge },
            SlideFault::SameComponent => StepRefusal::SameComponent,
            SlideFault::OddSigns { first, second } => StepRefusal::OddSigns { first, second },
            SlideFault::TooMany { limit } => StepRefusal::TooMany { limit },
            SlideFault::NotSameFace => StepRefusal::NotSameFace,
            SlideFault::FramingSize { component } => StepRefusal::FramingSize { component },
            SlideFault::NotPlanar { faces, wanted } => StepRefusal::NotPlanar { faces, wanted },
            SlideFault::Memory => return StepFault::Memory,
        })
    }
}
