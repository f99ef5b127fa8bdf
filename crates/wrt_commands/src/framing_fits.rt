//! Framings that fit a diagram.

ghost use Rattle.wrt_commands.specs.FramingFits.{fit_framings};
ghost use Rattle.wrt_commands.specs.Stops.{Answers, Is};

use crate::arguments_refusal::ArgumentsRefusal;
use crate::refusal::Refusal;
use crate::stop::Stop;
use planar_check::{Framed, FramedFault, Planar};
use std::alloc::Global;

/// The diagram with these framings: the list has one for each component, none past 2^60 in size.
pub(crate) fn fit_framings(alloc: Global, plane: Planar, framings: &[i64]) -> Result<Framed, Stop>
    ensures { Answers (Is (fit_framings plane framings.now)) (λ framed. framed) result }
{
    match Framed::new(alloc, plane, framings) {
        Ok(framed) => Ok(framed),
        Err(FramedFault::Count { given, wanted }) => Err(Stop::Refused(Refusal::Arguments(
            ArgumentsRefusal::FramingCount { given, wanted },
        ))),
        Err(FramedFault::Size { component }) => Err(Stop::Refused(Refusal::Arguments(
            ArgumentsRefusal::FramingSize { component },
        ))),
        Err(FramedFault::Memory) => Err(Stop::Memory),
    }
}
