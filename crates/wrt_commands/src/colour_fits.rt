//! Whether colours fit a diagram.

ghost use Rattle.std.specs.Prelude.{◌≡◌, None, OnOk, length};
ghost use Rattle.root_quantum.specs.Parameters.{top_colour};
ghost use Rattle.planar_check.specs.Components.{least_labels};
ghost use Rattle.skein_network.specs.Refusals.{colour_refusal};
ghost use Rattle.wrt_commands.specs.ColourFits.{fit_components, stop_of_cable};
ghost use Rattle.wrt_commands.specs.Stops.{Answers, Is};

use crate::arguments_refusal::ArgumentsRefusal;
use crate::refusal::Refusal;
use crate::stop::Stop;
use planar_check::Planar;
use root_quantum::Params;
use skein_network::{CableFault, check_colours};
use wrt_values::ValueRefusal;

impl From<CableFault> for Stop {
    ghost from_gives = { λ fault stop. stop ≡ stop_of_cable fault };

    fn from(fault: CableFault) -> Stop {
        Stop::Refused(match fault {
            CableFault::ColourCount { given, wanted } => {
                Refusal::Arguments(ArgumentsRefusal::ColourCount { given, wanted })
            }
            CableFault::ColourTooLarge { colour, limit } => {
                Refusal::Arguments(ArgumentsRefusal::ColourTooLarge { colour, limit })
            }
            CableFault::Unequal { edge } => {
                Refusal::Arguments(ArgumentsRefusal::Unequal { edge })
            }
            CableFault::NotAdmissible { vertex } => {
                Refusal::Arguments(ArgumentsRefusal::NotAdmissible { vertex })
            }
            CableFault::NoInverse { index, common } => {
                Refusal::Value(ValueRefusal::NoInverse { index, common })
            }
            CableFault::Memory => return Stop::Memory,
        })
    }
}

/// Whether the list has a colour for each component of the diagram, none above the top colour.
pub(crate) fn fit_components(params: &Params, diagram: &Planar, colours: &[u32]) -> Result<(), Stop>
    ensures answer { Answers (Is (fit_components params.now diagram.now colours.now)) (λ fit. fit) result }
    ensures fits { OnOk result (colour_refusal (top_colour params.now) (length (least_labels diagram.now)) colours.now ≡ None) }
{
    check_colours(colours, diagram.components(), params.top_colour())?;
    Ok(())
}
