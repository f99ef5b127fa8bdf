//! The report of a diagram whose components have colours.

ghost use Rattle.std.specs.Prelude.{◌≡◌, None, length, string_bytes};
ghost use Rattle.root_quantum.specs.Parameters.{top_colour};
ghost use Rattle.planar_check.specs.Components.{least_labels};
ghost use Rattle.skein_network.specs.Refusals.{colour_refusal};
ghost use Rattle.wrt_commands.specs.ColouredReports.{coloured_report, fitted_report};
ghost use Rattle.wrt_commands.specs.Stops.{Answers, Is};

use crate::colour_fits::fit_components;
use crate::diagram_report::{check_planar, value_report};
use crate::item_order::item_chooser;
use crate::stop::Stop;
use pd_reader::Diagram;
use planar_check::Planar;
use root_quantum::Params;
use std::alloc::Global;
use wrt_request::Sweep;
use wrt_values::coloured_value;

/// The report of a planar diagram whose colours fit.
fn fitted_report(
    alloc: Global,
    params: &Params,
    sweep: &Sweep,
    colours: &[u32],
    plane: &Planar,
) -> Result<String, Stop>
    requires { colour_refusal (top_colour params.now) (length (least_labels plane.now)) colours.now ≡ None }
    ensures { Answers (Is (fitted_report params.now sweep.now colours.now plane.now)) string_bytes result }
{
    let chooser = item_chooser(alloc, &sweep.order, plane.diagram().items())?;
    let value = coloured_value(alloc, params, plane, colours, &chooser)?;
    Ok(value_report(alloc, value, sweep.turns)?)
}

/// The report of the diagram, whose components have these colours, where they fit.
pub(crate) fn coloured_report(
    alloc: Global,
    params: &Params,
    sweep: &Sweep,
    colours: &[u32],
    diagram: Diagram,
) -> Result<String, Stop>
    ensures { Answers (Is (coloured_report params.now sweep.now colours.now diagram)) string_bytes result }
{
    let plane = check_planar(alloc, diagram)?;
    fit_components(params, &plane, colours)?;
    fitted_report(alloc, params, sweep, colours, &plane)
}
