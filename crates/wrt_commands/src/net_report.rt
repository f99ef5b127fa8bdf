//! The report of a net whose labels have colours.

ghost use Rattle.std.specs.Prelude.{◌≡◌, None, OnOk, string_bytes};
ghost use Rattle.root_quantum.specs.Parameters.{top_colour};
ghost use Rattle.skein_network.specs.Refusals.{net_refusal};
ghost use Rattle.wrt_commands.specs.NetReports.{fit_labels, fitted_net_report, net_report, planar_net};
ghost use Rattle.wrt_commands.specs.Stops.{Answers, Is};

use crate::diagram_report::value_report;
use crate::item_order::net_chooser;
use crate::plane_refusal::PlaneRefusal;
use crate::refusal::Refusal;
use crate::stop::Stop;
use pd_reader::NetDiagram;
use planar_check::{PlanarFault, PlanarNet, check_net};
use root_quantum::Params;
use skein_network::check_net_colours;
use std::alloc::Global;
use wrt_request::Sweep;
use wrt_values::net_value;

/// The net, planar, or how many faces it has.
fn check_planar_net(alloc: Global, net: NetDiagram) -> Result<PlanarNet, Stop>
    ensures { Answers (Is (planar_net net)) (λ plane. plane) result }
{
    match check_net(alloc, net) {
        Ok(plane) => Ok(plane),
        Err(PlanarFault::NotPlanar { faces, wanted }) => Err(Stop::Refused(Refusal::Plane(
            PlaneRefusal { faces, wanted },
        ))),
        Err(PlanarFault::Memory) => Err(Stop::Memory),
    }
}

/// Whether the list has a colour for each label of the net, none above the top colour, that fits its items.
fn fit_labels(alloc: Global, params: &Params, net: &PlanarNet, colours: &[u32]) -> Result<(), Stop>
    ensures answer { Answers (Is (fit_labels params.now net.now colours.now)) (λ fit. fit) result }
    ensures fits { OnOk result (net_refusal (top_colour params.now) net.now colours.now ≡ None) }
{
    check_net_colours(alloc, net, colours, params.top_colour())?;
    Ok(())
}

/// The report of a planar net whose colours fit.
fn fitted_net_report(
    alloc: Global,
    params: &Params,
    sweep: &Sweep,
    colours: &[u32],
    plane: &PlanarNet,
) -> Result<String, Stop>
    requires { net_refusal (top_colour params.now) plane.now colours.now ≡ None }
    ensures { Answers (Is (fitted_net_report params.now sweep.now colours.now plane.now)) string_bytes result }
{
    let chooser = net_chooser(alloc, &sweep.order, plane.net().items())?;
    let value = net_value(alloc, params, plane, colours, &chooser)?;
    Ok(value_report(alloc, value, sweep.turns)?)
}

/// The report of the net, whose labels have these colours, where they fit.
pub(crate) fn net_report(
    alloc: Global,
    params: &Params,
    sweep: &Sweep,
    colours: &[u32],
    net: NetDiagram,
) -> Result<String, Stop>
    ensures { Answers (Is (net_report params.now sweep.now colours.now net)) string_bytes result }
{
    let plane = check_planar_net(alloc, net)?;
    fit_labels(alloc, params, &plane, colours)?;
    fitted_net_report(alloc, params, sweep, colours, &plane)
}
