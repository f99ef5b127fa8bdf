//! The value of a diagram whose components have colours.

ghost use Rattle.std.specs.Prelude.{◌≡◌, None, Ok, IfOk, IfErr, OnOk, length};
ghost use Rattle.state_sums.specs.Networks.{WeightsBelow};
ghost use Rattle.root_quantum.specs.Parameters.{top_colour};
ghost use Rattle.planar_check.specs.Components.{greatest, least_labels};
ghost use Rattle.coloured_values.specs.Coloured.{cabled};
ghost use Rattle.frontier_sweep.specs.Next.{next_of};
ghost use Rattle.skein_network.specs.Refusals.{colour_refusal};
ghost use Rattle.wrt_values.specs.Coloured.{coloured_value};
ghost use Rattle.wrt_values.specs.Inverses.{inverses};
ghost use Rattle.wrt_values.specs.Values.{Fails, Gives};

use crate::fault::{ValueFault, ValueRefusal};
use crate::sweep::network_value;
use crate::value::Value;
use arc_pairing::Network;
use frontier_sweep::{Chooser, Order};
use planar_check::Planar;
use root_quantum::Params;
use skein_network::{CableFault, cable};
use std::alloc::Global;
use wenzl_table::Table;

/// The cable of the diagram, whose components have these colours.
fn cabled(
    alloc: Global,
    params: &Params,
    diagram: &Planar,
    colours: &[u32],
) -> Result<Network, ValueFault>
    requires { colour_refusal (top_colour params.now) (length (least_labels diagram.now)) colours.now ≡ None }
    ensures network { IfOk result (λ network. network ≡ cabled params.now diagram.now colours.now) }
    ensures weights { IfOk result (λ network. WeightsBelow params.now.modulus network.nodes) }
    ensures inverses { OnOk result (inverses params.now (greatest colours.now) ≡ Ok tt) }
    ensures refused { IfErr result (λ fault. Fails (inverses params.now (greatest colours.now)) fault) }
{
    let table = Table::new(alloc, *params, params.top_colour())?;
    let mut notes = table.notes(alloc)?;
    match cable(alloc, diagram, colours, &table, &mut notes) {
        Ok(network) => Ok(network),
        Err(CableFault::NoInverse { index, common }) => Err(ValueFault::Refused(
            ValueRefusal::NoInverse { index, common },
        )),
        Err(CableFault::Memory) => Err(ValueFault::Memory),
        Err(_) => unreachable!(),
    }
}

/// The value of the diagram with these colours, one for each component, in their order, and with the framing that it
/// is drawn with, and the turns that the sum takes when the crossings are taken in the order.
///
/// The colours fit: there are as many as components, and none is above the top colour. There is one colouring, so its number
/// is 1. `NoInverse` comes before the limits. (Lickorish, chapter 13; orders and turns are this project's own.)
pub fn coloured_value(
    alloc: Global,
    params: &Params,
    diagram: &Planar,
    colours: &[u32],
    order: &Chooser<Order>,
) -> Result<Value, ValueFault>
    requires { colour_refusal (top_colour params.now) (length (least_labels diagram.now)) colours.now ≡ None }

    // The definition's value, or its refusal, or want of memory.
    ensures { Gives (coloured_value (next_of order.now) params.now diagram.now colours.now) result }
{
    let network = cabled(alloc, params, diagram, colours)?;
    network_value(alloc, params, &network, order, 1)
}
