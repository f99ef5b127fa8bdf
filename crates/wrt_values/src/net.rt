//! The value of a net whose edges have colours.

ghost use Rattle.std.specs.Prelude.{◌≡◌, None, Ok, IfOk, IfErr, OnOk};
ghost use Rattle.state_sums.specs.Networks.{WeightsBelow};
ghost use Rattle.root_quantum.specs.Parameters.{top_colour};
ghost use Rattle.planar_check.specs.Components.{greatest};
ghost use Rattle.cables.specs.Nets.{cabled_net};
ghost use Rattle.frontier_sweep.specs.Next.{next_of};
ghost use Rattle.skein_network.specs.Refusals.{net_colour, net_refusal};
ghost use Rattle.wrt_values.specs.Coloured.{net_value};
ghost use Rattle.wrt_values.specs.Inverses.{inverses};
ghost use Rattle.wrt_values.specs.Values.{Fails, Gives};

use crate::fault::{ValueFault, ValueRefusal};
use crate::sweep::network_value;
use crate::value::Value;
use arc_pairing::Network;
use frontier_sweep::{Chooser, Order};
use planar_check::PlanarNet;
use root_quantum::Params;
use skein_network::{CableFault, cable_net};
use std::alloc::Global;
use wenzl_table::Table;

/// The cable of the net, whose labels have these colours.
fn cabled_net(
    alloc: Global,
    params: &Params,
    net: &PlanarNet,
    colours: &[u32],
) -> Result<Network, ValueFault>
    requires { net_refusal (top_colour params.now) net.now colours.now ≡ None }
    ensures network { IfOk result (λ network. network ≡ cabled_net params.now net.now (net_colour net.now colours.now)) }
    ensures weights { IfOk result (λ network. WeightsBelow params.now.modulus network.nodes) }
    ensures inverses { OnOk result (inverses params.now (greatest colours.now) ≡ Ok tt) }
    ensures refused { IfErr result (λ fault. Fails (inverses params.now (greatest colours.now)) fault) }
{
    let table = Table::new(alloc, *params, params.top_colour())?;
    let mut notes = table.notes(alloc)?;
    match cable_net(alloc, net, colours, &table, &mut notes) {
        Ok(network) => Ok(network),
        Err(CableFault::NoInverse { index, common }) => Err(ValueFault::Refused(
            ValueRefusal::NoInverse { index, common },
        )),
        Err(CableFault::Memory) => Err(ValueFault::Memory),
        Err(_) => unreachable!(),
    }
}

/// The value of the net with these colours, one for each label, in increasing order of the labels, and the turns that the
/// sum takes when the items are taken in the order.
///
/// The colours fit: there are as many as labels, none is above the top colour, no crossing changes one and they are admissible at
/// each vertex. There is one colouring, so its number is 1. `NoInverse` comes before the limits. (Kauffman and Lins; orders and
/// turns are this project's own.)
pub fn net_value(
    alloc: Global,
    params: &Params,
    net: &PlanarNet,
    colours: &[u32],
    order: &Chooser<Order>,
) -> Result<Value, ValueFault>
    requires { net_refusal (top_colour params.now) net.now colours.now ≡ None }

    // The definition's value, or its refusal, or want of memory.
    ensures { Gives (net_value (next_of order.now) params.now net.now colours.now) result }
{
    let network = cabled_net(alloc, params, net, colours)?;
    network_value(alloc, params, &network, order, 1)
}
