//! The value of a net whose labels have colours.

ghost use Rattle.std.specs.Prelude.{◌≡◌, ◌⊎◌, ◌<◌, ℕ, None, Ok, Err, IfOk, IfErr, OnOk};
ghost use Rattle.state_sums.specs.Networks.{WeightsBelow};
ghost use Rattle.planar_check.specs.Components.{greatest};
ghost use Rattle.cables.specs.Nets.{cabled_net};
ghost use Rattle.root_quantum.specs.QuantumNumbers.{loop_value};
ghost use Rattle.state_sums.specs.StateSums.{value};
ghost use Rattle.frontier_sweep.specs.Next.{next_of};
ghost use Rattle.frontier_sweep.specs.SweepResults.{sweep};
ghost use Rattle.frontier_sweep.specs.declared.order.Order.TheVariants.{Listed};
ghost use Rattle.frontier_sweep.specs.declared.fault.SweepFault.TheVariants.{Memory};
ghost use Rattle.wenzl_table.specs.Inverses.{IsFirstCommon};
ghost use Rattle.wenzl_table.specs.Tables.{IsOf, Keeps};
ghost use Rattle.skein_network.specs.Refusals.{net_colour, net_refusal};
ghost use Rattle.tetra_sum.specs.Nets.{net_value};

use arc_pairing::{Network, Turns};
use frontier_sweep::{Chooser, Order, SweepFault, contract_in_order};
use planar_check::PlanarNet;
use root_quantum::Params;
use skein_network::{CableFault, cable_net};
use std::alloc::{AllocError, Global};
use wenzl_table::{Notes, Table};

/// The cable of the net, whose labels have these colours: they fit, and have projectors. The only error is want of memory.
fn network_of(
    alloc: Global,
    table: &Table,
    net: &PlanarNet,
    colours: &[u32],
    notes: &mut Notes,
) -> Result<Network, AllocError>
    requires of { IsOf notes.old table.now }
    requires fits { net_refusal table.now.top net.now colours.now ≡ None }
    requires inverses { (index common : ℕ) → ¬ IsFirstCommon table.now.params (greatest colours.now) index common }
    ensures network { IfOk result (λ network. network ≡ cabled_net table.now.params net.now (net_colour net.now colours.now)) }
    ensures weights { IfOk result (λ network. WeightsBelow table.now.params.modulus network.nodes) }
    ensures of { IsOf notes.new table.now }
    ensures kept { Keeps notes.old notes.new }
{
    let fault = match cable_net(alloc, net, colours, table, notes) {
        Ok(network) => return Ok(network),
        Err(fault) => fault,
    };
    match fault {
        CableFault::Memory => Err(AllocError),
        _ => unreachable!(),
    }
}

/// The value of the network, in the listed order.
fn listed_value(
    alloc: Global,
    params: &Params,
    network: &Network,
    order: &Chooser<Order>,
) -> Result<u64, SweepFault>
    requires weights { WeightsBelow params.now.modulus network.now.nodes }
    requires listed { order.now ≡ Listed }
    ensures value { IfOk result (λ sum. sum ≡ value params.now.modulus (loop_value params.now) network.now) }
    ensures swept { OnOk result ((count : ℕ) × (sweep (next_of Listed) network.now ≡ Ok count)) }
    ensures refused { IfErr result (λ fault. (fault ≡ Memory) ⊎ (sweep (next_of Listed) network.now ≡ Err fault)) }
{
    let mut turns = Turns::new();
    contract_in_order(alloc, params, network, order, &mut turns)
}

/// The value of the net, whose labels have these colours, taken in the listed order, or the first limit of the sweep.
pub(crate) fn net_value(
    alloc: Global,
    table: &Table,
    net: &PlanarNet,
    colours: &[u32],
    notes: &mut Notes,
) -> Result<u64, SweepFault>
    requires of { IsOf notes.old table.now }
    requires fits { net_refusal table.now.top net.now colours.now ≡ None }
    requires inverses { (index common : ℕ) → ¬ IsFirstCommon table.now.params (greatest colours.now) index common }
    ensures value { IfOk result (λ value. net_value table.now.params net.now colours.now ≡ Ok value) }
    ensures below { IfOk result (λ value. value < table.now.params.modulus) }
    ensures refused { IfErr result (λ fault. (fault ≡ Memory) ⊎ (net_value table.now.params net.now colours.now ≡ Err fault)) }
    ensures of { IsOf notes.new table.now }
    ensures kept { Keeps notes.old notes.new }
{
    let network = match network_of(alloc, table, net, colours, notes) {
        Ok(network) => network,
        Err(AllocError) => return Err(SweepFault::Memory),
    };
    let order = Chooser::keep(Order::Listed);
    listed_value(alloc, table.params(), &network, &order)
}
