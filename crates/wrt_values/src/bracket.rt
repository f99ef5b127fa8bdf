//! The bracket of a diagram: its value with all components coloured 1.

ghost use Rattle.std.specs.Prelude.{◌≡◌, IfOk};
ghost use Rattle.state_sums.specs.Networks.{WeightsBelow};
ghost use Rattle.diagram_brackets.specs.Brackets.{bracket_network};
ghost use Rattle.frontier_sweep.specs.Next.{next_of};
ghost use Rattle.wrt_values.specs.Values.{Gives, bracket_value};

use crate::fault::ValueFault;
use crate::sweep::network_value;
use crate::value::Value;
use arc_pairing::Network;
use frontier_sweep::{Chooser, Order};
use planar_check::Planar;
use root_quantum::Params;
use skein_network::{CableFault, cable};
use std::alloc::{AllocError, Global};
use wenzl_table::Table;

/// The cable of the diagram whose components all have colour 1, which is the network of its bracket. (Lickorish, ch. 13.)
///
/// No box stands in it, so the table is one for no colour of at least 2. The only error is want of memory.
fn plain_cable(alloc: Global, params: &Params, diagram: &Planar) -> Result<Network, AllocError>
    ensures network { IfOk result (λ network. network ≡ bracket_network params.now diagram.now) }
    ensures weights { IfOk result (λ network. WeightsBelow params.now.modulus network.nodes) }
{
    let ones = vec![in alloc; 1; diagram.components() as usize]?;
    let table = Table::new(alloc, *params, 1)?;
    let mut notes = table.notes(alloc)?;
    // What a diagram keeps is told by the contract of its items.
    let _items = diagram.diagram().items();
    let fault = match cable(alloc, diagram, &ones, &table, &mut notes) {
        Ok(network) => return Ok(network),
        Err(fault) => fault,
    };
    match fault {
        CableFault::Memory => Err(AllocError),
        _ => unreachable!(),
    }
}

/// The Kauffman bracket of the diagram: its value with all components coloured 1, and its framing not
/// looked at, with the turns that the sum takes when crossings are taken in the order.
///
/// There is one colouring, so its number is 1. It is refused at the first step behind which more than 24 names are
/// open, or more than 262,144 pairings of these arise. (Lickorish, chapter 3; orders and turns are this project's own.)
pub fn bracket_value(
    alloc: Global,
    params: &Params,
    diagram: &Planar,
    order: &Chooser<Order>,
) -> Result<Value, ValueFault>
    // The definition's value, or its refusal, or want of memory.
    ensures { Gives (bracket_value (next_of order.now) params.now diagram.now) result }
{
    let network = plain_cable(alloc, params, diagram)?;
    network_value(alloc, params, &network, order, 1)
}
