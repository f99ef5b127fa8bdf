//! The value of a network.

ghost use Rattle.state_sums.specs.Networks.{WeightsBelow};
ghost use Rattle.frontier_sweep.specs.Next.{next_of};
ghost use Rattle.wrt_values.specs.Values.{Gives, network_value};

use crate::fault::{SweepStep, ValueFault, ValueRefusal};
use crate::value::Value;
use arc_pairing::{Network, Turns};
use frontier_sweep::{Chooser, Order, SweepFault, contract_in_order};
use root_quantum::Params;
use std::alloc::Global;

/// The value of the network of a colouring with this number, whose nodes are taken in the order.
pub(crate) fn network_value(
    alloc: Global,
    params: &Params,
    network: &Network,
    order: &Chooser<Order>,
    colouring: u64,
) -> Result<Value, ValueFault>
    requires { WeightsBelow params.now.modulus network.now.nodes }
    ensures { Gives (network_value (next_of order.now) params.now network.now colouring) result }
{
    let mut turns = Turns::new();
    match contract_in_order(alloc, params, network, order, &mut turns) {
        Ok(residue) => Ok(Value {
            residue,
            turns: turns.count(),
        }),
        Err(SweepFault::Wide { step, ends }) => {
            let step = SweepStep { colouring, step };
            Err(ValueFault::Refused(ValueRefusal::Wide { step, ends }))
        }
        Err(SweepFault::Table { step }) => {
            let step = SweepStep { colouring, step };
            Err(ValueFault::Refused(ValueRefusal::Table { step }))
        }
        Err(SweepFault::Memory) => Err(ValueFault::Memory),
    }
}
