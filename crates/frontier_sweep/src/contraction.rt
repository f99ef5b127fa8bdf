//! The contraction of a network, node by node.

ghost use Rattle.std.specs.Prelude.{◌≡◌, ◌⊎◌, ◌<◌, ◌≤◌, ◌+◌, ◌^◌, ℕ, Ok, Err, IfOk, IfErr, OnOk, OnErr};
ghost use Rattle.state_sums.specs.Networks.{WeightsBelow};
ghost use Rattle.state_sums.specs.StateSums.{value};
ghost use Rattle.root_quantum.specs.QuantumNumbers.{loop_value};
ghost use Rattle.frontier_laws.specs.Orders.{View};
ghost use Rattle.frontier_laws.specs.Views.{IsNext};
ghost use Rattle.frontier_sweep.specs.Next.{next_of};
ghost use Rattle.frontier_sweep.specs.SweepResults.{sweep};
ghost use Rattle.frontier_sweep.specs.declared.fault.SweepFault.TheVariants.{Memory};
ghost use Rattle.frontier_sweep.specs.Sweeps.{IsSwept, IsStopped, stopped_at};

use crate::chooser::{Choose, Chooser};
use crate::fault::{NotGlued, SweepFault};
use crate::frontier::Frontier;
use crate::order::Order;
use crate::powers::LoopPowers;
use arc_pairing::{Network, Turns};
use root_quantum::Params;
use std::alloc::Global;

/// The fault of a step that was not taken for that reason.
fn stopped_at(step: u32, reason: NotGlued) -> SweepFault
    ensures { result ≡ stopped_at step reason }
{
    match reason {
        NotGlued::Wide { ends } => SweepFault::Wide { step, ends },
        NotGlued::Full => SweepFault::Table { step },
        NotGlued::Memory => SweepFault::Memory,
    }
}

/// The value of the network: the sum over all its states (Lickorish, ch. 13), reached by taking its
/// nodes one by one, in the order that the chooser's answers give, and keeping one coefficient for each
/// pairing of the open names that arises.
///
/// All weights are below the modulus, and the count is below 2^120. It grows by the turns of that order:
/// one for each kept pairing and each term; free loops add none. `Wide` and `Table` come where a step of
/// that order is the first to meet a limit, more than 24 open names, or else more than 262,144 pairings;
/// then the count stays. `Memory` is want of memory.
pub fn contract<C: Choose>(
    alloc: Global,
    params: &Params,
    network: &Network,
    chooser: &Chooser<C>,
    turns: &mut Turns,
) -> Result<u64, SweepFault>
    requires weights { WeightsBelow params.now.modulus network.now.nodes }
    requires room { turns.old < 2 ^ 120 }
    ensures value { IfOk result (λ sum. sum ≡ value params.now.modulus (loop_value params.now) network.now) }

    // The order is one of the chooser's answers, and no step of it meets a limit; or the last one does.
    ensures swept { OnOk result (IsSwept (C.answers chooser.now) network.now turns.old turns.new) }
    ensures stopped { IfErr result (IsStopped (C.answers chooser.now) network.now) }
    ensures kept { OnErr result (turns.new ≡ turns.old) }

    // Where one function of the view tells each answer, the turns and the limit are those of its order.
    ensures turns { (next : View → ℕ) → IsNext next (C.answers chooser.now) →
        OnOk result ((count : ℕ) × (sweep next network.now ≡ Ok count) × (turns.new ≡ turns.old + count)) }
    ensures limit { (next : View → ℕ) → IsNext next (C.answers chooser.now) →
        IfErr result (λ fault. (fault ≡ Memory) ⊎ (sweep next network.now ≡ Err fault)) }
{
    let powers = LoopPowers::of(params.ring(), params.loop_value());
    let mut own = Turns::new();
    let mut frontier = match Frontier::start(alloc, network) {
        Ok(frontier) => frontier,
        Err(_) => return Err(SweepFault::Memory),
    };
    for taken in 0..network.nodes().len() {
        let place = chooser.name(&frontier.view(network));
        match frontier.advance(&powers, network, place, &mut own) {
            Ok(()) => {}
            Err(reason) => return Err(stopped_at(taken as u32 + 1, reason)),
        }
    }
    let sum = frontier.value(&powers, network.free());
    turns.take_in(own);
    Ok(sum)
}

/// The value of the network in one of the three orders, as by `contract`: its turns and the first limit that
/// is met are functions of the order and the network.
pub fn contract_in_order(
    alloc: Global,
    params: &Params,
    network: &Network,
    order: &Chooser<Order>,
    turns: &mut Turns,
) -> Result<u64, SweepFault>
    requires weights { WeightsBelow params.now.modulus network.now.nodes }
    requires room { turns.old < 2 ^ 120 }
    ensures value { IfOk result (λ sum. sum ≡ value params.now.modulus (loop_value params.now) network.now) }
    ensures turns { OnOk result ((count : ℕ) × (sweep (next_of order.now) network.now ≡ Ok count) × (turns.new ≡ turns.old + count)) }
    ensures limit { IfErr result (λ fault. (fault ≡ Memory) ⊎ (sweep (next_of order.now) network.now ≡ Err fault)) }
    ensures kept { OnErr result (turns.new ≡ turns.old) }
{
    contract(alloc, params, network, order, turns)
}
