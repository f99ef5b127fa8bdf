//! Kirby sums by workers.

ghost use Rattle.std.specs.Prelude.{◌≡◌, ◌↔◌, ◌<◌, ◌≤◌, ℕ, Ok, Err, length, IfOk, IfErr};
ghost use Rattle.root_quantum.specs.Colours.{greatest_colour};
ghost use Rattle.frontier_laws.specs.Orders.{View};
ghost use Rattle.frontier_laws.specs.Views.{IsNext};
ghost use Rattle.coloured_values.specs.Surgery.{kirby};
ghost use Rattle.colour_share.specs.Turns.{kirby_turns};
ghost use Rattle.colour_share.specs.Sums.{IsTurnCount, AllKnowOwn, IsTooMany, IsNoInverse, IsStoppedSum, IsFirstLimit, fault_of};

use crate::checks::check;
use crate::fault::SumFault;
use crate::gate::Gate;
use crate::part::{PartFault, Summed};
use crate::sharing::share;
use frontier_sweep::{Choose, Chooser, SweepFault};
use planar_check::Framed;
use std::alloc::Global;
use std::thread::Threads;
use wenzl_table::Table;

/// The fault of some workers, as that of the sum.
fn fault_of(fault: PartFault) -> SumFault
    ensures { result ≡ fault_of fault }
{
    let PartFault::Stopped { colouring, fault } = fault else {
        return SumFault::Memory;
    };
    match fault {
        SweepFault::Wide { step, ends } => SumFault::Wide {
            colouring,
            step,
            ends,
        },
        SweepFault::Table { step } => SumFault::Table { colouring, step },
        SweepFault::Memory => SumFault::Memory,
    }
}

/// The Kirby sum of a framed diagram over the colours of the form of the table's parameters (Lickorish, ch. 13), by 1 to 64
/// workers, the turns over all colourings, and what each worker knows of the table.
///
/// Worker w, from 1 on, takes the colourings whose number less 1 leaves w - 1 when it is divided by the number of workers, and
/// passes the gate before each. `join` is applied again to each half of the workers; nothing else is shared that one of them
/// writes but the cells of the table, whose top is at least the greatest colour of the form.
///
/// `TooMany` and then `NoInverse` come exactly where their reasons hold. `Wide` and `Table` are those of the first colouring that
/// meets a limit. `Memory` is want of memory.
pub fn sum<R: Threads + Sync, G: Gate + Sync, C: Choose + Sync>(
    rt: &R,
    alloc: Global,
    framed: &Framed,
    table: &Table,
    chooser: &Chooser<C>,
    workers: u32,
    gate: &G,
) -> Result<Summed, SumFault>
    requires top { greatest_colour table.now.params ≤ table.now.top }
    requires some { 1 ≤ workers }
    requires most { workers ≤ 64 }
    ensures value { IfOk result (λ summed. summed.value ≡ kirby table.now.params framed.now.items framed.now.framings) }
    ensures below { IfOk result (λ summed. summed.value < table.now.params.modulus) }

    // The turns of an order of the chooser's answers for each colouring, and where a function tells each answer, those of its orders.
    ensures turns { IfOk result (λ summed. IsTurnCount (C.answers chooser.now) table.now.params framed.now summed.turns) }
    ensures exact { (next : View → ℕ) → IsNext next (C.answers chooser.now) → IfOk result (λ summed. kirby_turns next table.now.params framed.now ≡ Ok summed.turns) }

    // Each worker's notes are the table's, and know the projectors of its colourings.
    ensures count { IfOk result (λ summed. length summed.notes.items ≡ workers) }
    ensures notes { IfOk result (λ summed. AllKnowOwn table.now framed.now workers summed.notes.items) }

    // Each refusal has its reason: the first two exactly where it holds, a limit as the first colouring meets it.
    ensures too_many { (components limit : ℕ) → (result ≡ Err (SumFault.TooMany components limit)) ↔ IsTooMany table.now.params framed.now components limit }
    ensures no_inverse { (index common : ℕ) → (result ≡ Err (SumFault.NoInverse index common)) ↔ IsNoInverse table.now.params framed.now index common }
    ensures stopped { IfErr result (IsStoppedSum (C.answers chooser.now) table.now.params framed.now) }
    ensures first { (next : View → ℕ) → IsNext next (C.answers chooser.now) → IfErr result (IsFirstLimit next table.now.params framed.now) }
{
    let total = match check(table.params(), framed) {
        Ok(total) => total,
        Err(fault) => return Err(fault),
    };
    match share(
        rt, alloc, framed, table, chooser, gate, total, workers, 0, workers,
    ) {
        Ok(summed) => Ok(summed),
        Err(fault) => Err(fault_of(fault)),
    }
}
