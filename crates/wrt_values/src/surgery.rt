//! The surgery value of a framed diagram.

ghost use Rattle.std.specs.Prelude.{◌≡◌, ◌<◌, ◌≤◌, Ok, IfOk, IfErr, OnOk};
ghost use Rattle.std.specs.Result.{result_and};
ghost use Rattle.coloured_values.specs.Surgery.{kirby, surgery, plus_count, minus_count};
ghost use Rattle.colour_share.specs.Shares.{HasTooMany};
ghost use Rattle.frontier_sweep.specs.Next.{next_of};
ghost use Rattle.wrt_values.specs.Surgery.{inertia_range, delta_inverses, kirby_turns, omega_inverses, surgery_value};
ghost use Rattle.wrt_values.specs.Values.{Fails, Gives};

use crate::fault::{SweepStep, ValueFault, ValueRefusal};
use crate::value::Value;
use colour_share::{Gate, SumFault, colouring_total, sum, table_for};
use frontier_sweep::{Chooser, Order};
use inertia_cert::{Counts, InertiaFault, inertia};
use kirby_terms::{NormFault, normalise};
use planar_check::{Framed, linking_matrix};
use root_quantum::Params;
use std::alloc::Global;
use std::thread::Threads;

/// The indices of inertia of the linking matrix, as the counts of a certificate.
fn linking_counts(alloc: Global, framed: &Framed) -> Result<Counts, ValueFault>
    ensures plus { IfOk result (λ counts. counts.positive ≡ plus_count framed.now) }
    ensures minus { IfOk result (λ counts. counts.negative ≡ minus_count framed.now) }
    ensures range { OnOk result (inertia_range framed.now ≡ Ok tt) }
    ensures refused { IfErr result (Fails (inertia_range framed.now)) }
{
    let matrix = linking_matrix(alloc, framed)?;
    // What a matrix keeps is told by the contract of its size.
    let _size = matrix.size();
    match inertia(alloc, &matrix) {
        Ok(certificate) => Ok(certificate.counts()),
        Err(InertiaFault::Range { step }) => {
            Err(ValueFault::Refused(ValueRefusal::Inertia { step }))
        }
        Err(InertiaFault::Memory) => Err(ValueFault::Memory),
    }
}

/// The Kirby sum and the turns of all colourings, which are taken by so many workers, from a table of their own.
fn kirby_value<R: Threads + Sync, G: Gate + Sync>(
    rt: &R,
    alloc: Global,
    params: &Params,
    framed: &Framed,
    order: &Chooser<Order>,
    workers: u32,
    gate: &G,
) -> Result<Value, ValueFault>
    requires few { ¬ HasTooMany params.now framed.now }
    requires some { 1 ≤ workers }
    requires most { workers ≤ 64 }
    ensures residue { IfOk result (λ sum. sum.residue ≡ kirby params.now framed.now.items framed.now.framings) }
    ensures below { IfOk result (λ sum. sum.residue < params.now.modulus) }
    ensures turns { IfOk result (λ sum. result_and (delta_inverses params.now framed.now) (kirby_turns (next_of order.now) params.now framed.now) ≡ Ok sum.turns) }
    ensures refused { IfErr result (Fails (result_and (delta_inverses params.now framed.now) (kirby_turns (next_of order.now) params.now framed.now))) }
{
    let table = table_for(alloc, params)?;
    match sum(rt, alloc, framed, &table, order, workers, gate) {
        Ok(summed) => Ok(Value {
            residue: summed.value,
            turns: summed.turns,
        }),
        Err(SumFault::NoInverse { index, common }) => Err(ValueFault::Refused(
            ValueRefusal::NoInverse { index, common },
        )),
        Err(
            SumFault::Wide {
                colouring,
                step,
                ends,
            },
        ) => {
            let step = SweepStep { colouring, step };
            Err(ValueFault::Refused(ValueRefusal::Wide { step, ends }))
        }
        Err(SumFault::Table { colouring, step }) => {
            let step = SweepStep { colouring, step };
            Err(ValueFault::Refused(ValueRefusal::Table { step }))
        }
        Err(SumFault::Memory) => Err(ValueFault::Memory),
        Err(SumFault::TooMany { .. }) => unreachable!(),
    }
}

/// The surgery value of the diagram with this Kirby sum and these counts of its linking matrix, with the turns of the sum.
fn normalised(
    params: &Params,
    framed: &Framed,
    sum: &Value,
    counts: &Counts,
) -> Result<Value, ValueFault>
    requires below { sum.now.residue < params.now.modulus }
    requires kirby { sum.now.residue ≡ kirby params.now framed.now.items framed.now.framings }
    requires plus { counts.now.positive ≡ plus_count framed.now }
    requires minus { counts.now.negative ≡ minus_count framed.now }
    ensures residue { IfOk result (λ value. value.residue ≡ surgery params.now framed.now) }
    ensures turns { IfOk result (λ value. value.turns ≡ sum.now.turns) }
    ensures inverses { OnOk result (omega_inverses params.now framed.now ≡ Ok tt) }
    ensures refused { IfErr result (Fails (omega_inverses params.now framed.now)) }
{
    match normalise(params, sum.residue, counts) {
        Ok(residue) => Ok(Value {
            residue,
            turns: sum.turns,
        }),
        Err(NormFault::NoInverse { sign, common }) => Err(ValueFault::Refused(
            ValueRefusal::NoOmegaInverse { sign, common },
        )),
    }
}

/// The surgery value of the framed diagram over the colours of the form, by 1 to 64 workers, and the turns that its Kirby sum takes
/// when the crossings of each colouring are taken in the order.
///
/// The number of colourings is looked at first, then the inertia of the linking matrix, the inverses of the `Delta`, the sweeps
/// in the order of the colourings, and last the inverse of `Omega+` and of `Omega-`. (Lickorish, chapter 13; orders, turns and
/// refusals are this project's own.)
pub fn surgery_value<R: Threads + Sync, G: Gate + Sync>(
    rt: &R,
    alloc: Global,
    params: &Params,
    framed: &Framed,
    order: &Chooser<Order>,
    workers: u32,
    gate: &G,
) -> Result<Value, ValueFault>
    requires some { 1 ≤ workers }
    requires most { workers ≤ 64 }

    // The definition's value, or its refusal, or want of memory.
    ensures { Gives (surgery_value (next_of order.now) params.now framed.now) result }
{
    let components = framed.planar().components();
    if colouring_total(params, components).is_none() {
        return Err(ValueFault::Refused(ValueRefusal::TooMany { components }));
    }
    let counts = linking_counts(alloc, framed)?;
    let sum = kirby_value(rt, alloc, params, framed, order, workers, gate)?;
    normalised(params, framed, &sum, &counts)
}
