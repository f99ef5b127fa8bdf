//! The values of a script.

ghost use Rattle.std.specs.Prelude.{◌≡◌, ◌+◌, ◌*◌, ◌≤◌, length, IfOk};
ghost use Rattle.std.specs.List.{AllByRecursion};
ghost use Rattle.root_quantum.specs.Parameters.{Parameters};
ghost use Rattle.script_values.specs.Drawings.{ColoursFit, greatest_label};
ghost use Rattle.script_values.specs.Scripts.{Gives, drawings, script_values, values};

use crate::drawing::{Drawing, NEW_LABELS};
use crate::fault::ScriptFault;
use colour_share::Gate;
use move_script::GREATEST_LABEL;
use root_quantum::Params;
use script_reader::{MOST_STEPS, Step};
use std::alloc::Global;
use std::thread::Threads;

/// The first drawing and what each step gives.
fn drawings(alloc: Global, first: Drawing, steps: &[Step]) -> Result<Vec<Drawing>, ScriptFault>
    requires few { length steps.now ≤ MOST_STEPS }
    requires room { greatest_label first + NEW_LABELS * length steps.now ≤ GREATEST_LABEL }
    ensures drawings { Gives (λ all. all.items) (drawings 1 first steps.now) result }
    ensures count { IfOk result (λ all. length all.items ≡ length steps.now + 1) }
    ensures fit { IfOk result (λ all. (p : Parameters) → ColoursFit p first → AllByRecursion (ColoursFit p) all.items) }
{
    let mut all = Vec::new(alloc);
    let mut last = first;
    for (index, step) in steps.iter().enumerate() {
        let next = match last.apply(alloc, step) {
            Ok(next) => next,
            Err(fault) => return Err(ScriptFault::of_step(index as u32 + 1, fault)),
        };
        all.push(last)?;
        last = next;
    }
    all.push(last)?;
    Ok(all)
}

/// The residues of the drawings.
fn values<R: Threads + Sync, G: Gate + Sync>(
    rt: &R,
    alloc: Global,
    params: &Params,
    all: &[Drawing],
    gate: &G,
) -> Result<Vec<u64>, ScriptFault>
    requires few { length all.now ≤ MOST_STEPS + 1 }
    requires fit { AllByRecursion (ColoursFit params.now) all.now }
    ensures { Gives (λ residues. residues.items) (values params.now 0 all.now) result }
{
    let mut residues = Vec::new(alloc);
    for (line, drawing) in all.iter().enumerate() {
        match drawing.value(rt, alloc, params, gate) {
            Ok(value) => residues.push(value.residue)?,
            Err(fault) => return Err(ScriptFault::at_line(line as u32, fault)),
        }
    }
    Ok(residues)
}

/// The residues of the diagrams of a script, its first one and what each of at most `MOST_STEPS` steps gives, in their order.
///
/// All steps are made before any value is taken; a slide asks for framings. A refused step names its number, from 1; else the first diagram without a value
/// names its own, from 0 for the first one, with the reason. `Memory` is want of memory. (This project's own.)
pub fn script_values<R: Threads + Sync, G: Gate + Sync>(
    rt: &R,
    alloc: Global,
    params: &Params,
    first: Drawing,
    steps: &[Step],
    gate: &G,
) -> Result<Vec<u64>, ScriptFault>
    requires few { length steps.now ≤ MOST_STEPS }
    // There is room for the labels of all steps.
    requires room { greatest_label first + NEW_LABELS * length steps.now ≤ GREATEST_LABEL }
    // Colours of the first diagram are not past the top colour.
    requires fit { ColoursFit params.now first }

    // The definition's residues, or its refusal, or want of memory.
    ensures { Gives (λ residues. residues.items) (script_values params.now first steps.now) result }
{
    let all = drawings(alloc, first, steps)?;
    values(rt, alloc, params, &all, gate)
}
