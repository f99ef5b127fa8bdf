//! Steps that are tried, one after another, and what is seen.

ghost use Rattle.std.specs.Prelude.{◌≡◌, IfOk};
ghost use Rattle.pd_reader.specs.Diagrams.{IsDiagram, labels};
ghost use Rattle.pd_reader.specs.Items.{item_labels};
ghost use Rattle.planar_check.specs.Components.{greatest};

use crate::steps::{Sizes, all_steps, crossings, new_crossing, taking_back};
use diagram_moves::{Factor, MoveFault};
use frontier_sweep::{Chooser, Order};
use move_script::{GREATEST_LABEL, Moved, apply};
use pd_reader::{Item, labels};
use planar_check::Planar;
use root_quantum::Params;
use script_reader::Step;
use std::alloc::{AllocError, Global};
use wrt_values::bracket_value;

/// A prime modulus, a root A of the order 40 and the level 10.
pub(crate) const MODULUS: u64 = 1_000_000_241;

pub(crate) const ROOT: u64 = 473_758_198;

pub(crate) const LEVEL: u32 = 10;

/// -A^3 and -A^2 - A^-2, worked by an independent program.
const CURL: u64 = 410_774_019;

const CIRCLE: u64 = 530_723_541;

/// What is seen on a diagram.
#[derive(Clone, Copy, Debug, PartialEq, Eq)]
pub(crate) struct Seen {
    /// How many steps are accepted.
    pub accepted: u32,
    /// After how many of these the bracket is the factor times the one before.
    pub kept: u32,
    /// How many are taken back to the diagram.
    pub taken_back: u32,
    /// How many are refused because the result is not planar.
    pub not_planar: u32,
}

/// The greatest label, or 0.
pub(crate) fn greatest_label(alloc: Global, items: &[Item]) -> Result<u32, AllocError>
    requires { IsDiagram items.now }
    ensures { IfOk result (λ label. label ≡ greatest (labels item_labels items.now)) }
{
    let mut greatest = 0;
    let all = labels(alloc, items)?;
    for label in &all {
        greatest = (*label).max(greatest);
    }
    Ok(greatest)
}

/// Makes a step that is no slide, where the labels leave room for it.
fn made(alloc: Global, diagram: &Planar, step: &Step) -> Result<Moved, MoveFault> {
    if step.is_slide() || greatest_label(alloc, diagram.diagram().items())? > GREATEST_LABEL {
        return Err(MoveFault::Memory);
    }
    apply(alloc, diagram, step)
}

/// The bracket.
fn bracket(alloc: Global, params: &Params, diagram: &Planar) -> Option<u64> {
    let greedy = Chooser::keep(Order::Greedy);
    let value = bracket_value(alloc, params, diagram, &greedy).ok()?;
    Some(value.residue)
}

/// x is y times the number, modulo the prime.
fn is_multiple(x: u64, y: u64, number: u64) -> bool {
    (x as u128) == (y as u128) * (number as u128) % (MODULUS as u128)
}

/// The bracket after a step is the factor times the one before.
fn agree(before: u64, factor: Factor, after: u64) -> bool {
    match (factor.curl, factor.circle) {
        (0, 0) => after == before,
        (1, 0) => is_multiple(after, before, CURL),
        (-1, 0) => is_multiple(before, after, CURL),
        (0, 1) => is_multiple(after, before, CIRCLE),
        _ => false,
    }
}

/// The items are those of the diagram; or, since a loop that comes back stands at the end and an edge may get another label, they are as many, in as
/// many components, with the same bracket.
fn is_same(alloc: Global, params: &Params, diagram: &Planar, again: &Planar) -> bool {
    let items = diagram.diagram().items();
    let found = again.diagram().items();
    if found == items {
        return true;
    }
    found.len() == items.len()
        && again.components() == diagram.components()
        && bracket(alloc, params, again) == bracket(alloc, params, diagram)
}

/// One of the steps that take the step back gives the diagram again.
fn is_taken_back(
    alloc: Global,
    params: &Params,
    diagram: &Planar,
    step: &Step,
    moved: &Moved,
) -> Result<bool, AllocError> {
    let items = moved.diagram.diagram().items();
    let sizes = Sizes {
        edges: greatest_label(alloc, items)?,
        crossings: crossings(items),
    };
    let curl = new_crossing(diagram, &moved.diagram);
    for back in &taking_back(alloc, step, sizes, curl)? {
        if let Ok(again) = made(alloc, &moved.diagram, back) {
            if is_same(alloc, params, diagram, &again.diagram) {
                return Ok(true);
            }
        }
    }
    Ok(false)
}

/// Tries every step.
pub(crate) fn try_all(alloc: Global, params: &Params, diagram: &Planar) -> Option<Seen> {
    let before = bracket(alloc, params, diagram)?;
    let items = diagram.diagram().items();
    let sizes = Sizes {
        edges: greatest_label(alloc, items).ok()?,
        crossings: crossings(items),
    };
    let mut seen = Seen {
        accepted: 0,
        kept: 0,
        taken_back: 0,
        not_planar: 0,
    };
    let steps = all_steps(alloc, sizes).ok()?;
    for step in &steps {
        match made(alloc, diagram, step) {
            Ok(moved) => {
                let after = bracket(alloc, params, &moved.diagram)?;
                let kept = agree(before, moved.factor, after);
                let back = is_taken_back(alloc, params, diagram, step, &moved).ok()?;
                seen.accepted = seen.accepted.saturating_add(1);
                seen.kept = seen.kept.saturating_add(u32::from(kept));
                seen.taken_back = seen.taken_back.saturating_add(u32::from(back));
            }
            Err(
                MoveFault::NotPlanar {
                    faces: _,
                    wanted: _,
                },
            ) => seen.not_planar = seen.not_planar.saturating_add(1),
            Err(MoveFault::Memory) => return None,
            Err(_) => {}
        }
    }
    Some(seen)
}
