//! Steps made with coloured diagrams.

ghost use Rattle.std.specs.Prelude.{◌≡◌, ◌⊎◌, ◌+◌, ◌≤◌, ◌++◌, ◌&&◌, ◌==◌, false, nat_le, length, Ok, Err, IfOk, IfErr};
ghost use Rattle.std.specs.Set.{is_member};
ghost use Rattle.pd_reader.specs.Items.{item_labels};
ghost use Rattle.pd_reader.specs.Diagrams.{labels};
ghost use Rattle.planar_check.specs.Components.{greatest, least_labels};
ghost use Rattle.diagram_moves.specs.Anchors.{applied_coloured, first_anchor, inner_edges};
ghost use Rattle.move_results.specs.Laws.{added};
ghost use Rattle.move_script.specs.ColouredMoves.{ValueFollows};
ghost use Rattle.script_reader.specs.Steps.{is_slide};

use crate::crossings::{crossing, slot};
use crate::curl::curl_at;
use crate::moved::{GREATEST_LABEL, Moved, apply};
use crate::pull::bigon;
use crate::slide::{is_triangle, triangle};
use diagram_moves::MoveFault;
use pd_reader::Item;
use planar_check::Planar;
use script_reader::Step;
use std::alloc::{AllocError, Global};

/// The two edges of a bigon.
fn bigon_edges(
    alloc: Global,
    items: &[Item],
    first: u32,
    second: u32,
) -> Result<Vec<u32>, AllocError>
    requires { length items.now ≤ 256 }
    ensures { IfOk result (λ edges. edges.items ≡ inner_edges items.now (Step.R2Undo first second)) }
{
    let Ok(here) = crossing(items, first) else {
        return Ok(Vec::new(alloc));
    };
    let Ok(there) = crossing(items, second) else {
        return Ok(Vec::new(alloc));
    };
    match bigon(&here, &there) {
        Some((s, t)) => Vec::from_slice(alloc, &[slot(&here, s), slot(&there, t + 1)]),
        None => Ok(Vec::new(alloc)),
    }
}

/// The three edges of a triangle.
fn triangle_edges(
    alloc: Global,
    items: &[Item],
    first: u32,
    second: u32,
    third: u32,
) -> Result<Vec<u32>, AllocError>
    requires { length items.now ≤ 256 }
    ensures { IfOk result (λ edges. edges.items ≡ inner_edges items.now (Step.R3 first second third)) }
{
    let Ok(here) = crossing(items, first) else {
        return Ok(Vec::new(alloc));
    };
    let Ok(there) = crossing(items, second) else {
        return Ok(Vec::new(alloc));
    };
    let Ok(beyond) = crossing(items, third) else {
        return Ok(Vec::new(alloc));
    };
    let Some(at) = triangle(&here, &there, &beyond) else {
        return Ok(Vec::new(alloc));
    };
    let (s, (t, _)) = at;
    let opposite = if is_triangle(&here, &there, &beyond, at) {
        slot(&there, t + 1)
    } else {
        slot(&beyond, t + 1)
    };
    Vec::from_slice(alloc, &[slot(&here, s), slot(&here, s + 3), opposite])
}

/// The loop of a curl.
fn curl_edges(alloc: Global, items: &[Item], number: u32) -> Result<Vec<u32>, AllocError>
    requires { length items.now ≤ 256 }
    ensures { IfOk result (λ edges. edges.items ≡ inner_edges items.now (Step.CurlUndo number)) }
{
    let Ok(here) = crossing(items, number) else {
        return Ok(Vec::new(alloc));
    };
    match curl_at(&here) {
        Some(s) => Vec::from_slice(alloc, &[slot(&here, s)]),
        None => Ok(Vec::new(alloc)),
    }
}

/// The edges between the crossings that a step takes.
fn inner_edges(alloc: Global, items: &[Item], step: &Step) -> Result<Vec<u32>, AllocError>
    requires { length items.now ≤ 256 }
    ensures { IfOk result (λ edges. edges.items ≡ inner_edges items.now step.now) }
{
    match *step {
        Step::R2Undo { first, second } => bigon_edges(alloc, items, first, second),
        Step::R3 {
            first,
            second,
            third,
        } => triangle_edges(alloc, items, first, second, third),
        Step::CurlUndo { crossing } => curl_edges(alloc, items, crossing),
        Step::R2 { over: _, under: _ } => Ok(Vec::new(alloc)),
        Step::Curl { edge: _, sign: _ } => Ok(Vec::new(alloc)),
        Step::BlowUp { sign: _ } => Ok(Vec::new(alloc)),
        Step::Slide { edge: _, along: _ } => Ok(Vec::new(alloc)),
    }
}

/// Whether a component of this colour has a box, and its least label is one of the edges.
fn is_anchored(edges: &[u32], colour: u32, least: u32) -> bool
    ensures { result ≡ (nat_le 2 colour && is_member ◌==◌ edges.now least) }
{
    colour >= 2 && edges.contains(&least)
}

/// The first component whose box stands on one of the edges.
fn first_anchor(diagram: &Planar, colours: &[u32], edges: &[u32]) -> Option<u32>
    requires { length colours.now ≡ length (least_labels diagram.now) }
    ensures { result ≡ first_anchor edges.now (least_labels diagram.now) colours.now 1 }
{
    for index in 0..diagram.components() {
        let least = diagram.least_label(index + 1);
        if is_anchored(edges, colours[index as usize], least) {
            return Some(index + 1);
        }
    }
    None
}

/// Makes a step with a planar diagram whose components have these colours, where each component keeps its colour by
/// its number: `apply`, with one further refusal after all others.
///
/// `AnchorInside` holds the first component of colour at least 2 whose least label, where its box stands, is one of the
/// inner edges of the step (`diagram_moves` defines them).
pub fn apply_coloured(
    alloc: Global,
    diagram: &Planar,
    colours: &[u32],
    step: &Step,
) -> Result<Moved, MoveFault>
    requires room { greatest (labels item_labels diagram.now) ≤ GREATEST_LABEL }
    requires step { is_slide step.now ≡ false }
    requires count { length colours.now ≡ length (least_labels diagram.now) }
    // The result and its factor are those of the definition.
    ensures made { IfOk result (λ moved. applied_coloured diagram.now colours.now step.now ≡ Ok moved) }
    // A refusal is the first one, `AnchorInside` the last of all, but where memory runs out.
    ensures refused { IfErr result (λ fault. (fault ≡ MoveFault.Memory) ⊎ (applied_coloured diagram.now colours.now step.now ≡ Err fault)) }
    // The components keep their least labels, in their order, and `BlowUp` adds one at the end.
    ensures components { IfOk result (λ moved. least_labels moved.items ≡ least_labels diagram.now ++ added step.now diagram.now) }
    ensures greatest { IfOk result (λ moved. greatest (labels item_labels moved.items) ≤ greatest (labels item_labels diagram.now) + 4) }
    // At all parameters at which each colour has its projector `R2`, `R2Undo` and `R3` keep the coloured value, and `Curl` and `CurlUndo` on a component
    // of colour n multiply it by `mu_n` to the power of the factor's curl.
    ensures coloured { IfOk result (λ moved. ValueFollows diagram.now colours.now step.now moved) }
{
    let moved = apply(alloc, diagram, step)?;
    let edges = inner_edges(alloc, diagram.diagram().items(), step)?;
    match first_anchor(diagram, colours, &edges) {
        Some(component) => Err(MoveFault::AnchorInside { component }),
        None => Ok(moved),
    }
}
