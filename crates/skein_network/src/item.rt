//! The nodes of an item.

ghost use Rattle.std.specs.Prelude.{◌≡◌, ◌++◌, ◌∷◌, [], ◌≤◌, true, ℕ, length, reverse, IfOk, OnOk};
ghost use Rattle.std.specs.List.{All};
ghost use Rattle.pd_reader.specs.declared.item.NetItem.TheVariants.{X, Y};
ghost use Rattle.root_quantum.specs.Parameters.{Parameters};
ghost use Rattle.cables.specs.Strands.{first_names, names_at};
ghost use Rattle.cables.specs.Cables.{item_nodes, loop_nodes, Fits};
ghost use Rattle.skein_network.specs.Edges.{boxed_at, colour_at, strands_at};
ghost use Rattle.skein_network.specs.Colourings.{strands_in, IsReady};
ghost use Rattle.skein_network.specs.Standings.{standing_at, AreAtCrossing, AreAtVertex};

use crate::boxes::{push_boxes, push_strands_box};
use crate::colouring::Colouring;
use crate::edge::{Edge, colour_of};
use crate::strand::names_at;
use arc_pairing::Node;
use cable_grids::{CrossingEnds, VertexEnds, push_crossing, push_vertex};
use std::alloc::{AllocError, Global};

/// The names at the next place, where the label stands; the label is put behind those seen.
fn next_names(
    alloc: Global,
    edges: &[Edge],
    seen: &mut Vec<u32>,
    label: u32,
) -> Result<Vec<u32>, AllocError>
    requires few { colour_at edges.now label ≤ 8 }
    requires some { boxed_at edges.now label ≡ true → 2 ≤ colour_at edges.now label }
    requires low { label ≤ 2000000 }
    ensures names { IfOk result (λ names. (p : Parameters) → names.items ≡ names_at (strands_at p edges.now) (reverse seen.old.items) label) }
    ensures items { OnOk result (seen.new.items ≡ seen.old.items ++ label ∷ []) }
    ensures seen { OnOk result (reverse seen.new.items ≡ label ∷ reverse seen.old.items) }
{
    let names = names_at(alloc, edges, seen, label)?;
    seen.push(label)?;
    Ok(names)
}

/// The names at the slots of a crossing; its labels are put behind those seen.
fn crossing_ends(
    alloc: Global,
    edges: &[Edge],
    seen: &mut Vec<u32>,
    slots: &[u32; 4],
) -> Result<CrossingEnds, AllocError>
    requires few { (label : ℕ) → colour_at edges.now label ≤ 8 }
    requires some { (label : ℕ) → boxed_at edges.now label ≡ true → 2 ≤ colour_at edges.now label }
    requires low { All (λ label. label ≤ 2000000) slots.now }
    ensures names { IfOk result (λ ends. (p : Parameters) → AreAtCrossing (strands_at p edges.now) (reverse seen.old.items) slots.now ends) }
    ensures items { OnOk result (seen.new.items ≡ seen.old.items ++ slots.now) }
{
    let a = next_names(alloc, edges, seen, slots[0])?;
    let b = next_names(alloc, edges, seen, slots[1])?;
    let c = next_names(alloc, edges, seen, slots[2])?;
    let d = next_names(alloc, edges, seen, slots[3])?;
    Ok(CrossingEnds { a, b, c, d })
}

/// The names at the edges of a vertex; its labels are put behind those seen.
fn vertex_ends(
    alloc: Global,
    edges: &[Edge],
    seen: &mut Vec<u32>,
    slots: &[u32; 3],
) -> Result<VertexEnds, AllocError>
    requires few { (label : ℕ) → colour_at edges.now label ≤ 8 }
    requires some { (label : ℕ) → boxed_at edges.now label ≡ true → 2 ≤ colour_at edges.now label }
    requires low { All (λ label. label ≤ 2000000) slots.now }
    ensures names { IfOk result (λ ends. (p : Parameters) → AreAtVertex (strands_at p edges.now) (reverse seen.old.items) slots.now ends) }
    ensures items { OnOk result (seen.new.items ≡ seen.old.items ++ slots.now) }
{
    let x = next_names(alloc, edges, seen, slots[0])?;
    let y = next_names(alloc, edges, seen, slots[1])?;
    let z = next_names(alloc, edges, seen, slots[2])?;
    Ok(VertexEnds { x, y, z })
}

/// Puts the nodes of a crossing behind the others, its boxes first, and its labels behind those seen.
pub(crate) fn push_crossing_item(
    alloc: Global,
    colouring: &Colouring,
    group: u32,
    k: u32,
    slots: &[u32; 4],
    seen: &mut Vec<u32>,
    nodes: &mut Vec<Node>,
) -> Result<(), AllocError>
    requires item { k ≤ 255 }
    requires ready { IsReady colouring.now }
    requires low { All (λ label. label ≤ 2000000) slots.now }
    requires fits { Fits (strands_in colouring.now) (X slots.now) }
    ensures nodes { OnOk result (nodes.new.items ≡ nodes.old.items
        ++ item_nodes colouring.now.params.now (strands_in colouring.now) (standing_at (reverse seen.old.items) k group) (X slots.now)) }
    ensures seen { OnOk result (seen.new.items ≡ seen.old.items ++ slots.now) }
{
    push_boxes(alloc, colouring, group, seen, slots, nodes)?;
    let ends = crossing_ends(alloc, &colouring.edges, seen, slots)?;
    push_crossing(alloc, colouring.params, group, k, &ends, nodes)
}

/// Puts the nodes of a vertex behind the others, its boxes first, and its labels behind those seen.
pub(crate) fn push_vertex_item(
    alloc: Global,
    colouring: &Colouring,
    group: u32,
    slots: &[u32; 3],
    seen: &mut Vec<u32>,
    nodes: &mut Vec<Node>,
) -> Result<(), AllocError>
    requires ready { IsReady colouring.now }
    requires low { All (λ label. label ≤ 2000000) slots.now }
    requires fits { Fits (strands_in colouring.now) (Y slots.now) }
    ensures nodes { OnOk result ((index : ℕ) → nodes.new.items ≡ nodes.old.items
        ++ item_nodes colouring.now.params.now (strands_in colouring.now) (standing_at (reverse seen.old.items) index group) (Y slots.now)) }
    ensures seen { OnOk result (seen.new.items ≡ seen.old.items ++ slots.now) }
{
    push_boxes(alloc, colouring, group, seen, slots, nodes)?;
    let ends = vertex_ends(alloc, &colouring.edges, seen, slots)?;
    push_vertex(alloc, group, &ends, nodes)
}

/// The least colour at which a loop has a box.
const LEAST_BOXED: u32 = 2;

/// Puts the box of a loop behind the nodes, closed on itself, where the loop has at least two strands.
pub(crate) fn push_loop_item(
    alloc: Global,
    colouring: &Colouring,
    group: u32,
    label: u32,
    nodes: &mut Vec<Node>,
) -> Result<(), AllocError>
    requires ready { IsReady colouring.now }
    requires low { label ≤ 2000000 }
    ensures { OnOk result (nodes.new.items ≡ nodes.old.items
        ++ loop_nodes (strands_in colouring.now) group (first_names (colour_at colouring.now.edges.items label) label)) }
{
    if colour_of(&colouring.edges, label) < LEAST_BOXED {
        return Ok(());
    }
    push_strands_box(alloc, colouring, group, label, false, nodes)
}
