//! The boxes at an item.

ghost use Rattle.std.specs.Prelude.{◌≡◌, ◌+◌, ◌++◌, ◌∷◌, [], ◌≤◌, ◌==◌, ◌&&◌, not, true, length, reverse, OnOk};
ghost use Rattle.std.specs.List.{All};
ghost use Rattle.std.specs.Set.{is_member};
ghost use Rattle.cables.specs.CableNodes.{box_node};
ghost use Rattle.skein_network.specs.Edges.{boxed_at, colour_at};
ghost use Rattle.skein_network.specs.Colourings.{strands_in, IsReady};
ghost use Rattle.skein_network.specs.Boxes.{strands_box, boxes_at};

use crate::colouring::{Colouring, terms_of};
use crate::edge::{Edge, colour_of, is_boxed};
use crate::strand::{first_names, second_names, stands};
use arc_pairing::{Node, NodeFault, Term};
use planar_check::distinct_labels;
use std::alloc::{AllocError, Global};

/// Puts a box behind the nodes: the names xs at its one side, then the names ys at its other.
pub(crate) fn push_box(
    alloc: Global,
    group: u32,
    terms: &[Term],
    xs: &[u32],
    ys: &[u32],
    nodes: &mut Vec<Node>,
) -> Result<(), AllocError>
    requires few { length xs.now ≤ 8 }
    requires same { length ys.now ≡ length xs.now }
    requires few_terms { length terms.now ≤ 1430 }
    requires whole { All (λ term. length term.partner ≡ length xs.now + length xs.now) terms.now }
    ensures { OnOk result (nodes.new.items ≡ nodes.old.items ++ box_node group terms.now xs.now ys.now ∷ []) }
{
    let mut ends = Vec::from_slice(alloc, xs)?;
    ends.extend_from_slice(ys)?;
    let node = match Node::new(alloc, group, &ends, terms) {
        Ok(node) => node,
        Err(NodeFault::Long { .. }) => unreachable!(),
        Err(NodeFault::TooMany { .. }) => unreachable!(),
        Err(NodeFault::Ends { .. }) => unreachable!(),
        Err(NodeFault::Memory) => return Err(AllocError),
    };
    nodes.push(node)?;
    Ok(())
}

/// Puts a box on the strands of a label behind the nodes: strands 1 to n by the names of the first place, then strands n to 1, by
/// those of the second place where this has names of its own, and else by the same names.
pub(crate) fn push_strands_box(
    alloc: Global,
    colouring: &Colouring,
    group: u32,
    label: u32,
    own_names: bool,
    nodes: &mut Vec<Node>,
) -> Result<(), AllocError>
    requires ready { IsReady colouring.now }
    requires some { 2 ≤ colour_at colouring.now.edges.items label }
    requires low { label ≤ 2000000 }
    ensures { OnOk result (nodes.new.items ≡ nodes.old.items
        ++ strands_box colouring.now.params.now (colour_at colouring.now.edges.items label) group own_names label ∷ []) }
{
    let colour = colour_of(&colouring.edges, label);
    let first = first_names(alloc, colour, label)?;
    let second = second_names(alloc, colour, own_names, label)?;
    let terms = terms_of(colouring.params, &colouring.projectors, colour);
    push_box(alloc, group, terms, &first, &second, nodes)
}

/// Whether the label's edge has a box and its first place isn't among those before, where the labels `seen` stand.
fn has_box(edges: &[Edge], seen: &[u32], label: u32) -> bool
    ensures { result ≡ (boxed_at edges.now label && not (is_member ◌==◌ (reverse seen.now) label)) }
{
    is_boxed(edges, label) && !stands(seen, label)
}

/// Puts the boxes of the edges that have their first place at one of these slots behind the nodes, by increasing label;
/// `seen` are the labels at the places before. Where no projector was wanted there is none.
pub(crate) fn push_boxes(
    alloc: Global,
    colouring: &Colouring,
    group: u32,
    seen: &[u32],
    slots: &[u32],
    nodes: &mut Vec<Node>,
) -> Result<(), AllocError>
    requires ready { IsReady colouring.now }
    requires low { All (λ label. label ≤ 2000000) slots.now }
    ensures { OnOk result (nodes.new.items ≡ nodes.old.items ++ boxes_at (strands_in colouring.now) group (reverse seen.now) slots.now) }
{
    if colouring.projectors.is_empty() {
        return Ok(());
    }
    for label in &distinct_labels(alloc, slots)? {
        if has_box(&colouring.edges, seen, *label) {
            push_strands_box(alloc, colouring, group, *label, true, nodes)?;
        }
    }
    Ok(())
}
