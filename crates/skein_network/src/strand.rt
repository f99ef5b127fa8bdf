//! Names of strands at the places of an edge.

ghost use Rattle.std.specs.Prelude.{◌≡◌, ◌==◌, ◌≤◌, true, IfOk, reverse};
ghost use Rattle.std.specs.Set.{is_member};
ghost use Rattle.root_quantum.specs.Parameters.{Parameters};
ghost use Rattle.cables.specs.Strands.{first_names, second_names, names_at};
ghost use Rattle.skein_network.specs.Edges.{boxed_at, colour_at, strands_at};

use crate::edge::{Edge, colour_of, is_boxed};
use std::alloc::{AllocError, Global};

/// Whether the label stands in the list.
pub(crate) fn stands(labels: &[u32], label: u32) -> bool
    ensures { result ≡ is_member ◌==◌ labels.now label }
{
    for other in labels {
        if label == *other {
            return true;
        }
    }
    false
}

/// The names of n strands at the first place of a label, from strand 1 to strand n.
pub(crate) fn first_names(alloc: Global, n: u32, label: u32) -> Result<Vec<u32>, AllocError>
    requires few { n ≤ 8 }
    requires low { label ≤ 2000000 }
    ensures { IfOk result (λ names. names.items ≡ first_names n label) }
{
    let mut names = Vec::new(alloc);
    for j in 0..n {
        names.push(16 * label + 2 * j)?;
    }
    Ok(names)
}

/// The names of n strands at the second place of a label, from strand n to strand 1: other names where the edge has a box.
pub(crate) fn second_names(
    alloc: Global,
    n: u32,
    boxed: bool,
    label: u32,
) -> Result<Vec<u32>, AllocError>
    requires few { n ≤ 8 }
    requires low { label ≤ 2000000 }
    ensures { IfOk result (λ names. names.items ≡ second_names n boxed label) }
{
    let shift = if boxed { 1 } else { 0 };
    let mut names = Vec::new(alloc);
    for j in 0..n {
        names.push(16 * label + 2 * j + shift)?;
    }
    names.reverse();
    Ok(names)
}

/// The names at a place of the label, counterclockwise, where `seen` are the labels at the places before. At most one strand has
/// the same name at both places.
pub(crate) fn names_at(
    alloc: Global,
    edges: &[Edge],
    seen: &[u32],
    label: u32,
) -> Result<Vec<u32>, AllocError>
    requires few { colour_at edges.now label ≤ 8 }
    requires some { boxed_at edges.now label ≡ true → 2 ≤ colour_at edges.now label }
    requires low { label ≤ 2000000 }
    ensures { IfOk result (λ names. (p : Parameters) → names.items ≡ names_at (strands_at p edges.now) (reverse seen.now) label) }
{
    let colour = colour_of(edges, label);
    if colour < 2 {
        return first_names(alloc, colour, label);
    }
    if stands(seen, label) {
        second_names(alloc, colour, is_boxed(edges, label), label)
    } else {
        first_names(alloc, colour, label)
    }
}
