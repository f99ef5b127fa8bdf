//! Cabled crossings.

ghost use Rattle.std.specs.Prelude.{◌≡◌, ◌++◌, ◌≤◌, length, OnOk};
ghost use Rattle.cables.specs.CableNodes.{crossing_cable};

use crate::grid::push_grid;
use crate::through::through_node;
use arc_pairing::Node;
use root_quantum::Params;
use std::alloc::{AllocError, Global};

/// The names of the strands at the slots of a crossing `X[a,b,c,d]`, counterclockwise at each slot.
#[derive(Drop)]
pub struct CrossingEnds {
    /// At slot a, where the under strands enter.
    pub a: Vec<u32>,
    /// At slot b, of the over strands.
    pub b: Vec<u32>,
    /// At slot c, where the under strands leave.
    pub c: Vec<u32>,
    /// At slot d, of the over strands.
    pub d: Vec<u32>,
}

/// Puts the nodes of the crossing of item k, counted from 0, behind the others: a grid where both edges have strands, row
/// by row from the south, each row from the west; one node where one edge has none; nothing where neither has one.
///
/// An inner name of row i and column j, counted from 0, is 2^25 + 128 k + 8 i + j above the row, and 64 more within it.
/// The only error is want of memory.
pub fn push_crossing(
    alloc: Global,
    params: &Params,
    group: u32,
    k: u32,
    ends: &CrossingEnds,
    nodes: &mut Vec<Node>,
) -> Result<(), AllocError>
    requires item { k ≤ 255 }
    requires columns { length ends.now.a.items ≤ 8 }
    requires rows { length ends.now.b.items ≤ 8 }
    requires under { length ends.now.c.items ≡ length ends.now.a.items }
    requires over { length ends.now.d.items ≡ length ends.now.b.items }
    ensures { OnOk result (nodes.new.items
        ≡ nodes.old.items ++ crossing_cable params.now group k ends.now.a.items ends.now.b.items ends.now.c.items ends.now.d.items) }
{
    match (ends.a.is_empty(), ends.b.is_empty()) {
        (true, true) => Ok(()),
        (true, false) => {
            nodes.push(through_node(alloc, group, &ends.b, &ends.d)?)?;
            Ok(())
        }
        (false, true) => {
            nodes.push(through_node(alloc, group, &ends.a, &ends.c)?)?;
            Ok(())
        }
        (false, false) => push_grid(alloc, params, group, k, ends, nodes),
    }
}
