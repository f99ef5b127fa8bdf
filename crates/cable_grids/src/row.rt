//! A row of the grid of a cabled crossing.

ghost use Rattle.std.specs.Prelude.{◌≡◌, ◌++◌, length, OnOk};
ghost use Rattle.cables.specs.CableNodes.{row};

use arc_pairing::Node;
use diagram_brackets::crossing_node;
use root_quantum::Params;
use std::alloc::{AllocError, Global};

/// Puts the nodes of a row behind the others, from west to east. Each has the ends south, east, north and west: below it
/// stands a name of `bottoms`, east of it one of `line`, above it one of `tops`, and west of the first node `west`.
pub fn push_row(
    alloc: Global,
    params: &Params,
    group: u32,
    bottoms: &[u32],
    west: u32,
    line: &[u32],
    tops: &[u32],
    nodes: &mut Vec<Node>,
) -> Result<(), AllocError>
    requires bottoms { length bottoms.now ≡ length line.now }
    requires tops { length tops.now ≡ length line.now }
    ensures { OnOk result (nodes.new.items ≡ nodes.old.items ++ row params.now group bottoms.now west line.now tops.now) }
{
    let mut west = west;
    for (j, east) in line.iter().enumerate() {
        let node = crossing_node(alloc, params, group, &[bottoms[j], *east, tops[j], west])?;
        nodes.push(node)?;
        west = *east;
    }
    Ok(())
}
