//! The grid of a cabled crossing.

ghost use Rattle.std.specs.Prelude.{◌≡◌, ◌++◌, ◌≤◌, length, reverse, OnOk};
ghost use Rattle.cables.specs.CableNodes.{grid};

use crate::crossing::CrossingEnds;
use crate::names::{line_to, reversed, upright_names};
use crate::row::push_row;
use arc_pairing::Node;
use root_quantum::Params;
use std::alloc::{AllocError, Global};

/// Puts the grid of the crossing of item k behind the nodes, row by row.
pub(crate) fn push_grid(
    alloc: Global,
    params: &Params,
    group: u32,
    k: u32,
    ends: &CrossingEnds,
    nodes: &mut Vec<Node>,
) -> Result<(), AllocError>
    requires item { k ≤ 255 }
    requires some { 1 ≤ length ends.now.a.items }
    requires columns { length ends.now.a.items ≤ 8 }
    requires rows { length ends.now.b.items ≤ 8 }
    requires under { length ends.now.c.items ≡ length ends.now.a.items }
    requires over { length ends.now.d.items ≡ length ends.now.b.items }
    ensures { OnOk result (nodes.new.items ≡ nodes.old.items
        ++ grid params.now group k (length ends.now.a.items) 0 ends.now.a.items (reverse ends.now.d.items) ends.now.b.items (reverse ends.now.c.items)) }
{
    let u = ends.a.len() as u32;
    let wests = reversed(alloc, &ends.d)?;
    let mut bottoms = Vec::from_slice(alloc, &ends.a)?;
    for (i, east) in ends.b.iter().enumerate() {
        let tops = if i + 1 < ends.b.len() {
            upright_names(alloc, k, u, i as u32)?
        } else {
            reversed(alloc, &ends.c)?
        };
        let line = line_to(alloc, k, u, i as u32, *east)?;
        push_row(
            alloc, params, group, &bottoms, wests[i], &line, &tops, nodes,
        )?;
        bottoms = tops;
    }
    Ok(())
}
