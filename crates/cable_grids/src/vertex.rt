//! Cabled vertices (Kauffman and Lins).

ghost use Rattle.std.specs.Prelude.{◌≡◌, ◌++◌, ◌+◌, ◌*◌, ◌<◌, ◌≤◌, length, OnOk};
ghost use Rattle.cables.specs.CableNodes.{vertex_point, vertex_partner, vertex_cable};
ghost use Rattle.cables.specs.Cables.{IsAdmissible};

use crate::through::one_term_node;
use arc_pairing::{Node, Pairing};
use arrayvec::ArrayVec;
use std::alloc::{AllocError, Global};

/// The partner of place i, where so many strands go from x to y, from y to z and from z to x.
fn vertex_point(xy: u8, yz: u8, zx: u8, i: u8) -> u8
    requires few { xy + yz + zx ≤ 12 }
    requires in_range { i < 2 * (xy + yz + zx) }
    ensures { result ≡ vertex_point xy yz zx i }
{
    if i < zx {
        2 * (xy + yz + zx) - 1 - i
    } else if i < zx + 2 * xy {
        2 * (zx + xy) - 1 - i
    } else if i < zx + 2 * xy + 2 * yz {
        2 * (zx + 2 * xy + yz) - 1 - i
    } else {
        2 * (xy + yz + zx) - 1 - i
    }
}

/// The pairs of a vertex, where so many strands go from x to y, from y to z and from z to x.
fn vertex_pairing(xy: u8, yz: u8, zx: u8) -> Pairing
    requires few { xy + yz + zx ≤ 12 }
    ensures { result ≡ vertex_partner xy yz zx }
{
    let mut partners: ArrayVec<u8, 24> = ArrayVec::new();
    for at in 0..2 * (xy + yz + zx) {
        partners.push(vertex_point(xy, yz, zx, at));
    }
    Pairing::new(partners.as_slice()).unwrap()
}

/// The names of the strands at the edges of a vertex `Y[x,y,z]`, counterclockwise at each edge.
#[derive(Drop)]
pub struct VertexEnds {
    /// At the first edge.
    pub x: Vec<u32>,
    /// At the second edge.
    pub y: Vec<u32>,
    /// At the third edge.
    pub z: Vec<u32>,
}

/// Puts the node of a vertex behind the others, and nothing where no edge has a strand. For colours a, b and c it joins
/// (a+b-c)/2 strands of x and y, (b+c-a)/2 of y and z, and (c+a-b)/2 of z and x, each time the last ones of the one edge
/// with the first ones of the next. The only error is want of memory.
pub fn push_vertex(
    alloc: Global,
    group: u32,
    ends: &VertexEnds,
    nodes: &mut Vec<Node>,
) -> Result<(), AllocError>
    requires first { length ends.now.x.items ≤ 8 }
    requires second { length ends.now.y.items ≤ 8 }
    requires third { length ends.now.z.items ≤ 8 }
    requires admissible { IsAdmissible (length ends.now.x.items) (length ends.now.y.items) (length ends.now.z.items) }
    ensures { OnOk result (nodes.new.items ≡ nodes.old.items ++ vertex_cable group ends.now.x.items ends.now.y.items ends.now.z.items) }
{
    let VertexEnds { x, y, z } = ends;
    if x.is_empty() && y.is_empty() && z.is_empty() {
        return Ok(());
    }
    let a = x.len() as u8;
    let b = y.len() as u8;
    let c = z.len() as u8;
    let mut names = Vec::from_slice(alloc, x)?;
    names.extend_from_slice(y)?;
    names.extend_from_slice(z)?;
    let pairing = vertex_pairing((a + b - c) / 2, (b + c - a) / 2, (c + a - b) / 2);
    nodes.push(one_term_node(alloc, group, &names, pairing)?)?;
    Ok(())
}
