//! Nodes with one term.

ghost use Rattle.std.specs.Prelude.{◌≡◌, ◌≤◌, ◌∷◌, [], length, IfOk};
ghost use Rattle.cables.specs.CableNodes.{through_node};

use arc_pairing::{Node, NodeFault, Pairing, Term};
use std::alloc::{AllocError, Global};
use temperley_lieb::straight;

/// The node with these ends, paired so with the weight 1.
pub(crate) fn one_term_node(
    alloc: Global,
    group: u32,
    ends: &[u32],
    pairing: Pairing,
) -> Result<Node, AllocError>
    requires few { length ends.now ≤ 24 }
    requires whole { length pairing ≡ length ends.now }
    ensures { IfOk result (λ node. node ≡ record { group = group; ends = ends.now; terms = record { weight = 1; partner = pairing } ∷ [] }) }
{
    let terms = [Term { weight: 1, pairing }];
    match Node::new(alloc, group, ends, &terms) {
        Ok(node) => Ok(node),
        Err(NodeFault::Long { .. }) => unreachable!(),
        Err(NodeFault::TooMany { .. }) => unreachable!(),
        Err(NodeFault::Ends { .. }) => unreachable!(),
        Err(NodeFault::Memory) => Err(AllocError),
    }
}

/// The node in which strands go straight through: the names xs are joined, strand by strand, with the names ys reversed.
pub(crate) fn through_node(
    alloc: Global,
    group: u32,
    xs: &[u32],
    ys: &[u32],
) -> Result<Node, AllocError>
    requires few { length xs.now ≤ 8 }
    requires same { length ys.now ≡ length xs.now }
    ensures { IfOk result (λ node. node ≡ through_node group xs.now ys.now) }
{
    let mut ends = Vec::from_slice(alloc, xs)?;
    ends.extend_from_slice(ys)?;
    one_term_node(alloc, group, &ends, straight(xs.len() as u32))
}
