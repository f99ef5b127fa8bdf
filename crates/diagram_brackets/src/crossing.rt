//! The node of a crossing.

ghost use Rattle.std.specs.Prelude.{◌≡◌, IfOk};
ghost use Rattle.diagram_brackets.specs.Crossings.{crossing_node, joins_ab_cd, joins_ad_bc};

use arc_pairing::{Node, NodeFault, Pairing, Term};
use root_quantum::Params;
use std::alloc::{AllocError, Global};

/// The smoothing with arcs ab and cd.
fn joins_ab_cd() -> Pairing
    ensures { result ≡ joins_ab_cd }
{
    match Pairing::new(&[1, 0, 3, 2]) {
        Ok(pairing) => pairing,
        Err(_) => unreachable!(),
    }
}

/// The smoothing with arcs ad and bc.
fn joins_ad_bc() -> Pairing
    ensures { result ≡ joins_ad_bc }
{
    match Pairing::new(&[3, 2, 1, 0]) {
        Ok(pairing) => pairing,
        Err(_) => unreachable!(),
    }
}

/// The node of a crossing `X[a,b,c,d]` whose slots a, b, c, d have these names, in this order: A where ab and cd
/// are joined, A^-1 where ad and bc are. The only error is want of memory. (Lickorish, ch. 13.)
pub fn crossing_node(
    alloc: Global,
    params: &Params,
    group: u32,
    ends: &[u32; 4],
) -> Result<Node, AllocError>
    ensures { IfOk result (λ node. node ≡ crossing_node params.now group ends.now) }
{
    let [a, b, c, d] = *ends;
    let terms = [
        Term {
            weight: params.root(),
            pairing: joins_ab_cd(),
        },
        Term {
            weight: params.root_inverse(),
            pairing: joins_ad_bc(),
        },
    ];
    match Node::new(alloc, group, &[a, b, c, d], &terms) {
        Ok(node) => Ok(node),
        Err(NodeFault::Long { .. }) => unreachable!(),
        Err(NodeFault::TooMany { .. }) => unreachable!(),
        Err(NodeFault::Ends { .. }) => unreachable!(),
        Err(NodeFault::Memory) => Err(AllocError),
    }
}
