//! What the nodes of items are made with.

ghost use Rattle.std.specs.Prelude.{◌≡◌, ◌+◌, ◌≤◌, length};
ghost use Rattle.std.specs.List.{All};
ghost use Rattle.cables.specs.Nets.{projector_of};
ghost use Rattle.skein_network.specs.Colourings.{IsReady, Holds, projector_in};

use crate::edge::Edge;
use arc_pairing::Term;
use root_quantum::Params;
use wenzl_table::{Found, Projector};

/// The colours of the edges, with a projector for each colour of a box.
#[derive(Drop)]
pub(crate) struct Colouring<'a> {
    /// The parameters, whose A stands at crossings.
    pub params: &'a Params,
    /// The edges.
    pub edges: Vec<Edge>,
    /// A projector for each colour of a box.
    pub projectors: Vec<Found<'a>>,
}

/// The projector that was found.
fn projector_in<'a>(found: &'a Found) -> &'a Projector
    ensures { result.now ≡ projector_in found.now }
{
    match found {
        Found::Shared(projector) => *projector,
        Found::Own(projector) => projector,
    }
}

/// The terms of the projector on n strands, which is among these.
pub(crate) fn terms_of<'a>(params: &Params, projectors: &'a [Found], n: u32) -> &'a [Term]
    requires same { All (λ found. (projector_in found).params ≡ params.now) projectors.now }
    requires held { Holds projectors.now n }
    ensures value { result.now ≡ projector_of params.now n }
    ensures few { length result.now ≤ 1430 }
    ensures whole { All (λ term. length term.partner ≡ n + n) result.now }
{
    for found in projectors {
        let projector = projector_in(found);
        if projector.colour() == n {
            return projector.element().terms();
        }
    }
    unreachable!()
}
