//! What is known of the edges.

ghost use Rattle.std.specs.Prelude.{◌≡◌};
ghost use Rattle.skein_network.specs.Edges.{colour_at, boxed_at};

/// A label, its colour, and whether its edge has a box.
#[derive(Clone, Copy)]
pub(crate) struct Edge {
    /// The label.
    pub label: u32,
    /// The colour, which is the number of strands.
    pub colour: u32,
    /// Whether the edge has a box, which stands at its first place.
    pub boxed: bool,
}

/// The colour of the label. A label that isn't listed has no strand: 0.
pub(crate) fn colour_of(edges: &[Edge], label: u32) -> u32
    ensures { result ≡ colour_at edges.now label }
{
    for edge in edges {
        if edge.label == label {
            return edge.colour;
        }
    }
    0
}

/// Whether the label's edge has a box.
pub(crate) fn is_boxed(edges: &[Edge], label: u32) -> bool
    ensures { result ≡ boxed_at edges.now label }
{
    for edge in edges {
        if edge.label == label {
            return edge.boxed;
        }
    }
    false
}
