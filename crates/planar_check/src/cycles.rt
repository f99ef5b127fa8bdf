//! The cycles of places, each told by its least place: faces, and the walks straight on.

ghost use Rattle.std.specs.Prelude.{◌≡◌, ◌<◌, length, map, IfOk};
ghost use Rattle.std.specs.List.{All, range_with_len};
ghost use Rattle.graph_parts.specs.LeastNames.{least_name};
ghost use Rattle.planar_check.specs.Cycles.{next_on, way_edges};

use part_labels::least_names;
use std::alloc::{AllocError, Global};

/// The two ways on from a place.
#[derive(Clone, Copy)]
pub(crate) enum Way {
    /// Round a face: across the edge, and on to the next slot counterclockwise.
    Face,
    /// Straight on: to the opposite slot, and across the edge.
    Walk,
}

/// The place that follows on the way.
fn next_place(way: Way, after: &[usize], others: &[usize], place: usize) -> usize
    requires same_length { length after.now ≡ length others.now }
    requires after_in_range { All (λ place. place < length others.now) after.now }
    requires others_in_range { All (λ place. place < length others.now) others.now }
    requires place { place < length others.now }
    ensures { result ≡ next_on way after.now others.now place }
{
    match way {
        Way::Face => after[others[place]],
        Way::Walk => others[after[after[place]]],
    }
}

/// Each place with the one that follows it on the way.
fn way_edges(
    alloc: Global,
    way: Way,
    after: &[usize],
    others: &[usize],
) -> Result<Vec<(usize, usize)>, AllocError>
    requires same_length { length after.now ≡ length others.now }
    requires after_in_range { All (λ place. place < length others.now) after.now }
    requires others_in_range { All (λ place. place < length others.now) others.now }
    ensures edges { IfOk result (λ edges. edges.items ≡ way_edges way after.now others.now) }
    ensures among { IfOk result (λ edges. All (λ edge. (edge.0 < length others.now) × (edge.1 < length others.now)) edges.items) }
{
    let mut edges = Vec::new(alloc);
    for place in 0..others.len() {
        edges.push((place, next_place(way, after, others, place)))?;
    }
    Ok(edges)
}

/// For each place the least place of its face, or of the walk that enters there.
pub(crate) fn least_in_cycles(
    alloc: Global,
    way: Way,
    after: &[usize],
    others: &[usize],
) -> Result<Vec<usize>, AllocError>
    requires same_length { length after.now ≡ length others.now }
    requires after_in_range { All (λ place. place < length others.now) after.now }
    requires others_in_range { All (λ place. place < length others.now) others.now }
    ensures { IfOk result (λ least. least.items ≡
        map (least_name (range_with_len 0 (length others.now)) (way_edges way after.now others.now)) (range_with_len 0 (length others.now))) }
{
    let edges = way_edges(alloc, way, after, others)?;
    let least = least_names(alloc, others.len(), &edges)?;
    Ok(least)
}
