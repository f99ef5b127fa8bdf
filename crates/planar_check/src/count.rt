//! How many parts, connected pieces and edges there are.

ghost use Rattle.std.specs.Prelude.{◌≡◌, ◌==◌, ◌<◌, ◌≤◌, length, slice_index, count_by, IfOk};
ghost use Rattle.std.specs.List.{All, range_with_len};
ghost use Rattle.graph_parts.specs.Parts.{part_count};
ghost use Rattle.planar_check.specs.Planar.{piece_edges, count_edges};

use part_labels::least_names;
use std::alloc::{AllocError, Global};

/// How many names are their own entry.
pub(crate) fn count_least(entries: &[usize]) -> usize
    ensures count { result ≡ count_by (λ x. slice_index entries.now x == x) (range_with_len 0 (length entries.now)) }
    ensures few { result ≤ length entries.now }
{
    let mut count = 0;
    for (name, least) in entries.iter().enumerate() {
        if *least == name {
            count += 1;
        }
    }
    count
}

/// How many parts the names below `names` make: each has one name that is the least of its part.
fn count_parts(alloc: Global, names: usize, edges: &[(usize, usize)]) -> Result<usize, AllocError>
    requires among { All (λ edge. (edge.0 < names) × (edge.1 < names)) edges.now }
    ensures count { IfOk result (λ count. count ≡ part_count (range_with_len 0 names) edges.now) }
    ensures few { IfOk result (λ count. count ≤ names) }
{
    let entries = least_names(alloc, names, edges)?;
    Ok(count_least(&entries))
}

/// How many connected pieces this many items make.
pub(crate) fn count_pieces(
    alloc: Global,
    items: usize,
    owners: &[usize],
    others: &[usize],
) -> Result<usize, AllocError>
    requires same_length { length owners.now ≡ length others.now }
    requires owners_in_range { All (λ owner. owner < items) owners.now }
    requires others_in_range { All (λ place. place < length others.now) others.now }
    ensures count { IfOk result (λ count. count ≡ part_count (range_with_len 0 items) (piece_edges owners.now others.now)) }
    ensures few { IfOk result (λ count. count ≤ items) }
{
    let mut edges = Vec::new(alloc);
    for place in 0..others.len() {
        edges.push((owners[place], owners[others[place]]))?;
    }
    count_parts(alloc, items, &edges)
}

/// How many edges there are: each is counted at the lesser of its places.
pub(crate) fn count_edges(others: &[usize]) -> usize
    ensures count { result ≡ count_edges others.now }
    ensures few { result ≤ length others.now }
{
    let mut count = 0;
    for (place, other) in others.iter().enumerate() {
        if place < *other {
            count += 1;
        }
    }
    count
}
