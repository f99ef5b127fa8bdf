//! How many parts edges make of names, by relabelling.

ghost use Rattle.std.specs.Prelude.{◌≡◌, ◌≤◌, ◌==◌, IfOk, length, map};
ghost use Rattle.std.specs.Set.{distinct_count};
ghost use Rattle.graph_parts.specs.Renaming.{replaced};
ghost use Rattle.graph_parts.specs.Parts.{part_count};
ghost use Rattle.plain_sum.specs.Places.{named, AreWithin};

use std::alloc::{AllocError, Global};

/// Writes `to` over each `from`.
fn replace_labels(labels: &mut [u32], from: u32, to: u32)
    ensures { labels.new ≡ map (replaced from to) labels.old }
{
    for label in labels.iter_mut() {
        if *label == from {
            *label = to;
        }
    }
}

/// How many different labels there are.
fn distinct(labels: &[u32]) -> usize
    ensures value { result ≡ distinct_count ◌==◌ labels.now }
    ensures few { result ≤ length labels.now }
{
    let mut count = 0;
    for at in 0..labels.len() {
        if !labels[at + 1..].contains(&labels[at]) {
            count += 1;
        }
    }
    count
}

/// How many parts the edges make of the names. An edge is between two places of the list.
pub(crate) fn count_parts(
    alloc: Global,
    names: &[u32],
    edges: &[(usize, usize)],
) -> Result<usize, AllocError>
    requires { AreWithin names.now edges.now }
    ensures value { IfOk result (λ parts. parts ≡ part_count names.now (named names.now edges.now)) }
    ensures few { IfOk result (λ parts. parts ≤ length names.now) }
{
    let mut labels = Vec::from_slice(alloc, names)?;
    for edge in edges {
        let from = labels[edge.0];
        let to = labels[edge.1];
        replace_labels(labels.as_mut_slice(), from, to);
    }
    Ok(distinct(&labels))
}
