//! The least name of each part.

ghost use Rattle.graph_parts.specs.LeastNames.{least_name};
ghost use Rattle.std.specs.List.{All, range_with_len};
ghost use Rattle.std.specs.Prelude.{ℕ, ◌≡◌, ◌<◌, map, IfOk};

use crate::forest::label_parts;
use std::alloc::{AllocError, Global};

/// For each name below `names`, in order, the least name of its part.
///
/// The names are the numbers from 0 to `names - 1`, and each edge is between two of them. Two names are in one part
/// exactly where their entries are the same, and a name is the least of its part where its entry is the name itself.
/// For the names 0 to 4 with the edges (3,1) and (4,3) the entries are 0, 1, 2, 1, 1. The only error is want of memory.
///
/// Union-find with the least name as the root and ways that are halved (Tarjan), in near-linear time.
pub fn least_names(
    alloc: Global,
    names: usize,
    edges: &[(usize, usize)],
) -> Result<Vec<usize>, AllocError>
    requires among { All (λ edge. (edge.0 < names) × (edge.1 < names)) edges.now }
    ensures least { IfOk result (λ entries. entries.items ≡
        map (least_name (range_with_len 0 names) edges.now) (range_with_len 0 names)) }
{
    let mut parents = count_up(alloc, names)?;
    label_parts(&mut parents, edges);
    Ok(parents)
}

// The numbers below `names`, in order.
fn count_up(alloc: Global, names: usize) -> Result<Vec<usize>, AllocError>
    ensures { IfOk result (λ numbers. numbers.items ≡ range_with_len 0 names) }
{
    let mut numbers = Vec::new(alloc);
    for number in 0..names {
        numbers.push(number)?;
    }
    Ok(numbers)
}
