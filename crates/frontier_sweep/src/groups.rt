//! Where each group stands in a network, and the first nodes left of some.

ghost use Rattle.std.specs.Prelude.{◌≡◌, ◌≢◌, ◌<◌, ◌≤◌, ◌==◌, ◌%◌, ℕ, [], None, false, true, length, slice_index, IfOk, IfSome};
ghost use Rattle.std.specs.List.Sorted.{IsStrictlyIncreasing};
ghost use Rattle.std.specs.Set.{is_member};
ghost use Rattle.frontier_laws.specs.Views.{IsView};
ghost use Rattle.frontier_sweep.specs.Groups.{IsGroupIndex, IsFirstLeft, IsFirstOf, IsFirstOfAll, group_at};

use crate::place_key::{first_from, place_key};
use crate::view::View;
use arc_pairing::{MOST_NODES, Network};
use std::alloc::{AllocError, Global};

/// For each node the number of its group and its place, increasing.
pub(crate) fn group_index(alloc: Global, network: &Network) -> Result<Vec<u64>, AllocError>
    ensures { IfOk result (λ index. IsGroupIndex network.now.nodes index.items) }
{
    let mut index = Vec::with_capacity(alloc, network.nodes().len())?;
    for (place, node) in network.nodes().iter().enumerate() {
        index.push(place_key(node.group(), place as u32))?;
    }
    index.sort_unstable();
    Ok(index)
}

/// Whether the place is one of the places left.
fn is_left(left: &[u32], place: u32) -> bool
    requires { IsStrictlyIncreasing left.now }
    ensures { result ≡ is_member ◌==◌ left.now place }
{
    left.binary_search(&place).is_ok()
}

/// Of the places that the index names from `low` on below `high`, the first one left.
fn first_left(left: &[u32], index: &[u64], low: usize, high: usize) -> Option<u32>
    requires increasing { IsStrictlyIncreasing left.now }
    requires within { high ≤ length index.now }
    ensures first { IfSome result (IsFirstLeft left.now index.now low high) }
    ensures none { result ≡ None → (k : ℕ) → low ≤ k → k < high → is_member ◌==◌ left.now (slice_index index.now k % MOST_NODES) ≡ false }
{
    for at in low..high {
        let place = (index[at] % MOST_NODES as u64) as u32;
        if is_left(left, place) {
            return Some(place);
        }
    }
    None
}

/// The least place left of that group.
pub(crate) fn first_of_group(view: &View, group: u32) -> Option<u32>
    ensures first { IfSome result (IsFirstOf view.now group) }
    ensures none { result ≡ None → (other : ℕ) → is_member ◌==◌ view.now.left other ≡ true → group_at view.now other ≢ group }
    ensures view { IsView view.now }
{
    let index = view.groups();
    let first = place_key(group, 0);
    let low = first_from(index, first);
    let high = first_from(index, first + MOST_NODES as u64);
    first_left(view.left(), index, low, high)
}

/// The least place left of the least group left. A node is left.
pub(crate) fn first_of_all(view: &View) -> u32
    requires { view.now.left ≢ [] }
    ensures first { IsFirstOfAll view.now result }
    ensures view { IsView view.now }
{
    let index = view.groups();
    match first_left(view.left(), index, 0, index.len()) {
        Some(place) => place,
        None => unreachable!(),
    }
}
