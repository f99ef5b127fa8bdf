//! Numbers that stand for a name or a group at a node, kept in increasing lists.

ghost use Rattle.std.specs.Prelude.{◌≡◌, ◌<◌, ◌≤◌, ℕ, length, slice_index};
ghost use Rattle.std.specs.List.Sorted.{IsNonDecreasing};
ghost use Rattle.frontier_sweep.specs.Rises.{place_key};

use arc_pairing::MOST_NODES;

/// The number that stands for a name or a group at the node of that place: it times 65,536, plus the place.
pub(crate) fn place_key(number: u32, place: u32) -> u64
    requires { place < MOST_NODES }
    ensures { result ≡ place_key number place }
{
    u64::from(number) * MOST_NODES as u64 + u64::from(place)
}

/// The first place of an increasing list whose number is at least that.
pub(crate) fn first_from(index: &[u64], key: u64) -> usize
    requires { IsNonDecreasing index.now }
    ensures bound { result ≤ length index.now }
    ensures before { (k : ℕ) → k < result → slice_index index.now k < key }
    ensures behind { (k : ℕ) → result ≤ k → k < length index.now → key ≤ slice_index index.now k }
{
    index.partition_point(|other| *other < key)
}
