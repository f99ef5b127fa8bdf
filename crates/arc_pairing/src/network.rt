//! Networks.

ghost use Rattle.std.specs.Prelude.{◌≡◌, ◌≢◌, ◌*◌, ◌<◌, ◌≤◌, ◌↔◌, ℕ, length, IfOk, OnOk};
ghost use Rattle.std.specs.List.{All};
ghost use Rattle.state_sums.specs.Networks.{names_of};
ghost use Rattle.arc_pairing.specs.Counts.{StandsTwice, IsLeastMiscount};
ghost use Rattle.arc_pairing.specs.Nodes.{IsShortNode, IsSmallNetwork};

use crate::fault::NetworkFault;
use crate::limits::{MOST_FREE_LOOPS, MOST_NODES, MOST_POINTS};
use crate::names::least_miscount;
use crate::node::Node;
use std::alloc::{AllocError, Global};
use std::marker::Model;

/// At most 65,536 nodes in which each name stands exactly twice, and at most 256 free loops.
///
/// Contracts see a network as the list of its nodes and the number of its free loops; `IsNetwork`
/// says what each keeps.
#[derive(Drop)]
pub struct Network {
    nodes: Vec<Node>,
    free: u32,
}

impl Model for Network {
    ghost use Rattle.state_sums.specs.Networks;
    ghost use Rattle.arc_pairing.specs.Nodes.{IsSmallNetwork};

    ghost Value = { Networks.Network };

    ghost view = { λ network. record { nodes = network.nodes.items; free_loops = network.free } };

    ghost invariant = { λ network. IsSmallNetwork record { nodes = network.nodes.items; free_loops = network.free } };
}

/// The names of all ends, in order.
fn all_names(alloc: Global, nodes: &[Node]) -> Result<Vec<u32>, AllocError>
    ensures value { IfOk result (λ names. names.items ≡ names_of nodes.now) }
    ensures nodes { OnOk result (All IsShortNode nodes.now) }
    ensures few { IfOk result (λ names. length names.items ≤ MOST_POINTS * length nodes.now) }
{
    let mut names = Vec::new(alloc);
    for node in nodes {
        names.extend_from_slice(node.ends())?;
    }
    Ok(names)
}

/// Whether each name stands exactly twice over at most 65,536 nodes, or the least one that doesn't.
fn check_names(alloc: Global, nodes: &[Node]) -> Result<(), NetworkFault>
    requires { length nodes.now ≤ MOST_NODES }
    ensures twice { OnOk result ((x : ℕ) → StandsTwice (names_of nodes.now) x) }
    ensures nodes { OnOk result (All IsShortNode nodes.now) }
    ensures name { (name count : ℕ) → result ≡ Err (NetworkFault.Name name count) → IsLeastMiscount (names_of nodes.now) name count }
    ensures no_limit { (limit : ℕ) → result ≢ Err (NetworkFault.TooMany limit) }
{
    let mut names = all_names(alloc, nodes)?;
    names.sort_unstable();
    match least_miscount(&names) {
        Some((name, count)) => Err(NetworkFault::Name {
            name,
            count: count as u32,
        }),
        None => Ok(()),
    }
}

impl Network {
    /// The network of these nodes and so many free loops, at most 256.
    ///
    /// `TooMany` holds 65,536 and comes exactly past as many nodes, then `Name` holds the least name
    /// that doesn't stand twice over all nodes, and how often it stands. `Memory` is want of memory.
    pub fn new(alloc: Global, nodes: Vec<Node>, free: u32) -> Result<Network, NetworkFault>
        requires { free ≤ MOST_FREE_LOOPS }
        ensures made { IfOk result (λ network. network ≡ record { nodes = nodes.items; free_loops = free }) }
        ensures twice { OnOk result ((x : ℕ) → StandsTwice (names_of nodes.items) x) }
        ensures too_many { (limit : ℕ) → (result ≡ Err (NetworkFault.TooMany limit)) ↔ (MOST_NODES < length nodes.items) × (limit ≡ MOST_NODES) }
        ensures name { (name count : ℕ) → result ≡ Err (NetworkFault.Name name count) → IsLeastMiscount (names_of nodes.items) name count }
    {
        if nodes.len() > MOST_NODES {
            return Err(NetworkFault::TooMany {
                limit: MOST_NODES as u32,
            });
        }
        check_names(alloc, &nodes)?;
        Ok(Network { nodes, free })
    }

    /// The nodes, in order. It takes no memory.
    #[inline]
    pub fn nodes(&self) -> &[Node]
        ensures value { result.now ≡ self.now.nodes }
        ensures network { IsSmallNetwork self.now }
    {
        &self.nodes
    }

    /// The names of all ends, in order, each as often as it stands.
    pub fn names(&self, alloc: Global) -> Result<Vec<u32>, AllocError>
        ensures value { IfOk result (λ names. names.items ≡ names_of self.now.nodes) }
        ensures nodes { OnOk result (All IsShortNode self.now.nodes) }
        ensures few { IfOk result (λ names. length names.items ≤ MOST_POINTS * length self.now.nodes) }
    {
        all_names(alloc, &self.nodes)
    }

    /// The number of free loops, at most 256. It takes no memory.
    pub fn free(&self) -> u32
        ensures value { result ≡ self.now.free_loops }
        ensures network { IsSmallNetwork self.now }
    {
        self.free
    }
}
