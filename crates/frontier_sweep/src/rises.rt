//! By how much the number of open names rises at each node, kept from step to step.

ghost use Rattle.std.specs.Prelude.{not, ◌&&◌, ◌≡◌, ◌≢◌, ◌<◌, ◌≤◌, ◌==◌, ℕ, List, [], true, length, IfOk};
ghost use Rattle.std.specs.List.{count_by};
ghost use Rattle.std.specs.Set.{is_member};
ghost use Rattle.list_lemmas.specs.Times.{times_in};
ghost use Rattle.frontier_laws.specs.Orders.{node_at};
ghost use Rattle.frontier_laws.specs.Rises.{opening, closing, rise};
ghost use Rattle.frontier_sweep.specs.Rises.{IsEndsIndex, IsRight, AreRises, IsAfter, IsRises};

use crate::ends_index::ends_index;
use crate::place_key::{first_from, place_key};
use arc_pairing::{MOST_NODES, MOST_POINTS, Network};
use list_lemmas::count_of;
use std::alloc::{AllocError, Global};
use std::marker::Model;

/// How many of the ends are none of the names, and stand once.
fn opening(names: &[u32], ends: &[u32]) -> usize
    ensures value { result ≡ opening names.now ends.now }
    ensures bound { result ≤ length ends.now }
{
    ends.iter()
        .filter(|end| !names.contains(*end) && count_of(ends, **end) == 1)
        .count()
}

/// How many of the ends are among the names.
fn closing(names: &[u32], ends: &[u32]) -> usize
    ensures value { result ≡ closing names.now ends.now }
    ensures bound { result ≤ length ends.now }
{
    ends.iter().filter(|end| names.contains(*end)).count()
}

/// By how much the number of open names rises when a node with these ends is taken, plus 24.
fn rise(names: &[u32], ends: &[u32]) -> u8
    requires { length ends.now ≤ MOST_POINTS }
    ensures { result ≡ rise names.now ends.now }
{
    (MOST_POINTS + opening(names, ends) - closing(names, ends)) as u8
}

/// Makes the rises right at all nodes that have that end, but for the one that was taken, where these names
/// are open.
fn refresh_at(
    each: &mut [u8],
    index: &[u64],
    network: &Network,
    names: &[u32],
    end: u32,
    taken: u32,
)
    requires index { IsEndsIndex network.now.nodes index.now }
    requires whole { length each.old ≡ length network.now.nodes }
    ensures whole { length each.new ≡ length network.now.nodes }
    ensures right { (place : ℕ) → place < length network.now.nodes → place ≢ taken → is_member ◌==◌ (node_at network.now.nodes place).ends end ≡ true → IsRight network.now.nodes names.now each.new place }
    ensures stays { (place : ℕ) → place < length network.now.nodes → IsRight network.now.nodes names.now each.old place → IsRight network.now.nodes names.now each.new place }
{
    let first = place_key(end, 0);
    let low = first_from(index, first);
    for at in low..index.len() {
        let key = index[at];
        if key >= first + MOST_NODES as u64 {
            break;
        }
        let place = key as usize % MOST_NODES;
        if place != taken as usize {
            each[place] = rise(names, network.nodes()[place].ends());
        }
    }
}

/// Makes the rises of all nodes left right after one with these ends was taken, where these names are open. An
/// end that isn't open afterwards no node left has.
fn refresh(
    each: &mut [u8],
    index: &[u64],
    network: &Network,
    names: &[u32],
    ends: &[u32],
    taken: u32,
)
    requires index { IsEndsIndex network.now.nodes index.now }
    requires whole { length each.old ≡ length network.now.nodes }
    ensures { (before left next : List ℕ) → AreRises network.now.nodes left before each.old → IsAfter network.now.nodes taken ends.now names.now before left next
        → AreRises network.now.nodes next names.now each.new }
{
    for end in ends {
        if names.contains(end) {
            refresh_at(each, index, network, names, *end, taken);
        }
    }
}

/// By how much the number of open names rises at each node, plus 24, and the numbers of all ends.
///
/// Contracts see both lists.
#[derive(Drop)]
pub(crate) struct Rises {
    each: Vec<u8>,
    index: Vec<u64>,
}

impl Model for Rises {
    ghost use Rattle.frontier_sweep.specs.Rises as Rises;

    ghost Value = { Rises.Rises };

    ghost view = { λ rises. record { each = rises.each.items; index = rises.index.items } };
}

/// The rises of all nodes where no name is open.
fn first_rises(alloc: Global, network: &Network) -> Result<Vec<u8>, AllocError>
    ensures { IfOk result (λ each. (left : List ℕ) → AreRises network.now.nodes left [] each.items) }
{
    let mut each = Vec::with_capacity(alloc, network.nodes().len())?;
    for node in network.nodes() {
        each.push(rise(&[], node.ends()))?;
    }
    Ok(each)
}

impl Rises {
    /// The rises where no name is open.
    pub(crate) fn start(alloc: Global, network: &Network) -> Result<Rises, AllocError>
        ensures { IfOk result (λ rises. (left : List ℕ) → IsRises network.now left [] rises) }
    {
        Ok(Rises {
            each: first_rises(alloc, network)?,
            index: ends_index(alloc, network)?,
        })
    }

    /// The rises, plus 24, by the places of the nodes.
    pub(crate) fn as_slice(&self) -> &[u8]
        ensures { result.now ≡ self.now.each }
    {
        &self.each
    }

    /// Makes them right after the node at that place was taken, whose ends these are: now these names are open.
    pub(crate) fn refresh(&mut self, network: &Network, names: &[u32], ends: &[u32], taken: u32)
        requires index { IsEndsIndex network.now.nodes self.old.index }
        requires whole { length self.old.each ≡ length network.now.nodes }
        ensures { (before left next : List ℕ) → IsRises network.now left before self.old → IsAfter network.now.nodes taken ends.now names.now before left next
            → IsRises network.now next names.now self.new }
    {
        refresh(&mut self.each, &self.index, network, names, ends, taken);
    }
}
