//! The sum over all states.

ghost use Rattle.std.specs.Prelude.{◌≡◌, ◌<◌, ◌≤◌, ◌+◌, ◌^◌, ◌%◌, ◌++◌, ℕ, IfOk, OnOk, length, drop};
ghost use Rattle.std.specs.List.{All};
ghost use Rattle.state_sums.specs.Networks.{names_of, WeightsBelow};
ghost use Rattle.state_sums.specs.StateSums.{value};
ghost use Rattle.arc_pairing.specs.Nodes.{IsShortNode};
ghost use Rattle.plain_sum.specs.Places.{named, AreWithin, placed};
ghost use Rattle.plain_sum.specs.Sums.{sum_behind};

use crate::parts::count_parts;
use arc_pairing::{Network, Node};
use residue_ring::Ring;
use std::alloc::{AllocError, Global};

/// The edges so far, and those of a pairing of the places from `start` on.
fn edges_behind(
    alloc: Global,
    edges: &[(usize, usize)],
    start: usize,
    partners: &[u8],
) -> Result<Vec<(usize, usize)>, AllocError>
    requires room { start + length partners.now < 2 ^ 64 }
    requires within { All (λ partner. partner < length partners.now) partners.now }
    ensures { IfOk result (λ more. more.items ≡ edges.now ++ placed start partners.now) }
{
    let mut more = Vec::from_slice(alloc, edges)?;
    for place in 0..partners.len() {
        more.push((start + place, start + usize::from(partners[place])))?;
    }
    Ok(more)
}

/// What every call of the recursion shares: the ring, the value of a loop, the names of all ends, and
/// the number of free loops.
#[derive(Clone, Copy)]
struct Setting<'a> {
    ring: &'a Ring,
    delta: u64,
    names: &'a [u32],
    free: u32,
}

/// The sum over the states of the nodes, whose ends stand from the place `start` on, behind the edges so far.
fn sum_behind(
    alloc: Global,
    setting: Setting,
    nodes: &[Node],
    start: usize,
    edges: &[(usize, usize)],
) -> Result<u64, AllocError>
    requires delta { setting.delta < setting.ring.now }
    requires few { length setting.names.now + setting.free < 2 ^ 63 }
    requires names { drop start setting.names.now ≡ names_of nodes.now }
    requires place { start ≤ length setting.names.now }
    requires nodes { All IsShortNode nodes.now }
    requires weights { WeightsBelow setting.ring.now nodes.now }
    requires edges { AreWithin setting.names.now edges.now }
    ensures value { IfOk result (λ sum. sum ≡ sum_behind setting.entry.delta setting.entry.names.now setting.entry.free nodes.now (named setting.entry.names.now edges.now) % setting.entry.ring.now) }
    ensures below { IfOk result (λ sum. sum < setting.entry.ring.now) }
{
    let ring = setting.ring;
    if nodes.is_empty() {
        let parts = count_parts(alloc, setting.names, edges)?;
        return Ok(ring.pow(setting.delta, parts as u64 + u64::from(setting.free)));
    }
    let node = &nodes[0];
    let next = start + node.ends().len();
    let mut sum = 0;
    for term in node.terms() {
        let more = edges_behind(alloc, edges, start, term.pairing.partners())?;
        let inner = sum_behind(alloc, setting, &nodes[1..], next, &more)?;
        sum = ring.add(sum, ring.mul(term.weight, inner));
    }
    Ok(sum)
}

/// The value of the network over residues of `ring`, where a loop is worth `delta`: the sum over all
/// its states, each gone through (Lickorish, ch. 13).
///
/// `delta` and all weights are below the modulus. The only error is want of memory. The time grows as
/// the number of states, so networks of more than about twenty crossings are out of reach.
pub fn plain_sum(
    alloc: Global,
    ring: &Ring,
    delta: u64,
    network: &Network,
) -> Result<u64, AllocError>
    requires delta { delta < ring.now }
    requires weights { WeightsBelow ring.now network.now.nodes }
    ensures value { IfOk result (λ sum. sum ≡ value ring.now delta network.now) }
    ensures below { IfOk result (λ sum. sum < ring.now) }
{
    let names = network.names(alloc)?;
    let setting = Setting {
        ring,
        delta,
        names: &names,
        free: network.free(),
    };
    let sum = sum_behind(alloc, setting, network.nodes(), 0, &[])?;
    Ok(sum)
}
