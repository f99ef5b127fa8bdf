//! What a contraction keeps between two steps.

ghost use Rattle.std.specs.Prelude.{◌≡◌, ◌<◌, ◌≤◌, ◌*◌, ◌^◌, ◌%◌, ◌==◌, ◌++◌, ◌∷◌, ℕ, List, [], length, slice_index, true, IfOk, IfErr, OnOk};
ghost use Rattle.std.specs.List.{All, range_with_len};
ghost use Rattle.std.specs.Map.{lookup};
ghost use Rattle.std.specs.Option.{unwrap_or};
ghost use Rattle.std.specs.Set.{is_member};
ghost use Rattle.state_sums.specs.Networks.{WeightsBelow};
ghost use Rattle.frontier_laws.specs.Views.{IsView};
ghost use Rattle.frontier_sweep.specs.Rises.{HasRises};
ghost use Rattle.frontier_sweep.specs.Groups.{IsGroupIndex};
ghost use Rattle.frontier_sweep.specs.Frontiers.{IsFirst, IsFrontier, IsLimitAfter};

use crate::fault::NotGlued;
use crate::groups::group_index;
use crate::places::increasing;
use crate::powers::LoopPowers;
use crate::rises::Rises;
use crate::step::glue_node;
use crate::tables::Tables;
use crate::view::View;
use arc_pairing::{MOST_NODES, MOST_POINTS, Network, Turns};
use arrayvec::ArrayVec;
use std::alloc::{AllocError, Global};
use std::marker::Model;

/// The places of the nodes that are left, increasing, the open names, increasing, the same in the places that they
/// keep, the table of the pairings of these, by how much their number rises at each node, and where each group
/// stands.
#[derive(Drop)]
pub(crate) struct Frontier {
    left: Vec<u32>,
    names: ArrayVec<u32, MOST_POINTS>,
    places: ArrayVec<u32, MOST_POINTS>,
    tables: Tables,
    rises: Rises,
    groups: Vec<u64>,
}

impl Model for Frontier {
    ghost use Rattle.frontier_sweep.specs.Frontiers;

    ghost Value = { Frontiers.Frontier };

    ghost view = { λ frontier. record { left = frontier.left.items; names = frontier.names.items; places = frontier.places.items; table = frontier.tables; rises = frontier.rises; groups = frontier.groups.items } };
}

/// The places from 0 on, so many.
fn places(alloc: Global, count: usize) -> Result<Vec<u32>, AllocError>
    requires { count ≤ MOST_NODES }
    ensures { IfOk result (λ places. places.items ≡ range_with_len 0 count) }
{
    let mut places = Vec::with_capacity(alloc, count)?;
    for place in 0..count {
        places.push(place as u32)?;
    }
    Ok(places)
}

/// Where the place stands among the places, of which it is one.
fn index_of(places: &[u32], place: u32) -> usize
    requires { is_member ◌==◌ places.now place ≡ true }
    ensures within { result < length places.now }
    ensures place { slice_index places.now result ≡ place }
{
    for (index, other) in places.iter().enumerate() {
        if *other == place {
            return index;
        }
    }
    places.len()
}

impl Frontier {
    /// What is kept before the first step.
    pub(crate) fn start(alloc: Global, network: &Network) -> Result<Frontier, AllocError>
        ensures { IfOk result (IsFirst network.now) }
    {
        let left = places(alloc, network.nodes().len())?;
        let tables = Tables::of_none(alloc)?;
        let rises = Rises::start(alloc, network)?;
        let groups = group_index(alloc, network)?;
        Ok(Frontier {
            left,
            names: ArrayVec::new(),
            places: ArrayVec::new(),
            tables,
            rises,
            groups,
        })
    }

    /// What a chooser sees.
    pub(crate) fn view<'a>(&'a self, network: &'a Network) -> View<'a>
        requires view { IsView record { network = network.now; left = self.now.left; names = self.now.names } }
        requires rises { HasRises record { network = network.now; left = self.now.left; names = self.now.names } self.now.rises.each }
        requires groups { IsGroupIndex network.now.nodes self.now.groups }
        ensures { result ≡ record { network = network.now; left = self.now.left; names = self.now.names } }
    {
        View::new(
            network,
            &self.left,
            self.names.as_slice(),
            self.rises.as_slice(),
            &self.groups,
        )
    }

    /// Takes the node at that place, which is left.
    pub(crate) fn advance(
        &mut self,
        powers: &LoopPowers,
        network: &Network,
        place: u32,
        turns: &mut Turns,
    ) -> Result<(), NotGlued>
        requires weights { WeightsBelow powers.now.modulus network.now.nodes }
        requires some { 0 < powers.now.modulus }
        requires frontier { (order : List ℕ) × IsFrontier powers.now.modulus powers.now.delta network.now order self.old turns.old }
        requires left { is_member ◌==◌ self.old.left place ≡ true }
        ensures after { (order : List ℕ) → IsFrontier powers.now.modulus powers.now.delta network.now order self.old turns.old
            → OnOk result (IsFrontier powers.now.modulus powers.now.delta network.now (order ++ place ∷ []) self.new turns.new) }
        ensures refused { (order : List ℕ) → IsFrontier powers.now.modulus powers.now.delta network.now order self.old turns.old
            → IfErr result (IsLimitAfter network.now (order ++ place ∷ [])) }
    {
        let node = &network.nodes()[place as usize];
        let names = self.places.as_slice();
        let seam = glue_node(powers, names, node, &mut self.tables, turns)?;
        self.places = seam.into_names();
        self.names = increasing(self.places.as_slice());
        self.rises
            .refresh(network, self.names.as_slice(), node.ends(), place);
        let index = index_of(&self.left, place);
        self.left.remove(index);
        Ok(())
    }

    /// The coefficient of the pairing of no points, times delta to the power of so many free loops.
    pub(crate) fn value(&self, powers: &LoopPowers, free: u32) -> u64
        requires some { 0 < powers.now.modulus }
        requires below { All (λ entry. entry.1 < powers.now.modulus) self.now.table }
        ensures { result ≡ unwrap_or (lookup (◌==◌ 0) self.now.table) 0 * powers.now.delta ^ free % powers.now.modulus }
    {
        powers.with_free_loops(self.tables.coefficient(0), free)
    }
}
