//! What a chooser sees.

ghost use Rattle.std.specs.Prelude.{◌≡◌, length};
ghost use Rattle.frontier_laws.specs.Views.{IsView};
ghost use Rattle.frontier_sweep.specs.Rises.{HasRises};
ghost use Rattle.frontier_sweep.specs.Groups.{IsGroupIndex};

use arc_pairing::Network;
use std::marker::Model;

/// What a chooser sees before each step: the network, the nodes still left, and the open names (this
/// project's own).
///
/// Contracts see a view as these three values. Its type keeps that each node left is below the number
/// of nodes, and that its names are those that stand once in the nodes that aren't left; and beside them how
/// many names more or fewer are open when each node left is taken, and where each group stands.
#[derive(Drop)]
pub struct View<'a> {
    network: &'a Network,
    left: &'a [u32],
    names: &'a [u32],
    rises: &'a [u8],
    groups: &'a [u64],
}

impl<'a> Model for View<'a> {
    ghost use Rattle.frontier_laws.specs.Orders;
    ghost use Rattle.frontier_laws.specs.Views.{IsView};
    ghost use Rattle.frontier_sweep.specs.Rises.{HasRises};
    ghost use Rattle.frontier_sweep.specs.Groups.{IsGroupIndex};

    ghost Value = { Orders.View };

    ghost view = { λ view. record { network = view.network.now; left = view.left.now; names = view.names.now } };

    ghost invariant = { λ view. IsView record { network = view.network.now; left = view.left.now; names = view.names.now }
        × HasRises record { network = view.network.now; left = view.left.now; names = view.names.now } view.rises.now
        × IsGroupIndex view.network.now.nodes view.groups.now };
}

impl<'a> View<'a> {
    /// The view of these.
    pub(crate) fn new(
        network: &'a Network,
        left: &'a [u32],
        names: &'a [u32],
        rises: &'a [u8],
        groups: &'a [u64],
    ) -> View<'a>
        requires view { IsView record { network = network.now; left = left.now; names = names.now } }
        requires rises { HasRises record { network = network.now; left = left.now; names = names.now } rises.now }
        requires groups { IsGroupIndex network.now.nodes groups.now }
        ensures { result ≡ record { network = network.now; left = left.now; names = names.now } }
    {
        View {
            network,
            left,
            names,
            rises,
            groups,
        }
    }

    /// The network. It takes no memory.
    pub fn network(&self) -> &Network
        ensures { result.now ≡ self.now.network }
    {
        self.network
    }

    /// The places of the nodes that are left, increasing, from 0. It takes no memory.
    pub fn left(&self) -> &[u32]
        ensures value { result.now ≡ self.now.left }
        ensures view { IsView self.now }
    {
        self.left
    }

    /// The open names, increasing. It takes no memory.
    pub fn names(&self) -> &[u32]
        ensures value { result.now ≡ self.now.names }
        ensures view { IsView self.now }
    {
        self.names
    }

    /// For each node left, at its place, how many names more are open when it is taken, plus 24.
    pub(crate) fn rises(&self) -> &[u8]
        ensures value { HasRises self.now result.now }
        ensures view { IsView self.now }
    {
        self.rises
    }

    /// For each node the number of its group and its place, increasing.
    pub(crate) fn groups(&self) -> &[u64]
        ensures value { IsGroupIndex self.now.network.nodes result.now }
        ensures view { IsView self.now }
    {
        self.groups
    }
}
