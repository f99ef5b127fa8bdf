//! Cables of nets.

ghost use Rattle.std.specs.Prelude.{◌≡◌, ◌⊎◌, ◌==◌, ◌≤◌, ◌<◌, ℕ, None, Some, length, nat_le, slice_index, OnOk, IfOk, IfErr};
ghost use Rattle.std.specs.List.{Contains};
ghost use Rattle.state_sums.specs.Networks.{WeightsBelow};
ghost use Rattle.planar_check.specs.Components.{greatest};
ghost use Rattle.wenzl_table.specs.Inverses.{IsFirstCommon};
ghost use Rattle.wenzl_table.specs.Tables.{IsOf, Keeps, Knows};
ghost use Rattle.cables.specs.Nets.{cabled_net};
ghost use Rattle.skein_network.specs.Edges.{edges_of};
ghost use Rattle.skein_network.specs.Refusals.{net_labels, net_colour, net_refusal, IsNoInverse};

use crate::coloured::cable_coloured;
use crate::colours::check_colours;
use crate::edge::Edge;
use crate::fault::CableFault;
use crate::fit::check_fit;
use arc_pairing::Network;
use pd_reader::labels;
use planar_check::{PlanarNet, distinct_labels};
use std::alloc::{AllocError, Global};
use wenzl_table::{Notes, Table};

/// The edges with these labels and colours, each with a box where its colour is at least 2.
fn net_edges(alloc: Global, names: &[u32], colours: &[u32]) -> Result<Vec<Edge>, AllocError>
    requires { length names.now ≡ length colours.now }
    ensures { IfOk result (λ edges. edges.items ≡ edges_of names.now colours.now) }
{
    let mut edges = Vec::with_capacity(alloc, names.len())?;
    for (i, label) in names.iter().enumerate() {
        edges.push(Edge {
            label: *label,
            colour: colours[i],
            boxed: colours[i] >= 2,
        })?;
    }
    Ok(edges)
}

/// The labels of a net, each once, increasing.
fn net_labels(alloc: Global, net: &PlanarNet) -> Result<Vec<u32>, AllocError>
    ensures labels { IfOk result (λ names. names.items ≡ net_labels net.now) }
    ensures few { IfOk result (λ names. length names.items ≤ 2000001) }
{
    let labels = labels(alloc, net.net().items())?;
    distinct_labels(alloc, &labels)
}

/// The edges of a net, with their colours, where these fit.
fn checked_edges(
    alloc: Global,
    net: &PlanarNet,
    colours: &[u32],
    top: u32,
) -> Result<Vec<Edge>, CableFault>
    requires { top ≤ 8 }
    ensures edges { IfOk result (λ edges. edges.items ≡ edges_of (net_labels net.now) colours.now) }
    ensures fits { OnOk result (net_refusal top net.now colours.now ≡ None) }
    ensures refused { IfErr result (λ fault. (fault ≡ CableFault.Memory) ⊎ (net_refusal top net.now colours.now ≡ Some fault)) }
{
    let names = net_labels(alloc, net)?;
    check_colours(colours, names.len() as u32, top)?;
    let edges = net_edges(alloc, &names, colours)?;
    check_fit(&edges, net.net().items())?;
    Ok(edges)
}

/// Refuses colours that don't fit a net: `cable_net` refuses these before anything else. `NoInverse` never comes.
pub fn check_net_colours(
    alloc: Global,
    net: &PlanarNet,
    colours: &[u32],
    top: u32,
) -> Result<(), CableFault>
    requires { top ≤ 8 }
    ensures fits { OnOk result (net_refusal top net.now colours.now ≡ None) }
    ensures refused { IfErr result (λ fault. (fault ≡ CableFault.Memory) ⊎ (net_refusal top net.now colours.now ≡ Some fault)) }
{
    match checked_edges(alloc, net, colours, top) {
        Ok(_) => Ok(()),
        Err(fault) => Err(fault),
    }
}

/// The cable of a net (Kauffman and Lins): one colour for each label, in increasing order of labels; each edge with places
/// and a colour of at least 2 has a box. The notes are the table's, and the colours at most its top.
///
/// The nodes of an item stand in the order of the items, the boxes of the edges that have their first place there before
/// them, by increasing label. Items with places have the groups from 1 on, loops those after them; a box has the group of
/// the item before whose nodes it stands, or of its loop.
///
/// The refusals are those of `CableFault`, in their order; each but `Memory` comes for its reason alone.
pub fn cable_net(
    alloc: Global,
    net: &PlanarNet,
    colours: &[u32],
    table: &Table,
    notes: &mut Notes,
) -> Result<Network, CableFault>
    requires { IsOf notes.old table.now }
    ensures network { IfOk result (λ network. network ≡ cabled_net table.now.params net.now (net_colour net.now colours.now)) }
    ensures weights { IfOk result (λ network. WeightsBelow table.now.params.modulus network.nodes) }

    // A refusal has its reason, but where memory runs out.
    ensures fits { OnOk result (net_refusal table.now.top net.now colours.now ≡ None) }
    ensures inverses { OnOk result ((index common : ℕ) → ¬ IsFirstCommon table.now.params (greatest colours.now) index common) }
    ensures refused { IfErr result (λ fault. (fault ≡ CableFault.Memory) ⊎ ((net_refusal table.now.top net.now colours.now ≡ Some fault)
        ⊎ ((net_refusal table.now.top net.now colours.now ≡ None) × IsNoInverse table.now.params (greatest colours.now) fault))) }

    // After every answer the notes are the table's, and know what they knew.
    ensures of { IsOf notes.new table.now }
    ensures kept { Keeps notes.old notes.new }
    ensures known { OnOk result ((n : ℕ) → 2 ≤ n → Contains colours.now n → Knows notes.new n) }
{
    let edges = checked_edges(alloc, net, colours, table.top())?;
    cable_coloured(alloc, net.net().items(), edges, colours, table, notes)
}
