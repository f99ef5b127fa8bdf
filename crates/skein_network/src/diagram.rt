//! Cables of link diagrams.

ghost use Rattle.std.specs.Prelude.{◌≡◌, ◌⊎◌, ◌==◌, ◌≤◌, true, ℕ, None, Some, length, map, OnOk, IfOk, IfErr};
ghost use Rattle.std.specs.List.{AllByRecursion, Contains};
ghost use Rattle.std.specs.Set.{is_member};
ghost use Rattle.state_sums.specs.Networks.{WeightsBelow};
ghost use Rattle.pd_reader.specs.Items.{item_labels, HasItsSlots};
ghost use Rattle.pd_reader.specs.Diagrams.{labels};
ghost use Rattle.planar_check.specs.Components.{distinct, greatest, least_labels};
ghost use Rattle.wenzl_table.specs.Inverses.{IsFirstCommon};
ghost use Rattle.wenzl_table.specs.Tables.{IsOf, Keeps, Knows};
ghost use Rattle.cables.specs.Cables.{as_net, net_item};
ghost use Rattle.coloured_values.specs.Coloured.{cabled};
ghost use Rattle.skein_network.specs.Edges.{diagram_edge};
ghost use Rattle.skein_network.specs.Refusals.{colour_refusal, IsNoInverse};

use crate::coloured::cable_coloured;
use crate::colours::check_colours;
use crate::edge::Edge;
use crate::fault::CableFault;
use arc_pairing::Network;
use pd_reader::{Item, NetItem, labels};
use planar_check::{Planar, distinct_labels};
use std::alloc::{AllocError, Global};
use wenzl_table::{Notes, Table};

/// The item as one of a net.
fn net_item(item: &Item) -> NetItem
    ensures { result ≡ net_item item.now }
{
    match item {
        Item::X(slots) => NetItem::X(*slots),
        Item::Loop(label) => NetItem::Loop(*label),
    }
}

/// The items as those of a net.
fn net_items(alloc: Global, items: &[Item]) -> Result<Vec<NetItem>, AllocError>
    ensures { IfOk result (λ found. found.items ≡ as_net items.now) }
{
    let mut found = Vec::with_capacity(alloc, items.len())?;
    for item in items {
        found.push(net_item(item))?;
    }
    Ok(found)
}

/// The edge with a label: the colour of its component, and a box where the label is its component's least one and the colour
/// at least 2.
fn diagram_edge(diagram: &Planar, colours: &[u32], label: u32) -> Edge
    requires there { is_member ◌==◌ (labels item_labels diagram.now) label ≡ true }
    requires sizes { AllByRecursion HasItsSlots diagram.now }
    requires given { length colours.now ≡ length (least_labels diagram.now) }
    ensures { result ≡ diagram_edge diagram.now colours.now label }
{
    let component = match diagram.component_of(label) {
        Some(component) => component,
        None => unreachable!(),
    };
    let colour = colours[component as usize - 1];
    Edge {
        label,
        colour,
        boxed: colour >= 2 && diagram.least_label(component) == label,
    }
}

/// The edges of a diagram, by increasing label.
fn diagram_edges(alloc: Global, diagram: &Planar, colours: &[u32]) -> Result<Vec<Edge>, AllocError>
    requires { length colours.now ≡ length (least_labels diagram.now) }
    ensures { IfOk result (λ edges. edges.items ≡ map (diagram_edge diagram.now colours.now) (distinct (labels item_labels diagram.now))) }
{
    let names = distinct_labels(alloc, &labels(alloc, diagram.diagram().items())?)?;
    let mut edges = Vec::with_capacity(alloc, names.len())?;
    for label in &names {
        edges.push(diagram_edge(diagram, colours, *label))?;
    }
    Ok(edges)
}

/// The cable of a link diagram (Lickorish, ch. 13): one colour for each component, in their order; each component with a
/// crossing and a colour of at least 2 has one box, on its least label. The notes are the table's, and the colours at most
/// its top.
///
/// The nodes stand in the order that `cable_net` says. `ColourCount`, `ColourTooLarge` and `NoInverse` come in this order;
/// each but `Memory` comes for its reason alone, and `Unequal` and `NotAdmissible` never.
pub fn cable(
    alloc: Global,
    diagram: &Planar,
    colours: &[u32],
    table: &Table,
    notes: &mut Notes,
) -> Result<Network, CableFault>
    requires { IsOf notes.old table.now }
    ensures network { IfOk result (λ network. network ≡ cabled table.now.params diagram.now colours.now) }
    ensures weights { IfOk result (λ network. WeightsBelow table.now.params.modulus network.nodes) }

    // A refusal has its reason, but where memory runs out.
    ensures fits { OnOk result (colour_refusal table.now.top (length (least_labels diagram.now)) colours.now ≡ None) }
    ensures inverses { OnOk result ((index common : ℕ) → ¬ IsFirstCommon table.now.params (greatest colours.now) index common) }
    ensures refused { IfErr result (λ fault. (fault ≡ CableFault.Memory) ⊎ ((colour_refusal table.now.top (length (least_labels diagram.now)) colours.now ≡ Some fault)
        ⊎ ((colour_refusal table.now.top (length (least_labels diagram.now)) colours.now ≡ None) × IsNoInverse table.now.params (greatest colours.now) fault))) }

    // After every answer the notes are the table's, and know what they knew.
    ensures of { IsOf notes.new table.now }
    ensures kept { Keeps notes.old notes.new }
    ensures known { OnOk result ((n : ℕ) → 2 ≤ n → Contains colours.now n → Knows notes.new n) }
{
    check_colours(colours, diagram.components(), table.top())?;
    let items = net_items(alloc, diagram.diagram().items())?;
    let edges = diagram_edges(alloc, diagram, colours)?;
    cable_coloured(alloc, &items, edges, colours, table, notes)
}
