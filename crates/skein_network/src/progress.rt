//! How far a cable has come, item by item.

ghost use Rattle.std.specs.Prelude.{◌≡◌, ◌++◌, ◌+◌, ◌≤◌, OnOk};
ghost use Rattle.std.specs.List.{All};
ghost use Rattle.pd_reader.specs.Items.{net_item_labels};
ghost use Rattle.cables.specs.Cables.{item_nodes, passed, Fits};
ghost use Rattle.skein_network.specs.Colourings.{strands_in, IsReady};
ghost use Rattle.skein_network.specs.Progress.{standing_of, loops_of_item};

use crate::colouring::Colouring;
use crate::edge::colour_of;
use crate::item::{push_crossing_item, push_loop_item, push_vertex_item};
use arc_pairing::Node;
use pd_reader::NetItem;
use std::alloc::{AllocError, Global};

/// How far a cable has come.
#[derive(Drop)]
pub(crate) struct Progress {
    /// The labels at the places of the items so far.
    pub seen: Vec<u32>,
    /// How many items there were.
    pub index: u32,
    /// The next group of an item with places.
    pub group: u32,
    /// The next group of a loop.
    pub loop_group: u32,
    /// The nodes so far.
    pub nodes: Vec<Node>,
    /// The free loops so far.
    pub free: u32,
}

/// Puts an item's nodes behind the others.
pub(crate) fn push_item(
    alloc: Global,
    colouring: &Colouring,
    item: &NetItem,
    progress: &mut Progress,
) -> Result<(), AllocError>
    requires index { progress.old.index ≤ 255 }
    requires group { progress.old.group ≤ 1000 }
    requires loop_group { progress.old.loop_group ≤ 1000 }
    requires free { progress.old.free ≤ 1000 }
    requires ready { IsReady colouring.now }
    requires low { All (λ label. label ≤ 2000000) (net_item_labels item.now) }
    requires fits { Fits (strands_in colouring.now) item.now }
    ensures nodes { OnOk result (progress.new.nodes.items ≡ progress.old.nodes.items
        ++ item_nodes colouring.now.params.now (strands_in colouring.now) (standing_of progress.old) item.now) }
    ensures standing { OnOk result (standing_of progress.new ≡ passed (standing_of progress.old) item.now) }
    ensures free { OnOk result (progress.new.free ≡ progress.old.free + loops_of_item (strands_in colouring.now) item.now) }
{
    match item {
        NetItem::X(slots) => {
            push_crossing_item(
                alloc,
                colouring,
                progress.group,
                progress.index,
                slots,
                &mut progress.seen,
                &mut progress.nodes,
            )?;
            progress.group += 1;
        }
        NetItem::Y(edges) => {
            push_vertex_item(
                alloc,
                colouring,
                progress.group,
                edges,
                &mut progress.seen,
                &mut progress.nodes,
            )?;
            progress.group += 1;
        }
        NetItem::Loop(label) => {
            push_loop_item(
                alloc,
                colouring,
                progress.loop_group,
                *label,
                &mut progress.nodes,
            )?;
            progress.loop_group += 1;
            if colour_of(&colouring.edges, *label) == 1 {
                progress.free += 1;
            }
        }
    }
    progress.index += 1;
    Ok(())
}
