//! The cable of the items of a net.

ghost use Rattle.std.specs.Prelude.{◌≡◌, ◌≤◌, length, IfOk};
ghost use Rattle.std.specs.List.{AllByRecursion};
ghost use Rattle.pd_reader.specs.Diagrams.{IsNet};
ghost use Rattle.cables.specs.Cables.{cable, count_placed, Fits};
ghost use Rattle.skein_network.specs.Colourings.{strands_in, IsReady};

use crate::colouring::Colouring;
use crate::progress::{Progress, push_item};
use arc_pairing::{Network, NetworkFault};
use pd_reader::NetItem;
use std::alloc::{AllocError, Global};

/// How many items have places.
fn count_placed(items: &[NetItem]) -> u32
    requires { length items.now ≤ 256 }
    ensures value { result ≡ count_placed items.now }
    ensures few { result ≤ 256 }
{
    let mut count = 0;
    for item in items {
        match item {
            NetItem::X(_) => count += 1,
            NetItem::Y(_) => count += 1,
            NetItem::Loop(_) => {}
        }
    }
    count
}

/// The cable of the items of a net, whose colours fit.
pub(crate) fn cable_items(
    alloc: Global,
    colouring: &Colouring,
    items: &[NetItem],
) -> Result<Network, AllocError>
    requires net { IsNet items.now }
    requires ready { IsReady colouring.now }
    requires fits { AllByRecursion (Fits (strands_in colouring.now)) items.now }
    ensures { IfOk result (λ network. network ≡ cable colouring.now.params.now (strands_in colouring.now) items.now) }
{
    let mut progress = Progress {
        seen: Vec::new(alloc),
        index: 0,
        group: 1,
        loop_group: count_placed(items) + 1,
        nodes: Vec::new(alloc),
        free: 0,
    };
    for item in items {
        push_item(alloc, colouring, item, &mut progress)?;
    }
    match Network::new(alloc, progress.nodes, progress.free) {
        Ok(network) => Ok(network),
        Err(NetworkFault::TooMany { .. }) => unreachable!(),
        Err(NetworkFault::Name { .. }) => unreachable!(),
        Err(NetworkFault::Memory) => Err(AllocError),
    }
}
