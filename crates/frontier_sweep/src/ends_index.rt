//! Where each name of a network stands.

ghost use Rattle.std.specs.Prelude.{◌≡◌, ◌<◌, ◌++◌, map, IfOk, OnOk};
ghost use Rattle.arc_pairing.specs.declared.limits.TheConstants.{MOST_NODES};
ghost use Rattle.frontier_sweep.specs.Rises.{place_key, IsEndsIndex};

use crate::place_key::place_key;
use arc_pairing::Network;
use std::alloc::{AllocError, Global};

/// Appends the numbers of these ends of the node at that place.
fn push_keys(index: &mut Vec<u64>, ends: &[u32], place: u32) -> Result<(), AllocError>
    requires { place < MOST_NODES }
    ensures { OnOk result (index.new.items ≡ index.old.items ++ map (λ name. place_key name place) ends.now) }
{
    for name in ends {
        index.push(place_key(*name, place))?;
    }
    Ok(())
}

/// The numbers of all ends, increasing.
pub(crate) fn ends_index(alloc: Global, network: &Network) -> Result<Vec<u64>, AllocError>
    ensures { IfOk result (λ index. IsEndsIndex network.now.nodes index.items) }
{
    let mut index = Vec::new(alloc);
    for (place, node) in network.nodes().iter().enumerate() {
        push_keys(&mut index, node.ends(), place as u32)?;
    }
    index.sort_unstable();
    Ok(index)
}
