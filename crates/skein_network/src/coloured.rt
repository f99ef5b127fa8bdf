//! The cable of items, from the colours of their edges and a table of projectors.

ghost use Rattle.std.specs.Prelude.{◌≡◌, ◌⊎◌, ◌≤◌, ℕ, OnOk, IfOk, IfErr};
ghost use Rattle.std.specs.List.{AllByRecursion, Contains};
ghost use Rattle.state_sums.specs.Networks.{WeightsBelow};
ghost use Rattle.pd_reader.specs.Diagrams.{IsNet};
ghost use Rattle.planar_check.specs.Components.{greatest};
ghost use Rattle.wenzl_table.specs.Inverses.{IsFirstCommon};
ghost use Rattle.wenzl_table.specs.Tables.{IsOf, Keeps, Knows};
ghost use Rattle.cables.specs.Cables.{cable, Fits};
ghost use Rattle.skein_network.specs.Edges.{strands_at};
ghost use Rattle.skein_network.specs.Colourings.{AreColoured};
ghost use Rattle.skein_network.specs.Refusals.{IsNoInverse};

use crate::colouring::Colouring;
use crate::edge::Edge;
use crate::fault::CableFault;
use crate::network::cable_items;
use crate::projectors::find_projectors;
use arc_pairing::Network;
use pd_reader::NetItem;
use std::alloc::Global;
use wenzl_table::{Notes, Table};

/// The cable of items whose edges have colours of the list; the notes are the table's.
pub(crate) fn cable_coloured(
    alloc: Global,
    items: &[NetItem],
    edges: Vec<Edge>,
    colours: &[u32],
    table: &Table,
    notes: &mut Notes,
) -> Result<Network, CableFault>
    requires net { IsNet items.now }
    requires few { table.now.top ≤ 8 }
    requires high { greatest colours.now ≤ table.now.top }
    requires edges { AreColoured colours.now edges.items }
    requires fits { AllByRecursion (Fits (strands_at table.now.params edges.items)) items.now }
    requires of { IsOf notes.old table.now }
    ensures network { IfOk result (λ network. network ≡ cable table.now.params (strands_at table.now.params edges.items) items.now) }
    ensures none { OnOk result ((index common : ℕ) → ¬ IsFirstCommon table.now.params (greatest colours.now) index common) }
    ensures refused { IfErr result (λ fault. (fault ≡ CableFault.Memory) ⊎ IsNoInverse table.now.params (greatest colours.now) fault) }
    ensures of { IsOf notes.new table.now }
    ensures kept { Keeps notes.old notes.new }
    ensures known { OnOk result ((n : ℕ) → 2 ≤ n → Contains colours.now n → Knows notes.new n) }
{
    let projectors = find_projectors(alloc, table, colours, notes)?;
    let colouring = Colouring {
        params: table.params(),
        edges,
        projectors,
    };
    let network = cable_items(alloc, &colouring, items)?;
    Ok(network)
}
