//! Halves of halves of the workers.

ghost use Rattle.std.specs.Prelude.{◌≡◌, ◌+◌, ◌-◌, ◌<◌, ◌≤◌, ℕ};
ghost use Rattle.std.specs.Thread.{IsSync};
ghost use Rattle.root_quantum.specs.Colours.{greatest_colour};
ghost use Rattle.kirby_terms.specs.Terms.{colouring_total, HasInverses};
ghost use Rattle.colour_share.specs.Parts.{IsPart};

use crate::gate::Gate;
use crate::merging::merge;
use crate::part::{PartFault, Summed};
use crate::worker::work_alone;
use frontier_sweep::{Choose, Chooser};
use planar_check::Framed;
use std::alloc::Global;
use std::thread::{Threads, join};
use wenzl_table::Table;

/// What the workers from `from` on, before `to`, come to, each half of them beside the other.
pub(crate) fn share<R: Threads + Sync, G: Gate + Sync, C: Choose + Sync>(
    rt: &R,
    alloc: Global,
    framed: &Framed,
    table: &Table,
    chooser: &Chooser<C>,
    gate: &G,
    total: u64,
    workers: u32,
    from: u32,
    to: u32,
) -> Result<Summed, PartFault>
    requires top { greatest_colour table.now.params ≤ table.now.top }
    requires inverses { HasInverses table.now.params framed.now }
    requires total { total ≡ colouring_total table.now.params framed.now }
    requires few { total ≤ 65536 }
    requires from { from < to }
    requires to { to ≤ workers }
    requires workers { workers ≤ 64 }
    ensures { IsPart (C.answers chooser.now) table.now framed.now workers from to total result }
{
    if to - from == 1 {
        return work_alone(alloc, framed, table, chooser, gate, total, workers, from);
    }
    let middle = from + (to - from) / 2;
    let (left, right) = join(
        rt,
        || -> Result<Summed, PartFault>
            requires top { greatest_colour table.now.params ≤ table.now.top }
            requires inverses { HasInverses table.now.params framed.now }
            requires total { total ≡ colouring_total table.now.params framed.now }
            requires few { total ≤ 65536 }
            requires from { from < middle }
            requires to { middle ≤ workers }
            requires workers { workers ≤ 64 }
            ensures { IsPart (C.answers chooser.entry.now) table.entry.now framed.entry.now workers from middle total result }
        {
            share(
                rt, alloc, framed, table, chooser, gate, total, workers, from, middle,
            )
        },
        || -> Result<Summed, PartFault>
            requires top { greatest_colour table.now.params ≤ table.now.top }
            requires inverses { HasInverses table.now.params framed.now }
            requires total { total ≡ colouring_total table.now.params framed.now }
            requires few { total ≤ 65536 }
            requires from { middle < to }
            requires to { to ≤ workers }
            requires workers { workers ≤ 64 }
            ensures { IsPart (C.answers chooser.entry.now) table.entry.now framed.entry.now workers middle to total result }
        {
            share(
                rt, alloc, framed, table, chooser, gate, total, workers, middle, to,
            )
        },
    );
    merge(table.params().ring(), left, right)
}
