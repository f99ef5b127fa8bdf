//! What one worker does.

ghost use Rattle.std.specs.Prelude.{◌≡◌, ◌+◌, ◌<◌, ◌≤◌};
ghost use Rattle.root_quantum.specs.Colours.{greatest_colour};
ghost use Rattle.kirby_terms.specs.Terms.{colouring_total, HasInverses};
ghost use Rattle.colour_share.specs.Parts.{IsPart};

use crate::gate::Gate;
use crate::part::{PartFault, Summed};
use arc_pairing::Turns;
use frontier_sweep::{Choose, Chooser};
use kirby_terms::term;
use planar_check::Framed;
use std::alloc::Global;
use wenzl_table::Table;

/// The sum over the colourings of one worker of so many, which counts from 0, with its notes as a list. It passes the gate
/// before each.
pub(crate) fn work_alone<G: Gate, C: Choose>(
    alloc: Global,
    framed: &Framed,
    table: &Table,
    chooser: &Chooser<C>,
    gate: &G,
    total: u64,
    workers: u32,
    worker: u32,
) -> Result<Summed, PartFault>
    requires top { greatest_colour table.now.params ≤ table.now.top }
    requires inverses { HasInverses table.now.params framed.now }
    requires total { total ≡ colouring_total table.now.params framed.now }
    requires few { total ≤ 65536 }
    requires worker { worker < workers }
    requires workers { workers ≤ 64 }
    ensures { IsPart (C.answers chooser.now) table.now framed.now workers worker (worker + 1) total result }
{
    let ring = table.params().ring();
    let Ok(mut notes) = table.notes(alloc) else {
        return Err(PartFault::Memory);
    };
    let mut value = 0;
    let mut turns = 0;
    for place in 0..total {
        if place % u64::from(workers) == u64::from(worker) {
            let colouring = place + 1;
            gate.enter(worker + 1, colouring);
            let mut own = Turns::new();
            match term(
                alloc, framed, table, chooser, colouring, &mut notes, &mut own,
            ) {
                Ok(term) => {
                    value = ring.add(value, term);
                    turns += own.count();
                }
                Err(fault) => return Err(PartFault::Stopped { colouring, fault }),
            }
        }
    }
    let mut list = Vec::new(alloc);
    match list.push(notes) {
        Ok(()) => Ok(Summed {
            value,
            turns,
            notes: list,
        }),
        Err(_) => Err(PartFault::Memory),
    }
}
