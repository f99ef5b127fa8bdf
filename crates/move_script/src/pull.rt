//! R2Undo: two crossings are taken apart.

ghost use Rattle.std.specs.Prelude.{◌≡◌, ◌<◌, ◌≤◌, IfSome};
ghost use Rattle.std.specs.List.{find};
ghost use Rattle.pd_reader.specs.Diagrams.{IsDiagram};
ghost use Rattle.diagram_moves.specs.Moves.{bigon_classes, is_bigon, pull, slot_pairs};
ghost use Rattle.move_script.specs.Tables.{IsMade};

use crate::changed::{Changed, PLAIN, finished};
use crate::classes::{closed, joined, joins, without};
use crate::crossings::{crossing, slot};
use diagram_moves::MoveFault;
use pd_reader::Item;
use std::alloc::Global;

/// Whether a face of two places goes from slot s of the one crossing to slot t of the other, with one of its edges over
/// at both and the other under at both.
fn is_bigon(here: &[u32; 4], there: &[u32; 4], at: (usize, usize)) -> bool
    requires first { at.0 < 4 }
    requires second { at.1 < 4 }
    ensures { result ≡ is_bigon here.now there.now at }
{
    let (s, t) = at;
    slot(here, s) == slot(there, t) && slot(here, s + 3) == slot(there, t + 1) && s % 2 == t % 2
}

/// The slots at which such a face begins, with the least slot of the first crossing.
pub(crate) fn bigon(here: &[u32; 4], there: &[u32; 4]) -> Option<(usize, usize)>
    ensures found { result ≡ find (is_bigon here.now there.now) slot_pairs }
    ensures low { IfSome result (λ at. (at.0 < 4) × (at.1 < 4)) }
{
    for k in 0..16 {
        let at = (k / 4, k % 4);
        if is_bigon(here, there, at) {
            return Some(at);
        }
    }
    None
}

/// The labels that become one: each edge of the face with the labels opposite to its places.
fn bigon_classes(here: &[u32; 4], there: &[u32; 4], at: (usize, usize)) -> [(u32, u32); 4]
    requires first { at.0 < 4 }
    requires second { at.1 < 4 }
    ensures { result ≡ bigon_classes here.now there.now at }
{
    let (s, t) = at;
    let x = slot(here, s);
    let y = slot(there, t + 1);
    [
        (x, slot(here, s + 2)),
        (x, slot(there, t + 2)),
        (y, slot(here, s + 1)),
        (y, slot(there, t + 3)),
    ]
}

/// Takes two crossings apart at the corners of a face of two places.
pub(crate) fn pull(
    alloc: Global,
    items: &[Item],
    first: u32,
    second: u32,
) -> Result<Changed, MoveFault>
    requires { IsDiagram items.now }
    ensures { IsMade (pull items.now first second) result }
{
    let here = crossing(items, first)?;
    let there = crossing(items, second)?;
    if first == second {
        return Err(MoveFault::NotBigon);
    }
    let Some(at) = bigon(&here, &there) else {
        return Err(MoveFault::NotBigon);
    };
    let classes = joins(alloc, &bigon_classes(&here, &there, at))?;
    let left = without(alloc, items, &[second, first], &classes)?;
    let x = joined(&classes, slot(&here, at.0));
    let y = joined(&classes, slot(&there, at.1 + 1));
    let all = closed(left, x, y)?;
    finished(all, PLAIN)
}
