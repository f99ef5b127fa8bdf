//! R2: an edge is pushed over another one.

ghost use Rattle.std.specs.Prelude.{◌≡◌, ◌+◌, ◌≤◌, IfOk, Bool};
ghost use Rattle.pd_reader.specs.Diagrams.{IsDiagram};
ghost use Rattle.diagram_moves.specs.Moves.{push, pushed, second_place};
ghost use Rattle.diagram_moves.specs.Rewriting.{fresh};
ghost use Rattle.move_script.specs.Tables.{IsMade};

use crate::changed::{Changed, PLAIN, finished};
use crate::crossings::with_cuts;
use crate::edges::{check_edge, edge_places, fresh, meets, same_face};
use diagram_moves::MoveFault;
use pd_reader::Item;
use planar_check::Planar;
use std::alloc::{AllocError, Global};

/// An edge that is cut in three, and the place of the face from which its pieces are taken.
#[derive(Clone, Copy, Debug)]
struct Pieces {
    label: u32,
    second: u32,
    from_first: bool,
}

/// The items with the one edge over the other. The pieces of an edge are its first one, a middle one and a last one.
fn pushed(
    alloc: Global,
    items: &[Item],
    over: Pieces,
    under: Pieces,
) -> Result<Vec<Item>, AllocError>
    requires diagram { IsDiagram items.now }
    requires over { over.second ≡ second_place items.now over.label }
    requires under { under.second ≡ second_place items.now under.label }
    ensures { IfOk result (λ all. all.items ≡ pushed items.now over.label under.label over.from_first under.from_first) }
{
    let n = fresh(alloc, items)?;
    let (e1, e3) = if over.from_first {
        (over.label, n + 1)
    } else {
        (n + 1, over.label)
    };
    let (f1, f3) = if under.from_first {
        (under.label, n + 3)
    } else {
        (n + 3, under.label)
    };
    let cuts = [(over.second, n + 1), (under.second, n + 3)];
    let mut all = with_cuts(alloc, items, &cuts)?;
    all.push(Item::X([n + 2, e1, f3, n]))?;
    all.push(Item::X([f1, e3, n + 2, n]))?;
    Ok(all)
}

/// Pushes the edge `over` over the edge `under`, in a face that both border.
pub(crate) fn push(
    alloc: Global,
    diagram: &Planar,
    over: u32,
    under: u32,
) -> Result<Changed, MoveFault>
    ensures { IsMade (push diagram.now over under) result }
{
    check_edge(diagram, over)?;
    check_edge(diagram, under)?;
    if over == under {
        return Err(MoveFault::SameEdge);
    }
    let e = edge_places(diagram, over)?;
    let f = edge_places(diagram, under)?;
    let from_first = meets(diagram, e.first, f);
    if !from_first && !meets(diagram, e.second, f) {
        return Err(MoveFault::NotSameFace);
    }
    let place = if from_first { e.first } else { e.second };
    let items = diagram.diagram().items();
    let all = pushed(
        alloc,
        items,
        Pieces {
            label: over,
            second: e.second,
            from_first,
        },
        Pieces {
            label: under,
            second: f.second,
            from_first: same_face(diagram, place, f.first),
        },
    )?;
    finished(all, PLAIN)
}
