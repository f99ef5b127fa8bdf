//! R3: a strand is moved past a crossing.

ghost use Rattle.std.specs.Prelude.{◌≡◌, ◌+◌, ◌<◌, ◌≤◌, ◌||◌, IfOk, IfSome};
ghost use Rattle.std.specs.List.{find};
ghost use Rattle.pd_reader.specs.Diagrams.{IsDiagram};
ghost use Rattle.diagram_moves.specs.Moves.{is_triangle, moved_slots, slide_over, slot_triples, triangle_rewritten};
ghost use Rattle.move_script.specs.Tables.{IsMade};

use crate::changed::{Changed, PLAIN, finished};
use crate::crossings::{around, crossing, slot, with_slots};
use diagram_moves::MoveFault;
use pd_reader::Item;
use std::alloc::{AllocError, Global};

/// A crossing's number and slots.
#[derive(Clone, Copy, Debug)]
struct Corner {
    number: u32,
    slots: [u32; 4],
}

/// Whether a face of three places goes from slot s of the first crossing to slot t of the second and slot u of the
/// third, with one of its edges over at both of its places.
pub(crate) fn is_triangle(
    first: &[u32; 4],
    second: &[u32; 4],
    third: &[u32; 4],
    at: (usize, (usize, usize)),
) -> bool
    requires first { at.0 < 4 }
    requires second { at.1.0 < 4 }
    requires third { at.1.1 < 4 }
    ensures { result ≡ is_triangle first.now second.now third.now at }
{
    let (s, (t, u)) = at;
    slot(first, s) == slot(second, t)
        && slot(second, t + 1) == slot(third, u)
        && slot(third, u + 1) == slot(first, s + 3)
        && !((s + 1) % 2 == t % 2 && t % 2 == u % 2)
}

/// The slots at which such a face begins, in one of both orders of the second and the third crossing, with the least
/// slot of the first.
pub(crate) fn triangle(
    first: &[u32; 4],
    second: &[u32; 4],
    third: &[u32; 4],
) -> Option<(usize, (usize, usize))>
    ensures found { result ≡ find (λ at. is_triangle first.now second.now third.now at || is_triangle first.now third.now second.now at) slot_triples }
    ensures low { IfSome result (λ at. (at.0 < 4) × (at.1.0 < 4) × (at.1.1 < 4)) }
{
    for k in 0..64 {
        let at = (k / 16, (k / 4 % 4, k % 4));
        if is_triangle(first, second, third, at) || is_triangle(first, third, second, at) {
            return Some(at);
        }
    }
    None
}

/// The slots of a crossing whose corner begins at a slot, between the crossings whose strands end in the two labels.
fn moved_slots(from: usize, slots: &[u32; 4], before: u32, after: u32) -> [u32; 4]
    requires { from < 8 }
    ensures { result ≡ moved_slots from slots.now before after }
{
    around(
        4 - from % 4,
        &[before, after, slot(slots, from), slot(slots, from + 1)],
    )
}

/// The items with the three crossings moved, which follow one another round the triangle.
fn moved(
    alloc: Global,
    items: &[Item],
    first: Corner,
    second: Corner,
    third: Corner,
    at: (usize, (usize, usize)),
) -> Result<Vec<Item>, AllocError>
    requires diagram { IsDiagram items.now }
    requires low_first { at.0 < 4 }
    requires low_second { at.1.0 < 4 }
    requires low_third { at.1.1 < 4 }
    ensures { IfOk result (λ all. all.items ≡ triangle_rewritten items.now first.number second.number third.number first.slots second.slots third.slots (at.0 + 3) at.1.0 at.1.1) }
{
    let s = at.0 + 3;
    let (t, u) = at.1;
    let new_first = moved_slots(
        s,
        &first.slots,
        slot(&third.slots, u + 3),
        slot(&second.slots, t + 2),
    );
    let new_second = moved_slots(
        t,
        &second.slots,
        slot(&first.slots, s + 3),
        slot(&third.slots, u + 2),
    );
    let new_third = moved_slots(
        u,
        &third.slots,
        slot(&second.slots, t + 3),
        slot(&first.slots, s + 2),
    );
    with_slots(
        alloc,
        items,
        &[
            (first.number, new_first),
            (second.number, new_second),
            (third.number, new_third),
        ],
    )
}

/// Moves a strand past a crossing, through a face of three places.
pub(crate) fn slide_over(
    alloc: Global,
    items: &[Item],
    first: u32,
    second: u32,
    third: u32,
) -> Result<Changed, MoveFault>
    requires { IsDiagram items.now }
    ensures { IsMade (slide_over items.now first second third) result }
{
    let here = crossing(items, first)?;
    let there = crossing(items, second)?;
    let beyond = crossing(items, third)?;
    if first == second || second == third || first == third {
        return Err(MoveFault::NotTriangle);
    }
    let Some(at) = triangle(&here, &there, &beyond) else {
        return Err(MoveFault::NotTriangle);
    };
    let c = Corner {
        number: first,
        slots: here,
    };
    let d = Corner {
        number: second,
        slots: there,
    };
    let f = Corner {
        number: third,
        slots: beyond,
    };
    let all = if is_triangle(&here, &there, &beyond, at) {
        moved(alloc, items, c, d, f, at)?
    } else {
        moved(alloc, items, c, f, d, at)?
    };
    finished(all, PLAIN)
}
