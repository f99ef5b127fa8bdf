//! Curl and CurlUndo: a curl comes, or goes.

ghost use Rattle.std.specs.Prelude.{◌≡◌, ◌+◌, ◌%◌, ◌<◌, ◌≤◌, ◌==◌, if◌then◌else◌, IfOk, IfSome, true, false};
ghost use Rattle.std.specs.List.{find};
ghost use Rattle.pd_reader.specs.Diagrams.{IsDiagram};
ghost use Rattle.diagram_moves.specs.Moves.{add_curl, curl_classes, curl_of, curl_slots, curled_loop, four, is_curl, is_loop, undo_curl};
ghost use Rattle.move_script.specs.Tables.{IsMade};

use crate::changed::{Changed, finished};
use crate::classes::{closed, joined, joins, without};
use crate::crossings::{crossing, slot, with_cuts};
use crate::edges::{check_edge, fresh};
use diagram_moves::{Factor, MoveFault};
use pd_reader::Item;
use planar_check::{Planar, Sign};
use std::alloc::{AllocError, Global};

/// The factor of a curl that comes with this sign.
fn curl_factor(sign: Sign) -> Factor
    ensures { result ≡ curl_of sign }
{
    match sign {
        Sign::Plus => Factor { curl: 1, circle: 0 },
        Sign::Minus => Factor {
            curl: -1,
            circle: 0,
        },
    }
}

/// The slots of a curl, whose inner edge has the label n.
fn curl_slots(first: u32, second: u32, n: u32, sign: Sign) -> [u32; 4]
    ensures { result ≡ curl_slots first second n sign }
{
    match sign {
        Sign::Plus => [first, second, n, n],
        Sign::Minus => [first, n, n, second],
    }
}

/// The items with a crossing in the place of a loop.
fn curled_loop(
    alloc: Global,
    items: &[Item],
    edge: u32,
    slots: [u32; 4],
) -> Result<Vec<Item>, AllocError>
    ensures { IfOk result (λ all. all.items ≡ curled_loop edge slots items.now) }
{
    let mut waits = true;
    let mut all = Vec::new(alloc);
    for item in items {
        if waits && *item == Item::Loop(edge) {
            all.push(Item::X(slots))?;
            waits = false;
        } else {
            all.push(*item)?;
        }
    }
    Ok(all)
}

/// Gives the edge a curl, at its second place or in the place of its loop.
pub(crate) fn add_curl(
    alloc: Global,
    diagram: &Planar,
    edge: u32,
    sign: Sign,
) -> Result<Changed, MoveFault>
    ensures { IsMade (add_curl diagram.now edge sign) result }
{
    check_edge(diagram, edge)?;
    let items = diagram.diagram().items();
    let n = fresh(alloc, items)?;
    let all = match diagram.first_place(edge) {
        Some(first) => {
            let cuts = [(diagram.other_place(first), n + 1)];
            let mut all = with_cuts(alloc, items, &cuts)?;
            all.push(Item::X(curl_slots(edge, n + 1, n, sign)))?;
            all
        }
        None => curled_loop(alloc, items, edge, curl_slots(edge, edge, n, sign))?,
    };
    finished(all, curl_factor(sign))
}

/// The least slot of a crossing whose label stands at the next slot too.
pub(crate) fn curl_at(slots: &[u32; 4]) -> Option<usize>
    ensures found { result ≡ find (is_curl slots.now) four }
    ensures low { IfSome result (λ s. s < 4) }
{
    for s in 0..4 {
        if slot(slots, s) == slot(slots, s + 1) {
            return Some(s);
        }
    }
    None
}

/// The labels that become one: that of the curl with those of the other two slots.
fn curl_classes(slots: &[u32; 4], s: usize) -> [(u32, u32); 2]
    requires { s < 4 }
    ensures { result ≡ curl_classes slots.now s }
{
    let x = slot(slots, s);
    [(x, slot(slots, s + 2)), (x, slot(slots, s + 3))]
}

/// The sign of the curl that would come where one goes whose label stands at the slot s first.
fn opposite_sign(s: usize) -> Sign
    ensures { result ≡ (if s % 2 == 0 then Sign.Minus else Sign.Plus) }
{
    if s % 2 == 0 { Sign::Minus } else { Sign::Plus }
}

/// Takes the curl at a crossing away.
pub(crate) fn undo_curl(alloc: Global, items: &[Item], number: u32) -> Result<Changed, MoveFault>
    requires { IsDiagram items.now }
    ensures { IsMade (undo_curl items.now number) result }
{
    let here = crossing(items, number)?;
    let Some(s) = curl_at(&here) else {
        return Err(MoveFault::NotCurl);
    };
    let classes = joins(alloc, &curl_classes(&here, s))?;
    let left = without(alloc, items, &[number], &classes)?;
    let least = joined(&classes, slot(&here, s));
    let all = closed(left, least, least)?;
    finished(all, curl_factor(opposite_sign(s)))
}
