//! Crossings by their numbers, from 1 in the order of the items, and items that are written anew.

ghost use Rattle.std.specs.Prelude.{◌≡◌, ◌+◌, ◌*◌, ◌<◌, ◌≤◌, ◌==◌, [], ◌∷◌, length, IfOk, IfErr, IsTrue, Some, None, Ok, Err, vec_len};
ghost use Rattle.std.specs.Set.{is_member};
ghost use Rattle.pd_reader.specs.declared.item.Item.{Item};
ghost use Rattle.diagram_moves.specs.Rewriting.{around, at_places, crossing_at, crossing_labels, rewritten, slot};
ghost use Rattle.diagram_moves.specs.declared.fault.MoveFault.{MoveFault};
ghost use Rattle.move_script.specs.Tables.{anew, cut_by};

use diagram_moves::MoveFault;
use pd_reader::Item;
use std::alloc::{AllocError, Global};

/// The label at a slot of a crossing, counted on from 3 to 0.
pub(crate) fn slot(slots: &[u32; 4], i: usize) -> u32
    ensures { result ≡ slot slots.now i }
{
    slots[i % 4]
}

/// The four labels from a slot on.
pub(crate) fn around(from: usize, slots: &[u32; 4]) -> [u32; 4]
    requires { from < 8 }
    ensures { result ≡ around from slots.now }
{
    [
        slot(slots, from),
        slot(slots, from + 1),
        slot(slots, from + 2),
        slot(slots, from + 3),
    ]
}

/// The slots of a crossing, or the refusal of one that isn't there.
pub(crate) fn crossing(items: &[Item], number: u32) -> Result<[u32; 4], MoveFault>
    requires { length items.now ≤ 256 }
    ensures ok { IfOk result (λ slots. crossing_at items.now number ≡ Some slots) }
    ensures err { IfErr result (λ fault. (fault ≡ MoveFault.NoCrossing number) × (crossing_at items.now number ≡ None)) }
{
    let mut next = 1;
    for item in items {
        if let Item::X(slots) = item {
            if next == number {
                return Ok(*slots);
            }
            next += 1;
        }
    }
    Err(MoveFault::NoCrossing { crossing: number })
}

/// Whether the label stands at a crossing.
pub(crate) fn on_crossing(items: &[Item], label: u32) -> bool
    ensures { result ≡ is_member ◌==◌ (crossing_labels items.now) label }
{
    for item in items {
        if let Item::X(slots) = item {
            if slots.contains(&label) {
                return true;
            }
        }
    }
    false
}

/// The label at a place that cuts give, each a place with its new label, or else the old one.
fn cut_label(cuts: &[(u32, u32)], place: u32, label: u32) -> u32
    ensures { result ≡ cut_by cuts.now place label }
{
    for (at, new) in cuts {
        if *at == place {
            return *new;
        }
    }
    label
}

/// The items with new labels at some places.
pub(crate) fn with_cuts(
    alloc: Global,
    items: &[Item],
    cuts: &[(u32, u32)],
) -> Result<Vec<Item>, AllocError>
    requires { length items.now ≤ 256 }
    ensures { IfOk result (λ cut. cut.items ≡ at_places (cut_by cuts.now) 0 items.now) }
{
    let mut place = 0;
    let mut cut = Vec::new(alloc);
    for item in items {
        match item {
            Item::X(slots) => {
                let [a, b, c, d] = *slots;
                cut.push(Item::X([
                    cut_label(cuts, place, a),
                    cut_label(cuts, place + 1, b),
                    cut_label(cuts, place + 2, c),
                    cut_label(cuts, place + 3, d),
                ]))?;
                place += 4;
            }
            Item::Loop(label) => cut.push(Item::Loop(*label))?,
        }
    }
    Ok(cut)
}

/// The slots that a list gives for a crossing's number, or else its old ones.
fn new_slots(new: &[(u32, [u32; 4])], number: u32, slots: [u32; 4]) -> [u32; 4]
    ensures { result ≡ anew new.now number slots }
{
    for (at, other) in new {
        if *at == number {
            return *other;
        }
    }
    slots
}

/// The items with new slots of some crossings.
pub(crate) fn with_slots(
    alloc: Global,
    items: &[Item],
    new: &[(u32, [u32; 4])],
) -> Result<Vec<Item>, AllocError>
    requires { length items.now ≤ 256 }
    ensures { IfOk result (λ changed. changed.items ≡ rewritten (λ number slots. Item.X (anew new.now number slots) ∷ []) 1 items.now) }
{
    let mut number = 1;
    let mut changed = Vec::new(alloc);
    for item in items {
        match item {
            Item::X(slots) => {
                changed.push(Item::X(new_slots(new, number, *slots)))?;
                number += 1;
            }
            Item::Loop(label) => changed.push(Item::Loop(*label))?,
        }
    }
    Ok(changed)
}
