//! Labels that become one: the least label of each class, and a loop for a class that no crossing has.

ghost use Rattle.std.specs.Prelude.{◌≡◌, ◌++◌, ◌==◌, ◌≤◌, ℕ, not, map, length, IfOk, List};
ghost use Rattle.std.specs.List.{filter};
ghost use Rattle.std.specs.Set.{is_member};
ghost use Rattle.graph_parts.specs.LeastNames.{least_label};
ghost use Rattle.pd_reader.specs.declared.item.Item.{Item};
ghost use Rattle.diagram_moves.specs.Moves.{removed, two_labels};
ghost use Rattle.diagram_moves.specs.Rewriting.{crossing_labels};
ghost use Rattle.move_script.specs.Tables.{joined};

use crate::crossings::on_crossing;
use pd_reader::Item;
use std::alloc::{AllocError, Global};

/// The least label of the class of a label, by the joins that made the classes.
pub(crate) fn joined(joins: &[(u32, u32)], label: u32) -> u32
    ensures { result ≡ joined joins.now label }
{
    let mut least = label;
    for (a, b) in joins {
        if least == *a || least == *b {
            least = (*a).min(*b);
        }
    }
    least
}

/// The joins by which the labels of each pair become one.
pub(crate) fn joins(alloc: Global, pairs: &[(u32, u32)]) -> Result<Vec<(u32, u32)>, AllocError>
    ensures { IfOk result (λ joins. (label : ℕ) → joined joins.items label ≡ least_label pairs.now label) }
{
    let mut joins = Vec::new(alloc);
    for (a, b) in pairs {
        let join = (joined(&joins, *a), joined(&joins, *b));
        joins.push(join)?;
    }
    Ok(joins)
}

/// Whether the number is one of the list.
fn has(numbers: &[u32], number: u32) -> bool
    ensures { result ≡ is_member ◌==◌ numbers.now number }
{
    numbers.contains(&number)
}

/// The least label of its class for each slot of a crossing.
fn joined_slots(joins: &[(u32, u32)], slots: [u32; 4]) -> [u32; 4]
    ensures { result ≡ map (joined joins.now) slots }
{
    let [a, b, c, d] = slots;
    [
        joined(joins, a),
        joined(joins, b),
        joined(joins, c),
        joined(joins, d),
    ]
}

/// The items without some crossings, with the least label of its class in the place of each label of the others.
pub(crate) fn without(
    alloc: Global,
    items: &[Item],
    gone: &[u32],
    joins: &[(u32, u32)],
) -> Result<Vec<Item>, AllocError>
    requires { length items.now ≤ 256 }
    ensures { IfOk result (λ left. left.items ≡ removed gone.now (joined joins.now) items.now) }
{
    let mut number = 1;
    let mut left = Vec::new(alloc);
    for item in items {
        match item {
            Item::X(slots) => {
                if !has(gone, number) {
                    left.push(Item::X(joined_slots(joins, *slots)))?;
                }
                number += 1;
            }
            Item::Loop(label) => left.push(Item::Loop(*label))?,
        }
    }
    Ok(left)
}

/// The items with a loop behind them for each of the two labels that no crossing has, in increasing order.
pub(crate) fn closed(mut items: Vec<Item>, x: u32, y: u32) -> Result<Vec<Item>, AllocError>
    ensures { IfOk result (λ all. all.items ≡ items.items ++ map Item.Loop (filter (λ least. not (is_member ◌==◌ (crossing_labels items.items) least)) (two_labels x y))) }
{
    let low = x.min(y);
    let high = x.max(y);
    let low_is_loop = !on_crossing(&items, low);
    let high_is_loop = low != high && !on_crossing(&items, high);
    if low_is_loop {
        items.push(Item::Loop(low))?;
    }
    if high_is_loop {
        items.push(Item::Loop(high))?;
    }
    Ok(items)
}
