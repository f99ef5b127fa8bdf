//! Orders of the items of a diagram.

ghost use Rattle.std.specs.Prelude.{◌≡◌, ◌≤◌, ◌==◌, IfOk, length, count_by};
ghost use Rattle.std.specs.List.{list_all, range_with_len};
ghost use Rattle.list_lemmas.specs.Times.{times_in};
ghost use Rattle.frontier_sweep.specs.Next.{next_of};
ghost use Rattle.wrt_commands.specs.DiagramReports.{crossing_count, item_order, next_by, order_of_items};
ghost use Rattle.wrt_commands.specs.NetReports.{has_places, net_order};
ghost use Rattle.wrt_commands.specs.ItemOrders.{is_listing, is_order_of};
ghost use Rattle.wrt_commands.specs.Stops.{Answers, Is};

use crate::arguments_refusal::ArgumentsRefusal;
use crate::refusal::Refusal;
use crate::stop::Stop;
use frontier_sweep::{Chooser, Order};
use list_lemmas::count_of;
use pd_reader::{Item, NetItem};
use std::alloc::{AllocError, Global};
use wrt_request::OrderWord;

/// How many items have places: the crossings.
fn crossings(items: &[Item]) -> usize
    ensures { result ≡ crossing_count items.now }
{
    items
        .iter()
        .filter(|item| matches!(item, Item::X(_)))
        .count()
}

/// Whether the list has each of the numbers 1 to `items` once.
fn has_each_once(items: u32, list: &[u32]) -> bool
    requires { items ≤ 256 }
    ensures { result ≡ list_all (λ item. times_in list.now item == 1) (range_with_len 1 items) }
{
    (1..items + 1).all(|item| count_of(list, item) == 1)
}

/// Whether the list has the numbers 1 to `items`, each once, and no other.
fn is_listing(items: u32, list: &[u32]) -> bool
    requires { items ≤ 256 }
    ensures { result ≡ is_listing items list.now }
{
    list.len() == items as usize && has_each_once(items, list)
}

/// Whether the order is no list, or is one of so many items.
fn is_order_of(items: u32, order: &OrderWord) -> bool
    requires { items ≤ 256 }
    ensures { result ≡ is_order_of items order.now }
{
    match order {
        OrderWord::Listed | OrderWord::Greedy => true,
        OrderWord::Given(list) => is_listing(items, list.members()),
    }
}

/// The order as what chooses.
fn chooser(alloc: Global, order: &OrderWord) -> Result<Chooser<Order>, AllocError>
    ensures { IfOk result (λ chooser. next_of chooser ≡ next_by order.now) }
{
    let order = match order {
        OrderWord::Listed => Order::Listed,
        OrderWord::Greedy => Order::Greedy,
        OrderWord::Given(list) => Order::Given(Vec::from_slice(alloc, list.members())?),
    };
    Ok(Chooser::keep(order))
}

/// What chooses so many items, which have the numbers from 1 on; a list that isn't one of them is refused.
fn order_chooser(alloc: Global, order: &OrderWord, items: u32) -> Result<Chooser<Order>, Stop>
    requires { items ≤ 256 }
    ensures { Answers (Is (order_of_items order.now items)) next_of result }
{
    if is_order_of(items, order) {
        Ok(chooser(alloc, order)?)
    } else {
        Err(Stop::Refused(Refusal::Arguments(ArgumentsRefusal::Order { items })))
    }
}

/// What chooses the crossings, which have the numbers from 1 on; a list that isn't one of them is refused.
pub(crate) fn item_chooser(
    alloc: Global,
    order: &OrderWord,
    items: &[Item],
) -> Result<Chooser<Order>, Stop>
    requires { length items.now ≤ 256 }
    ensures { Answers (Is (item_order order.now items.now)) next_of result }
{
    order_chooser(alloc, order, crossings(items) as u32)
}

/// How many items of a net have places: the crossings and the vertices.
fn placed(items: &[NetItem]) -> usize
    ensures { result ≡ count_by has_places items.now }
{
    items
        .iter()
        .filter(|item| !matches!(item, NetItem::Loop(_)))
        .count()
}

/// What chooses the items of a net that have places, which have the numbers from 1 on; a list that isn't one of them is refused.
pub(crate) fn net_chooser(
    alloc: Global,
    order: &OrderWord,
    items: &[NetItem],
) -> Result<Chooser<Order>, Stop>
    requires { length items.now ≤ 256 }
    ensures { Answers (Is (net_order order.now items.now)) next_of result }
{
    order_chooser(alloc, order, placed(items) as u32)
}
