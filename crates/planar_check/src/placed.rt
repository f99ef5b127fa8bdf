//! The places of a list of items: the slots of its crossings and vertices, numbered through.

ghost use Rattle.std.specs.Prelude.{◌≡◌, ◌+◌, ◌*◌, ◌^◌, ◌<◌, ◌≤◌, ◌++◌, List, ℕ, length, map, IfOk, OnOk, vec_len};
ghost use Rattle.std.specs.List.{range_with_len};
ghost use Rattle.planar_check.specs.Places.{item_slots, net_item_slots, slot_lists, slot_after};
ghost use Rattle.planar_check.specs.Tables.{AreLists, ArePlaces};

use crate::cycles::{Way, least_in_cycles};
use crate::other::{LabelPlaces, label_places};
use pd_reader::{Item, NetItem};
use std::alloc::{AllocError, Global};
use std::collections::BTreeMap;

/// What has slots at which labels stand: a crossing has four, a vertex three, and a loop none.
pub(crate) trait Placed {
    ghost slots_of: { Self → List ℕ };

    /// The labels at the slots, counterclockwise.
    fn slots(&self) -> &[u32]
        ensures slots { result.now ≡ slots_of self.now }
        ensures few { length result.now ≤ 4 };
}

impl Placed for Item {
    ghost slots_of = { item_slots };

    fn slots(&self) -> &[u32] {
        match self {
            Item::X(slots) => slots,
            Item::Loop(_) => &[],
        }
    }
}

impl Placed for NetItem {
    ghost slots_of = { net_item_slots };

    fn slots(&self) -> &[u32] {
        match self {
            NetItem::X(slots) => slots,
            NetItem::Y(edges) => edges,
            NetItem::Loop(_) => &[],
        }
    }
}

/// The labels at the slots, item by item, with where each slot stands.
#[derive(Drop)]
struct Slots {
    labels: Vec<u32>,
    after: Vec<usize>,
    owners: Vec<usize>,
    item_count: usize,
}

/// Puts the next places of an item's slots behind those of the items before it.
fn push_after(after: &mut Vec<usize>, slots: usize) -> Result<(), AllocError>
    requires few { vec_len after.old + slots < 2 ^ 32 }
    ensures items { OnOk result (after.new.items ≡ after.old.items ++ map (slot_after (vec_len after.old) slots) (range_with_len 0 slots)) }
    ensures more { OnOk result (vec_len after.new ≡ vec_len after.old + slots) }
{
    let start = after.len();
    for slot in 0..slots {
        after.push(start + (slot + 1) % slots)?;
    }
    Ok(())
}

/// Puts the item's number behind those of the items before it, once for each slot.
fn push_owner(owners: &mut Vec<usize>, number: usize, slots: &[u32]) -> Result<(), AllocError>
    ensures items { OnOk result (owners.new.items ≡ owners.old.items ++ map (λ _. number) slots.now) }
{
    for _label in slots {
        owners.push(number)?;
    }
    Ok(())
}

impl Slots {
    /// The slots of the items.
    fn of<I: Placed>(alloc: Global, items: &[I]) -> Result<Slots, AllocError>
        requires { length items.now ≤ 256 }
        ensures slots { IfOk result (λ slots. AreLists (slot_lists I.slots_of items.now) slots.labels.items slots.after.items slots.owners.items) }
        ensures count { IfOk result (λ slots. slots.item_count ≡ length (slot_lists I.slots_of items.now)) }
        ensures few { IfOk result (λ slots. vec_len slots.labels ≤ 4 * length items.now) }
        ensures few_items { IfOk result (λ slots. slots.item_count ≤ length items.now) }
    {
        let mut labels = Vec::new(alloc);
        let mut after = Vec::new(alloc);
        let mut owners = Vec::new(alloc);
        let mut item_count = 0;
        for item in items {
            let slots = item.slots();
            if !slots.is_empty() {
                push_after(&mut after, slots.len())?;
                push_owner(&mut owners, item_count, slots)?;
                labels.extend_from_slice(slots)?;
                item_count += 1;
            }
        }
        Ok(Slots {
            labels,
            after,
            owners,
            item_count,
        })
    }
}

/// What is known of each place, in the order of the places.
#[derive(Drop, Debug)]
pub(crate) struct Places {
    /// The label that stands at the place.
    pub labels: Vec<u32>,
    /// The next place counterclockwise at the same item.
    pub after: Vec<usize>,
    /// The number of the item, among those with slots.
    pub owners: Vec<usize>,
    /// The other place at which the label of the place stands.
    pub others: Vec<usize>,
    /// The least place of the face in which the place lies.
    pub faces: Vec<usize>,
    /// The first place of each label that stands at one.
    pub firsts: BTreeMap<u32, usize>,
    /// How many items have slots.
    pub item_count: usize,
}

impl Places {
    /// The places of the items.
    pub fn of<I: Placed>(alloc: Global, items: &[I]) -> Result<Places, AllocError>
        requires { length items.now ≤ 256 }
        ensures places { IfOk result (ArePlaces (slot_lists I.slots_of items.now)) }
        ensures few { IfOk result (λ places. vec_len places.labels ≤ 4 * length items.now) }
        ensures few_items { IfOk result (λ places. places.item_count ≤ length items.now) }
    {
        let Slots {
            labels,
            after,
            owners,
            item_count,
        } = Slots::of(alloc, items)?;
        let LabelPlaces { firsts, others } = label_places(alloc, &labels)?;
        let faces = least_in_cycles(alloc, Way::Face, &after, &others)?;
        Ok(Places {
            labels,
            after,
            owners,
            others,
            faces,
            firsts,
            item_count,
        })
    }
}
