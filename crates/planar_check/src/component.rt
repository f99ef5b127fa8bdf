//! The components of a diagram: the strands that join its labels, and the least label of each class.

ghost use Rattle.std.specs.Prelude.{MatchOption, nat_le, count_by, ◌≡◌, ◌==◌, ◌++◌, ◌^◌, ◌<◌, ◌≤◌, ℕ, length, map, slice_index, vec_len, IfOk, OnOk};
ghost use Rattle.std.specs.List.{All, filter};
ghost use Rattle.std.specs.List.Sorted.{IsStrictlySortedBy};
ghost use Rattle.std.specs.Ordering.{nat_cmp};
ghost use Rattle.graph_parts.specs.Renaming.{renamed};
ghost use Rattle.pd_reader.specs.Items.{item_labels};
ghost use Rattle.pd_reader.specs.Diagrams.{labels, IsDiagram};
ghost use Rattle.planar_check.specs.Places.{crossings_of};
ghost use Rattle.planar_check.specs.Components.{item_strands, strand_edges, distinct, rank, component_least};
ghost use Rattle.planar_check.specs.Tables.{ArePlaces, AreComponents, AreEntered, AreCrossings};

use crate::cycles::{Way, least_in_cycles};
use crate::distinct::{distinct, rank};
use crate::placed::Places;
use crate::sign::{Signed, entered, leasts_at, signed_crossings};
use part_labels::least_names;
use pd_reader::{Item, labels};
use std::alloc::{AllocError, Global};

/// Puts what the item's strands join behind that of the items before it, each label as its rank.
fn push_strands(
    edges: &mut Vec<(usize, usize)>,
    item: &Item,
    names: &[u32],
) -> Result<(), AllocError>
    requires { IsStrictlySortedBy nat_cmp names.now }
    ensures { OnOk result (edges.new.items ≡ edges.old.items ++ map (renamed (rank names.now)) (item_strands item.now)) }
{
    match item {
        Item::X([a, b, c, d]) => edges.extend_from_slice(&[
            (rank(names, *a), rank(names, *c)),
            (rank(names, *b), rank(names, *d)),
        ]),
        Item::Loop(_) => Ok(()),
    }
}

/// What a strand joins, item by item, each label as its rank.
fn strand_edges(
    alloc: Global,
    items: &[Item],
    names: &[u32],
) -> Result<Vec<(usize, usize)>, AllocError>
    requires { IsStrictlySortedBy nat_cmp names.now }
    ensures { IfOk result (λ edges. edges.items ≡ map (renamed (rank names.now)) (strand_edges items.now)) }
{
    let mut edges = Vec::new(alloc);
    for item in items {
        push_strands(&mut edges, item, names)?;
    }
    Ok(edges)
}

/// The names that have these ranks.
fn named(alloc: Global, names: &[u32], ranks: &[usize]) -> Result<Vec<u32>, AllocError>
    requires { All (λ rank. rank < length names.now) ranks.now }
    ensures { IfOk result (λ found. found.items ≡ map (slice_index names.now) ranks.now) }
{
    let mut found = Vec::new(alloc);
    for rank in ranks {
        found.push(names[*rank])?;
    }
    Ok(found)
}

/// For each of the different labels the least label of its component.
fn leasts_of(alloc: Global, items: &[Item], names: &[u32]) -> Result<Vec<u32>, AllocError>
    requires diagram { IsDiagram items.now }
    requires names { names.now ≡ distinct (labels item_labels items.now) }
    ensures { IfOk result (λ leasts. leasts.items ≡ map (component_least items.now) names.now) }
{
    let edges = strand_edges(alloc, items, names)?;
    let ranks = least_names(alloc, names.len(), &edges)?;
    let leasts = named(alloc, names, &ranks)?;
    Ok(leasts)
}

/// The names that are their own least ones.
fn own_names(alloc: Global, names: &[u32], leasts: &[u32]) -> Result<Vec<u32>, AllocError>
    requires same_length { length leasts.now ≡ length names.now }
    ensures { (least : ℕ → ℕ) → leasts.now ≡ map least names.now → IfOk result (λ own. own.items ≡ filter (λ name. least name == name) names.now) }
{
    let mut own = Vec::new(alloc);
    for (rank, name) in names.iter().enumerate() {
        if leasts[rank] == *name {
            own.push(*name)?;
        }
    }
    Ok(own)
}

/// The components of a diagram, as the least label of each and of each label's, with their walks and crossings.
#[derive(Drop, Debug)]
pub(crate) struct Components {
    /// The different labels, in increasing order.
    pub names: Vec<u32>,
    /// For each of these the least label of its component.
    pub leasts: Vec<u32>,
    /// The least label of each component, in increasing order.
    pub least_labels: Vec<u32>,
    /// For each place whether the walk of its component enters there.
    pub entered: Vec<bool>,
    /// The crossings in their order.
    pub crossings: Vec<Signed>,
}

impl Components {
    /// The components of these items, whose places are given.
    pub fn of(alloc: Global, items: &[Item], places: &Places) -> Result<Components, AllocError>
        requires diagram { IsDiagram items.now }
        requires places { ArePlaces (crossings_of items.now) places.now }
        ensures components { IfOk result (λ found. AreComponents items.now found.names.items found.leasts.items found.least_labels.items) }
        ensures entered { IfOk result (λ found. AreEntered items.now found.entered.items) }
        ensures crossings { IfOk result (λ found. AreCrossings items.now found.crossings.items) }
    {
        let labels = labels(alloc, items)?;
        let names = distinct(alloc, &labels)?;
        let leasts = leasts_of(alloc, items, &names)?;
        let all = own_names(alloc, &names, &leasts)?;
        let walks = least_in_cycles(alloc, Way::Walk, &places.after, &places.others)?;
        let there = leasts_at(alloc, &places.labels, &names, &leasts)?;
        let entered = entered(alloc, &places.firsts, &walks, &there)?;
        let crossings = signed_crossings(alloc, &entered, &there, &all, places.item_count)?;
        Ok(Components {
            names,
            leasts,
            least_labels: all,
            entered,
            crossings,
        })
    }
}

/// How many of the increasing numbers are at most this one.
pub(crate) fn count_at_most(numbers: &[u32], most: u32) -> u32
    requires few { length numbers.now < 2 ^ 32 }
    requires sorted { IsStrictlySortedBy nat_cmp numbers.now }
    ensures { result ≡ count_by (λ number. nat_le number most) numbers.now }
{
    match numbers.binary_search(&most) {
        Ok(last) => last as u32 + 1,
        Err(next) => next as u32,
    }
}

/// The number of the label's component, or nothing where the label is none of the names: `all` are the least
/// labels of all components.
pub(crate) fn component_of(names: &[u32], leasts: &[u32], all: &[u32], label: u32) -> Option<u32>
    requires sorted { IsStrictlySortedBy nat_cmp names.now }
    requires sorted_all { IsStrictlySortedBy nat_cmp all.now }
    requires few { length all.now < 2 ^ 32 }
    ensures { MatchOption result (length leasts.now ≤ rank names.now label) (λ number. (rank names.now label < length leasts.now)
        × (number ≡ count_by (λ least. nat_le least (slice_index leasts.now (rank names.now label))) all.now)) }
{
    let rank = rank(names, label);
    if rank < leasts.len() {
        Some(count_at_most(all, leasts[rank]))
    } else {
        None
    }
}
