//! The places of the open names: which new name takes whose place.

ghost use Rattle.std.specs.Prelude.{◌≡◌, ◌<◌, ◌≤◌, ◌==◌, ◌&&◌, ◌++◌, ℕ, List, length, IfOk, IfErr, IfSome};
ghost use Rattle.std.specs.List.{filter};
ghost use Rattle.std.specs.List.Sorted.{IsStrictlyIncreasing};
ghost use Rattle.list_lemmas.specs.Times.{times_in};
ghost use Rattle.arc_gluing.specs.Pairings.{AreOpen};
ghost use Rattle.arc_pairing.specs.Gluing.{open_name_count};
ghost use Rattle.arc_pairing.specs.Nodes.{IsShortNode};
ghost use Rattle.frontier_sweep.specs.Places.{is_new};
ghost use Rattle.frontier_sweep.specs.Steps.{IsSeamOf};

use arc_pairing::{MOST_POINTS, Node, Seam, TooWide};
use arrayvec::ArrayVec;
use list_lemmas::count_of;

/// The most names that are looked at in a step: the open ones and the ends of a node.
const MOST_NAMES: usize = 48;

/// Where the name stands first.
fn place_of(names: &[u32], name: u32) -> Option<usize>
    ensures { IfSome result (λ place. place < length names.now) }
{
    for (place, other) in names.iter().enumerate() {
        if *other == name {
            return Some(place);
        }
    }
    None
}

/// The ends of a node that are new: they stand once among its ends, and not among the names.
fn new_names(names: &[u32], ends: &[u32]) -> ArrayVec<u32, MOST_POINTS>
    requires { length ends.now ≤ MOST_POINTS }
    ensures { result.items ≡ filter (is_new names.now ends.now) ends.now }
{
    let mut found = ArrayVec::new();
    for end in ends {
        if count_of(ends, *end) == 1 && count_of(names, *end) == 0 {
            found.push(*end);
        }
    }
    found
}

/// Where, among these new names, the one stands that a pairing of the ends joins to that end.
fn partner_among(ends: &[u32], partners: &[u8], end: u32, fresh: &[u32]) -> Option<usize>
    ensures { IfSome result (λ place. place < length fresh.now) }
{
    let place = place_of(ends, end)?;
    let partner = partners.get(place)?;
    let other = ends.get(usize::from(*partner))?;
    place_of(fresh, *other)
}

/// Which of the new names takes the place of a glued one: the one that the first or the second term of the
/// node joins to it, so that this term changes few pairings; else the first.
fn heir(node: &Node, glued: u32, fresh: &[u32]) -> usize
    requires { 0 < length fresh.now }
    ensures { result < length fresh.now }
{
    let terms = node.terms();
    for term in &terms[..terms.len().min(2)] {
        match partner_among(node.ends(), term.pairing.partners(), glued, fresh) {
            Some(place) => return place,
            None => {}
        }
    }
    0
}

/// The names that are open with the node, where these were open before, each once: those that stay open keep
/// their order, and new ones stand where names were glued, as far as there are both; the rest of the new ones is last.
fn open_with(names: &[u32], node: &Node) -> ArrayVec<u32, MOST_NAMES>
    requires few { length names.now ≤ MOST_POINTS }
    requires single { (x : ℕ) → times_in names.now x ≤ 1 }
    ensures { AreOpen (names.now ++ node.now.ends) result.items }
{
    let ends = node.ends();
    let mut fresh = new_names(names, ends);
    let mut open = ArrayVec::new();
    for name in names {
        if count_of(ends, *name) == 0 {
            open.push(*name);
        } else if fresh.len() > 0 {
            let place = heir(node, *name, fresh.as_slice());
            open.push(fresh.remove(place));
        }
    }
    for end in fresh.as_slice() {
        open.push(*end);
    }
    open
}

/// The seam of the open names, in their places, and the node. `TooWide` tells how many names would be open.
pub(crate) fn kept_seam(names: &[u32], node: &Node) -> Result<Seam, TooWide>
    requires few_names { length names.now ≤ MOST_POINTS }
    requires single { (x : ℕ) → times_in names.now x ≤ 1 }
    requires few { (x : ℕ) → times_in (names.now ++ node.now.ends) x ≤ 2 }
    ensures seam { IfOk result (IsSeamOf names.now node.now.ends) }
    ensures wide { IfErr result (λ wide. (MOST_POINTS < open_name_count (names.now ++ node.now.ends)) × (wide.ends ≡ open_name_count (names.now ++ node.now.ends))) }
{
    let outer = open_with(names, node);
    if outer.len() > MOST_POINTS {
        return Err(TooWide {
            ends: outer.len() as u32,
        });
    }
    Ok(Seam::keeping(names, node.ends(), outer.as_slice()))
}

/// The same names, increasing.
pub(crate) fn increasing(names: &[u32]) -> ArrayVec<u32, MOST_POINTS>
    requires { length names.now ≤ MOST_POINTS }
    ensures open { (all : List ℕ) → AreOpen all names.now → AreOpen all result.items }
    ensures ascending { (all : List ℕ) → AreOpen all names.now → IsStrictlyIncreasing result.items }
{
    let mut sorted = ArrayVec::new();
    for name in names {
        sorted.push(*name);
    }
    sorted.sort_unstable();
    sorted
}
