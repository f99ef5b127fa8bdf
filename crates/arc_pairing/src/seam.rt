//! Seams: where the points of a pairing and the ends of a node glued to it go.

ghost use Rattle.std.specs.Prelude.{◌≡◌, ◌≢◌, ◌<◌, ◌≤◌, ◌==◌, ◌++◌, ◌↔◌, ℕ, length, map, slice_index, IfOk, IsTrue};
ghost use Rattle.std.specs.List.{filter};
ghost use Rattle.std.specs.List.Sorted.{IsStrictlyIncreasing};
ghost use Rattle.list_lemmas.specs.Times.{times_in};
ghost use Rattle.arc_gluing.specs.Pairings.{AreOpen};
ghost use Rattle.arc_gluing.specs.Seams.{place_in};
ghost use Rattle.arc_pairing.specs.Gluing.{open_name_count, ChangesNothing};

use crate::kept::Kept;
use crate::limits::{MOST_POINTS, MOST_SLOTS};
use crate::pairing::Pairing;
use arrayvec::ArrayVec;
use list_lemmas::count_of;
use std::marker::Model;

/// More names are left than a pairing has room for.
#[derive(Clone, Copy, Debug, PartialEq, Eq)]
pub struct TooWide {
    /// How many names are left, more than 24.
    pub ends: u32,
}

/// Where the points of a pairing and the ends of one node go: the names that stand once in both
/// together are left, increasing, and those that stand twice are glued (this project's own).
///
/// Contracts see a seam as the three lists of names.
#[derive(Drop)]
pub struct Seam {
    inner: ArrayVec<u32, MOST_POINTS>,
    ends: ArrayVec<u32, MOST_POINTS>,
    outer: ArrayVec<u32, MOST_POINTS>,
    pub(crate) end_slots: ArrayVec<u8, MOST_POINTS>,
    pub(crate) outer_slots: ArrayVec<u8, MOST_POINTS>,
    pub(crate) places: [u8; MOST_SLOTS],
    pub(crate) kept: Option<Kept>,
}

impl Model for Seam {
    ghost use Rattle.std.specs.Prelude.{IfSome};
    ghost use Rattle.arc_gluing.specs.Seams.{IsSeam};
    ghost use Rattle.kept_seams.specs.Kept.{IsKept};
    ghost use Rattle.arc_pairing.specs.Gluing;

    ghost Value = { Gluing.Seam };

    ghost view = { λ seam. record { inner = seam.inner.items; ends = seam.ends.items; outer = seam.outer.items } };

    ghost invariant = { λ seam. IsSeam seam.inner.items seam.ends.items seam.outer.items seam.end_slots.items seam.outer_slots.items seam.places
        × IfSome seam.kept (λ kept. IsKept seam.inner.items seam.ends.items seam.outer.items kept.s kept.t kept.a kept.b kept.c kept.d) };
}

/// An equal list, of at most 24 names.
pub(crate) fn copied(names: &[u32]) -> ArrayVec<u32, MOST_POINTS>
    requires { length names.now ≤ MOST_POINTS }
    ensures { result.items ≡ names.now }
{
    let mut copies = ArrayVec::new();
    for name in names {
        copies.push(*name);
    }
    copies
}

/// The names and then the ends, of each at most 24.
fn joined(names: &[u32], ends: &[u32]) -> ArrayVec<u32, MOST_SLOTS>
    requires few_names { length names.now ≤ MOST_POINTS }
    requires few_ends { length ends.now ≤ MOST_POINTS }
    ensures { result.items ≡ names.now ++ ends.now }
{
    let mut all = ArrayVec::new();
    for name in names {
        all.push(*name);
    }
    for end in ends {
        all.push(*end);
    }
    all
}

/// The names that stand once, in order, of at most 48.
fn single_names(all: &[u32]) -> ArrayVec<u32, MOST_SLOTS>
    requires { length all.now ≤ MOST_SLOTS }
    ensures { result.items ≡ filter (λ x. times_in all.now x == 1) all.now }
{
    let mut single = ArrayVec::new();
    for name in all {
        if count_of(all, *name) == 1 {
            single.push(*name);
        }
    }
    single
}

/// The names that stand once, increasing, of at most 48.
fn names_once(all: &[u32]) -> ArrayVec<u32, MOST_SLOTS>
    requires { length all.now ≤ MOST_SLOTS }
    ensures left { AreOpen all.now result.items }
    ensures ascending { IsStrictlyIncreasing result.items }
    ensures count { length result.items ≡ open_name_count all.now }
{
    let mut single = single_names(all);
    single.sort_unstable();
    single
}

/// The slot of a name, the first place at which it stands.
pub(crate) fn slot_of(all: &[u32], name: u32) -> usize
    ensures slot { result ≡ place_in all.now name }
    ensures bound { result ≤ length all.now }
{
    for (place, other) in all.iter().enumerate() {
        if name == *other {
            return place;
        }
    }
    all.len()
}

/// The slots of the names, of which there are at most 24.
fn slots_of(all: &[u32], names: &[u32]) -> ArrayVec<u8, MOST_POINTS>
    requires few { length all.now ≤ MOST_SLOTS }
    requires few_names { length names.now ≤ MOST_POINTS }
    ensures { result.items ≡ map (place_in all.now) names.now }
{
    let mut slots = ArrayVec::new();
    for name in names {
        slots.push(slot_of(all, *name) as u8);
    }
    slots
}

/// For each slot its place in the list of these slots, all different.
fn places_of(slots: &[u8]) -> [u8; MOST_SLOTS]
    requires few { length slots.now ≤ MOST_POINTS }
    requires small { (i : ℕ) → i < length slots.now → slice_index slots.now i < MOST_SLOTS }
    requires apart { (i j : ℕ) → i < length slots.now → j < length slots.now → slice_index slots.now i ≡ slice_index slots.now j → i ≡ j }
    ensures { (i : ℕ) → i < length slots.now → slice_index result (slice_index slots.now i) ≡ i }
{
    let mut places = [0; MOST_SLOTS];
    for (place, slot) in slots.iter().enumerate() {
        places[usize::from(*slot)] = place as u8;
    }
    places
}

impl Seam {
    /// The seam of a pairing whose points have these names, increasing, and a node whose ends have
    /// those; no name stands more than twice in both together. Of no names and the ends 5, 5, 7 it
    /// leaves 7.
    ///
    /// `TooWide` holds how many names stand once, and comes exactly where these are more than 24. It
    /// takes no memory.
    pub fn of(names: &[u32], ends: &[u32]) -> Result<Seam, TooWide>
        requires few_names { length names.now ≤ MOST_POINTS }
        requires few_ends { length ends.now ≤ MOST_POINTS }
        requires increasing { IsStrictlyIncreasing names.now }
        requires few { (x : ℕ) → times_in (names.now ++ ends.now) x ≤ 2 }
        ensures made { IfOk result (λ seam. (seam.inner ≡ names.now) × (seam.ends ≡ ends.now)) }
        ensures left { IfOk result (λ seam. AreOpen (names.now ++ ends.now) seam.outer) }
        ensures ascending { IfOk result (λ seam. IsStrictlyIncreasing seam.outer) }
        ensures wide { (count : ℕ) → (result ≡ Err (record { ends = count })) ↔ (MOST_POINTS < open_name_count (names.now ++ ends.now)) × (count ≡ open_name_count (names.now ++ ends.now)) }
    {
        let all = joined(names, ends);
        let single = names_once(all.as_slice());
        if single.len() > MOST_POINTS {
            return Err(TooWide {
                ends: single.len() as u32,
            });
        }
        Ok(Seam::keeping(names, ends, single.as_slice()))
    }

    /// The seam of a pairing whose points have these names and a node whose ends have those, where what is left is
    /// given in an order of its own: each name that stands once in both together, once. Of the names 9, 2 and the
    /// ends 2, 4 it can leave 9, 4, so that 4 takes the place of 2. It takes no memory.
    pub fn keeping(names: &[u32], ends: &[u32], outer: &[u32]) -> Seam
        requires few_names { length names.now ≤ MOST_POINTS }
        requires few_ends { length ends.now ≤ MOST_POINTS }
        requires few_outer { length outer.now ≤ MOST_POINTS }
        requires apart { (i k : ℕ) → i < k → k < length names.now → slice_index names.now i ≢ slice_index names.now k }
        requires few { (x : ℕ) → times_in (names.now ++ ends.now) x ≤ 2 }
        requires left { AreOpen (names.now ++ ends.now) outer.now }
        ensures { result ≡ record { inner = names.now; ends = ends.now; outer = outer.now } }
    {
        let all = joined(names, ends);
        let end_slots = slots_of(all.as_slice(), ends);
        let outer_slots = slots_of(all.as_slice(), outer);
        let places = places_of(outer_slots.as_slice());
        let kept = Kept::find(names, ends, outer);
        Seam {
            inner: copied(names),
            ends: copied(ends),
            outer: copied(outer),
            end_slots,
            outer_slots,
            places,
            kept,
        }
    }

    /// The names that are left: increasing where `of` made the seam. It takes no memory.
    pub fn into_names(self) -> ArrayVec<u32, MOST_POINTS>
        ensures { result.items ≡ self.outer }
    {
        self.outer
    }

    /// The names that are left, those that stand once: increasing where `of` made the seam. It takes no memory.
    #[inline]
    pub fn names(&self) -> &[u32]
        ensures value { result.now ≡ self.now.outer }
        ensures left { AreOpen (self.now.inner ++ self.now.ends) self.now.outer }
        ensures few { length self.now.outer ≤ MOST_POINTS }
    {
        self.outer.as_slice()
    }

    /// Whether gluing the term, which has a point for each end of the node, is seen to change nothing: the seam keeps
    /// places, and the term joins each end that is glued with the one that takes its place. It takes no memory.
    #[inline]
    pub fn keeps(&self, term: &Pairing) -> bool
        requires { length term.now ≡ length self.now.ends }
        ensures { IsTrue result → ChangesNothing self.now term.now }
    {
        let _ends = term.len();
        match self.kept {
            Some(kept) => term.partner(kept.a) == kept.c,
            None => false,
        }
    }
}
