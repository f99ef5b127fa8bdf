//! Gluing a term to a pairing, and how often that was done.

ghost use Rattle.std.specs.Prelude.{◌≡◌, ◌≢◌, ◌+◌, ◌<◌, ◌≤◌, ◌^◌, ◌++◌, ℕ, List, length, map, slice_index};
ghost use Rattle.graph_parts.specs.Patterns.{closed_parts};
ghost use Rattle.arc_gluing.specs.Mates.{mates_after, loops_after, pairs_below};
ghost use Rattle.arc_gluing.specs.Pairings.{IsPairedBy, partners_of};
ghost use Rattle.kept_seams.specs.Kept.{AreFour, IsKept, Gives};
ghost use Rattle.arc_pairing.specs.Gluing.{glued_edges, IsGluing};
ghost use Rattle.arc_pairing.specs.Pairings.{IsShortPairing};

use crate::kept::Kept;
use crate::limits::{MOST_POINTS, MOST_SLOTS};
use crate::pairing::Pairing;
use crate::seam::Seam;
use arrayvec::ArrayVec;
use std::marker::Model;

/// How many gluings there were.
///
/// Contracts see the number. It can't be copied: beside `take_in` only `glue` raises it.
#[derive(Drop)]
pub struct Turns {
    count: u128,
}

impl Model for Turns {
    ghost use Rattle.std.specs.Prelude.{ℕ};

    ghost Value = { ℕ };

    ghost view = { λ turns. turns.count };
}

impl Turns {
    /// No gluing yet. It takes no memory.
    pub fn new() -> Turns
        ensures { result ≡ 0 }
    {
        Turns { count: 0 }
    }

    /// The count. It takes no memory.
    pub fn count(&self) -> u128
        ensures { result ≡ self.now }
    {
        self.count
    }

    /// Adds the other's count to this one; both are below 2^125. It takes no memory.
    pub fn take_in(&mut self, other: Turns)
        requires room { self.old < 2 ^ 125 }
        requires other_room { other < 2 ^ 125 }
        ensures { self.new ≡ self.old + other }
    {
        self.count += other.count;
    }
}

/// A pairing of the names that a seam leaves, and the loops that closed at its other names.
#[derive(Drop)]
pub struct Glued {
    /// The pairing, by the places of the names that are left.
    pub pairing: Pairing,
    /// How many loops closed.
    pub loops: u32,
}

/// Each slot as its own mate.
const SLOTS: [u8; MOST_SLOTS] = [
    0, 1, 2, 3, 4, 5, 6, 7, 8, 9, 10, 11, 12, 13, 14, 15, 16, 17, 18, 19, 20, 21, 22, 23, 24, 25,
    26, 27, 28, 29, 30, 31, 32, 33, 34, 35, 36, 37, 38, 39, 40, 41, 42, 43, 44, 45, 46, 47,
];

/// The mates before a term is joined: the partner for each point of the pairing, and each other slot its own mate.
fn first_mates(partners: &[u8]) -> [u8; MOST_SLOTS]
    requires few { length partners.now ≤ MOST_POINTS }
    requires within { (i : ℕ) → i < length partners.now → slice_index partners.now i < length partners.now }
    ensures points { (i : ℕ) → i < length partners.now → slice_index result i ≡ slice_index partners.now i }
    ensures others { (x : ℕ) → length partners.now ≤ x → x < MOST_SLOTS → slice_index result x ≡ x }
    ensures small { (x : ℕ) → slice_index result x < MOST_SLOTS }
{
    let mut mates = SLOTS;
    for (point, partner) in partners.iter().enumerate() {
        mates[point] = *partner;
    }
    mates
}

/// Joins the pairs of a term to the mates, pair by pair, and counts the loops that close: one where
/// the two are each other's mates already.
fn join_pairs(mates: &mut [u8; MOST_SLOTS], slots: &[u8], partner: &[u8]) -> u32
    requires slots { (i : ℕ) → slice_index slots.now i < MOST_SLOTS }
    requires mates { (x : ℕ) → slice_index mates.old x < MOST_SLOTS }
    requires within { (i : ℕ) → i < length partner.now → slice_index partner.now i < length partner.now }
    requires same { length partner.now ≡ length slots.now }
    requires few { length slots.now ≤ MOST_POINTS }
    ensures mates { (x : ℕ) → slice_index mates.new x ≡ mates_after (slice_index mates.old) (pairs_below slots.now partner.now (length partner.now)) x }
    ensures small { (x : ℕ) → slice_index mates.new x < MOST_SLOTS }
    ensures bound { result ≤ length partner.now }
    ensures loops { result ≡ loops_after (slice_index mates.old) (pairs_below slots.now partner.now (length partner.now)) }
{
    let mut loops = 0;
    for i in 0..partner.len() {
        let j = usize::from(partner[i]);
        if i < j {
            let a = usize::from(slots[i]);
            let b = slots[j];
            let c = mates[a];
            if c == b {
                loops += 1;
            } else {
                let d = mates[usize::from(b)];
                mates[usize::from(c)] = d;
                mates[usize::from(d)] = c;
            }
        }
    }
    loops
}

/// The places of the mates of these slots.
fn places_of_mates(
    mates: &[u8; MOST_SLOTS],
    slots: &[u8],
    places: &[u8; MOST_SLOTS],
) -> ArrayVec<u8, MOST_POINTS>
    requires few { length slots.now ≤ MOST_POINTS }
    requires slots { (i : ℕ) → slice_index slots.now i < MOST_SLOTS }
    requires small { (x : ℕ) → slice_index mates.now x < MOST_SLOTS }
    ensures { result.items ≡ map (λ x. slice_index places.now (slice_index mates.now x)) slots.now }
{
    let mut partners = ArrayVec::new();
    for slot in slots {
        partners.push(places[usize::from(mates[usize::from(*slot)])]);
    }
    partners
}

/// Glues a term to the old pairing by mates, whatever the seam.
fn glue_by_mates(old: &Pairing, term: &Pairing, seam: &Seam) -> Glued
    requires old_fits { length old.now ≡ length seam.now.inner }
    requires term_fits { length term.now ≡ length seam.now.ends }
    ensures gluing { IsGluing seam.now old.now term.now result.pairing result.loops }
    ensures few { result.loops ≤ MOST_POINTS }
{
    let points = old.partners();
    let pairs = term.partners();
    let mut mates = first_mates(points);
    let loops = join_pairs(&mut mates, seam.end_slots.as_slice(), pairs);
    let partners = places_of_mates(&mates, seam.outer_slots.as_slice(), &seam.places);
    Glued {
        pairing: Pairing::of(partners),
        loops,
    }
}

/// Glues a term to the old pairing where the points keep their places. A term that joins each glued end with the one
/// that takes its place changes nothing; one that joins the glued ends pairs the partners of their points, or closes a
/// loop where these are paired; and one that joins each glued end with the other new one exchanges the partners.
#[inline]
fn glue_kept(old: &Pairing, term: &Pairing, kept: Kept) -> Glued
    requires s_in { kept.s < length old.now }
    requires t_in { kept.t < length old.now }
    requires apart { kept.s ≢ kept.t }
    requires four { length term.now ≡ 4 }
    requires places { AreFour kept.a kept.b kept.c kept.d }
    ensures gives { (inner ends outer : List ℕ) → IsKept inner ends outer kept.s kept.t kept.a kept.b kept.c kept.d → length old.now ≡ length inner →
        Gives inner ends outer old.now term.now result.pairing result.loops }
    ensures few { result.loops ≤ 1 }
    ensures pairings { IsShortPairing old.now × IsShortPairing term.now }
{
    let Kept { s, t, a, b, c, .. } = kept;
    let _pairs = term.len();
    let _points = old.len();
    let other = term.partner(a);
    if other == c {
        Glued {
            pairing: old.copy(),
            loops: 0,
        }
    } else if other == b {
        Glued {
            pairing: old.joined(s, t),
            loops: u32::from(old.partner(s) == t),
        }
    } else {
        Glued {
            pairing: old.crossed(s, t),
            loops: 0,
        }
    }
}

/// Glues a term of a node to the old pairing: the pairs of both join the names of the seam, each of
/// the names that are left gets the other one of its part as its partner, and the parts with no such
/// name are the loops that close (this project's own; Kauffman and Lins join tangles so).
///
/// The old pairing has a point for each name before, and the term for each end of the node; the
/// count is below 2^125, and grows by one. It takes no memory.
#[inline]
pub fn glue(old: &Pairing, term: &Pairing, seam: &Seam, turns: &mut Turns) -> Glued
    requires old_fits { length old.now ≡ length seam.now.inner }
    requires term_fits { length term.now ≡ length seam.now.ends }
    requires room { turns.old < 2 ^ 125 }
    ensures paired { IsPairedBy (glued_edges seam.now old.now term.now) seam.now.outer result.pairing }
    ensures partners { result.pairing ≡ partners_of (seam.now.inner ++ seam.now.ends) (glued_edges seam.now old.now term.now) seam.now.outer }
    ensures closed { result.loops ≡ closed_parts (seam.now.inner ++ seam.now.ends) (glued_edges seam.now old.now term.now) seam.now.outer }
    ensures few { result.loops ≤ MOST_POINTS }
    ensures turns { turns.new ≡ turns.old + 1 }
{
    turns.count += 1;
    match seam.kept {
        Some(kept) => glue_kept(old, term, kept),
        None => glue_by_mates(old, term, seam),
    }
}
