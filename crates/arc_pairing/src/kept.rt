//! Seams at which the points keep their places: two new ends take the places of two that are glued.

ghost use Rattle.std.specs.Prelude.{◌≡◌, ◌<◌, ◌≤◌, ◌++◌, ◌↔◌, ℕ, length, slice_set, IfSome, IsTrue};
ghost use Rattle.list_lemmas.specs.Times.{times_in};
ghost use Rattle.arc_gluing.specs.Pairings.{AreOpen};
ghost use Rattle.kept_seams.specs.Kept.{AreFour, IsKept};

use crate::limits::MOST_POINTS;
use crate::seam::{copied, slot_of};

/// The points s and t of a pairing at which the ends a and b of a node with four ends are glued, and the two other ends:
/// c takes the place of s, and d that of t.
#[derive(Clone, Copy)]
pub(crate) struct Kept {
    pub(crate) s: u8,
    pub(crate) t: u8,
    pub(crate) a: u8,
    pub(crate) b: u8,
    pub(crate) c: u8,
    pub(crate) d: u8,
}

/// The two of the numbers below 4 that are neither of these.
fn others(a: u8, b: u8) -> (u8, u8)
    requires apart { a < b }
    requires small { b < 4 }
    ensures { AreFour a b result.0 result.1 }
{
    match (a, b) {
        (0, 1) => (2, 3),
        (0, 2) => (1, 3),
        (0, 3) => (1, 2),
        (1, 2) => (0, 3),
        (1, 3) => (0, 2),
        _ => (0, 1),
    }
}

/// Whether what is left are the names with x in the place of s and y in that of t.
fn are_replaced(names: &[u32], s: usize, x: u32, t: usize, y: u32, outer: &[u32]) -> bool
    requires few { length names.now ≤ MOST_POINTS }
    requires s_in { s < length names.now }
    requires t_in { t < length names.now }
    ensures { IsTrue result ↔ (outer.now ≡ slice_set (slice_set names.now s x) t y) }
{
    let mut replaced = copied(names);
    let places = replaced.as_mut_slice();
    places[s] = x;
    places[t] = y;
    outer == replaced.as_slice()
}

impl Kept {
    /// The places that are kept, if two of four ends are glued and what is left are the names with the two others in
    /// their places.
    pub(crate) fn find(names: &[u32], ends: &[u32], outer: &[u32]) -> Option<Kept>
        requires few_names { length names.now ≤ MOST_POINTS }
        requires single { (x : ℕ) → times_in names.now x ≤ 1 }
        requires few { (x : ℕ) → times_in (names.now ++ ends.now) x ≤ 2 }
        requires left { AreOpen (names.now ++ ends.now) outer.now }
        ensures { IfSome result (λ kept. IsKept names.now ends.now outer.now kept.s kept.t kept.a kept.b kept.c kept.d) }
    {
        if ends.len() != 4 {
            return None;
        }
        for a in 0..3u8 {
            for b in a + 1..4 {
                let s = slot_of(names, ends[usize::from(a)]);
                let t = slot_of(names, ends[usize::from(b)]);
                if s < names.len() && t < names.len() && s != t {
                    let (c, d) = others(a, b);
                    let (x, y) = (ends[usize::from(c)], ends[usize::from(d)]);
                    let (s8, t8) = (s as u8, t as u8);
                    if are_replaced(names, s, x, t, y, outer) {
                        return Some(Kept {
                            s: s8,
                            t: t8,
                            a,
                            b,
                            c,
                            d,
                        });
                    }
                    if are_replaced(names, s, y, t, x, outer) {
                        return Some(Kept {
                            s: s8,
                            t: t8,
                            a,
                            b,
                            c: d,
                            d: c,
                        });
                    }
                }
            }
        }
        None
    }
}
