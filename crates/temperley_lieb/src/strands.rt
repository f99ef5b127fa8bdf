//! Pairings of the ends of strands.

ghost use Rattle.std.specs.Prelude.{◌≡◌, ◌<◌, ◌≤◌, ◌+◌};
ghost use Rattle.strand_algebra.specs.StrandPairings.{straight, hooked, hooked_point, widened, moved};
ghost use Rattle.strand_algebra.specs.Laws.{IsNoncrossingOn};

use arc_pairing::Pairing;
use arrayvec::ArrayVec;

/// Straight strands, at most 8: point i is paired with point 2n-1-i, for n strands.
pub fn straight(strands: u32) -> Pairing
    requires { strands ≤ 8 }
    ensures { result ≡ straight strands }
{
    let points = 2 * strands as u8;
    let mut partners: ArrayVec<u8, 24> = ArrayVec::new();
    for at in 0..points {
        partners.push(points - 1 - at);
    }
    Pairing::new(partners.as_slice()).unwrap()
}

/// The partner of point `at` where strands i and i+1, counted from 1, are joined at the bottom and at the top.
fn hooked_point(strands: u8, i: u8, at: u8) -> u8
    requires few { strands ≤ 8 }
    requires above { 0 < i }
    requires below { i < strands }
    requires in_range { at < strands + strands }
    ensures { result ≡ hooked_point strands i at }
{
    let points = 2 * strands;
    if at == i - 1 {
        i
    } else if at == i {
        i - 1
    } else if at == points - i {
        points - 1 - i
    } else if at == points - 1 - i {
        points - i
    } else {
        points - 1 - at
    }
}

/// Strands i and i+1, counted from 1, joined at the bottom and at the top, the others straight.
pub(crate) fn hooked(strands: u32, i: u32) -> Pairing
    requires few { strands ≤ 8 }
    requires above { 0 < i }
    requires below { i < strands }
    ensures { result ≡ hooked strands i }
{
    let mut partners: ArrayVec<u8, 24> = ArrayVec::new();
    for at in 0..2 * strands as u8 {
        partners.push(hooked_point(strands as u8, i as u8, at));
    }
    Pairing::new(partners.as_slice()).unwrap()
}

/// Point `at` where two points were put in from point n on.
fn moved(strands: u8, at: u8) -> u8
    requires { at < 22 }
    ensures { result ≡ moved strands at }
{
    if at < strands { at } else { at + 2 }
}

/// One more straight strand on the right; its points are n and n+1.
pub(crate) fn widened(strands: u32, pairing: &Pairing) -> Pairing
    requires few { strands < 8 }
    requires noncrossing { IsNoncrossingOn strands pairing.now }
    ensures { result ≡ widened strands pairing.now }
{
    let strands = strands as u8;
    let (bottom, top) = pairing.partners().split_at(usize::from(strands));
    let mut wider: ArrayVec<u8, 24> = ArrayVec::new();
    for point in bottom {
        wider.push(moved(strands, *point));
    }
    wider.push(strands + 1);
    wider.push(strands);
    for point in top {
        wider.push(moved(strands, *point));
    }
    Pairing::new(wider.as_slice()).unwrap()
}
