//! One pairing on another, and the loops of a closed pairing.

ghost use Rattle.std.specs.Prelude.{◌≡◌, ◌<◌, ◌≤◌, ◌+◌};
ghost use Rattle.strand_algebra.specs.GluedProducts.{below_names, above_name, above_names};
ghost use Rattle.strand_algebra.specs.StrandPairings.{IsPairingOn, straight, product, product_loops, closure_loops};
ghost use Rattle.temperley_lieb.specs.Stacks.{strand_seam, closing_seam};

use crate::strands::straight;
use arc_pairing::{Glued, Pairing, Seam, Turns, glue};
use arrayvec::ArrayVec;

/// The names of the points of the lower pairing, or of a single one: from 0 on.
fn below_names(strands: u32) -> ArrayVec<u32, 24>
    requires { strands ≤ 8 }
    ensures { result.items ≡ below_names strands }
{
    let mut names = ArrayVec::new();
    for name in 0..strands + strands {
        names.push(name);
    }
    names
}

/// The name of point `at` of the upper pairing: a point of its bottom has the name of the point of the lower
/// pairing's top that it is joined with.
fn above_name(strands: u32, at: u32) -> u32
    requires few { strands ≤ 8 }
    requires in_range { at < strands + strands }
    ensures { result ≡ above_name strands at }
{
    if at < strands {
        strands + strands - 1 - at
    } else {
        strands + at
    }
}

/// The names of the points of the upper pairing.
fn above_names(strands: u32) -> ArrayVec<u32, 24>
    requires { strands ≤ 8 }
    ensures { result.items ≡ above_names strands }
{
    let mut names = ArrayVec::new();
    for at in 0..strands + strands {
        names.push(above_name(strands, at));
    }
    names
}

/// Where the points of two pairings go, of which one stands on the other: made once, for any number of products.
#[derive(Drop)]
pub(crate) struct Stack {
    strands: u32,
    seam: Seam,
    ghost few: { strands ≤ 8 },
    ghost joins: { seam ≡ strand_seam strands },
}

impl Stack {
    /// For pairings of the 2n ends of n strands.
    pub(crate) fn new(strands: u32) -> Stack
        requires { strands ≤ 8 }
        ensures { result.strands ≡ strands }
    {
        let seam = Seam::of(
            below_names(strands).as_slice(),
            above_names(strands).as_slice(),
        )
        .unwrap();
        Stack { strands, seam }
    }

    /// The product of two pairings, the first on the second, and the loops that close.
    pub(crate) fn product(&self, above: &Pairing, below: &Pairing) -> Glued
        requires above { IsPairingOn self.now.strands above.now }
        requires below { IsPairingOn self.now.strands below.now }
        ensures pairing { result.pairing ≡ product self.now.strands above.now below.now }
        ensures loops { result.loops ≡ product_loops self.now.strands above.now below.now }
    {
        let mut turns = Turns::new();
        glue(below, above, &self.seam, &mut turns)
    }
}

/// Where the points of a pairing go that is closed: made once, for any number of closures.
#[derive(Drop)]
pub(crate) struct Closing {
    strands: u32,
    across: Pairing,
    seam: Seam,
    ghost few: { strands ≤ 8 },
    ghost closes: { across ≡ straight strands },
    ghost joins: { seam ≡ closing_seam strands },
}

impl Closing {
    /// For pairings of the 2n ends of n strands.
    pub(crate) fn new(strands: u32) -> Closing
        requires { strands ≤ 8 }
        ensures { result.strands ≡ strands }
    {
        let seam = Seam::of(
            below_names(strands).as_slice(),
            below_names(strands).as_slice(),
        )
        .unwrap();
        Closing {
            strands,
            across: straight(strands),
            seam,
        }
    }

    /// How many loops there are where point i is joined with point 2n-1-i.
    pub(crate) fn loops(&self, pairing: &Pairing) -> u32
        requires { IsPairingOn self.now.strands pairing.now }
        ensures { result ≡ closure_loops self.now.strands pairing.now }
    {
        let mut turns = Turns::new();
        glue(pairing, &self.across, &self.seam, &mut turns).loops
    }
}
