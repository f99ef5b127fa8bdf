// The ring of residues modulo m: sums, differences, negatives, products, powers and orders.
ghost use Rattle.std.specs.Prelude.{◌≡◌, ◌+◌, ◌*◌, ◌%◌, ◌<◌, ◌≤◌, ◌^◌, ◌↔◌, ℕ, pos, neg_ℤ, ◌+ℤ◌, ◌-ℤ◌, ◌*ℤ◌, IfOk, IfErr, IsOk};
ghost use Rattle.std.specs.Int.{IsGcd};
ghost use Rattle.std.proofs.Common.{sym};
ghost use Rattle.residue_ring.specs.Reciprocal.{shift_of, reciprocal_of};
ghost use Rattle.ring_identities.specs.Residues.{residue, Congruent};
ghost use Rattle.ring_identities.specs.Powers.{power, IsInverse, IsOrderUpTo};

use crate::fault::{Common, OutOfRange};
use crate::reduction::reduce;
use std::marker::Model;

/// The residues modulo m, for an m from 2 to 2^62 - 1. A contract sees a ring as its modulus.
///
/// A residue that is handed in is below m, and so is each that is given back. Beside m a ring keeps what
/// `mul` needs to do without a division.
#[derive(Clone, Copy, Debug, PartialEq, Eq)]
pub struct Ring {
    modulus: u64,
    shift: u32,
    reciprocal: u64,
}

impl Model for Ring {
    ghost Value = { ℕ };

    ghost view = { λ ring. ring.modulus };

    ghost invariant = { λ ring.
        (2 ≤ ring.modulus) × (ring.modulus < 2 ^ 62)
        × (ring.shift ≡ shift_of ring.modulus) × (ring.reciprocal ≡ reciprocal_of ring.modulus) };

    ghost inverse = { λ m. record { modulus = m; shift = shift_of m; reciprocal = reciprocal_of m } };

    ghost inverse_ok = { λ ring kept i.
        record { modulus = ring.modulus; shift = sym kept.2 i; reciprocal = sym kept.3 i } };
}

impl Ring {
    /// The ring of residues modulo m.
    ///
    /// `OutOfRange` comes exactly where m is below 2 or at least 2^62.
    pub fn new(m: u64) -> Result<Self, OutOfRange>
        ensures made { IfOk result (λ ring. ring ≡ m) }
        ensures in_range { IsOk result ↔ ((2 ≤ m) × (m < 2 ^ 62)) }
    {
        if m < 2 || m >= 1 << 62 {
            return Err(OutOfRange);
        }
        let shift = 63 - m.leading_zeros();
        let reciprocal = ((1 << (2 * shift + 2)) / u128::from(m)) as u64;
        Ok(Ring {
            modulus: m,
            shift,
            reciprocal,
        })
    }

    /// The modulus m.
    pub fn modulus(&self) -> u64
        ensures modulus { result ≡ self.now }
        ensures at_least_two { 2 ≤ result }
        ensures below_limit { result < 2 ^ 62 }
    {
        self.modulus
    }

    // The residue of 1, which stands below m.
    fn one(&self) -> u64
        ensures one { result ≡ 1 }
        ensures below { result < self.now }
    {
        let _ = &self.modulus;
        1
    }

    /// The residue of x + y.
    #[tactic(auto, using(crate::proofs::Remainders::remainders))]
    pub fn add(&self, x: u64, y: u64) -> u64
        requires x_below { x < self.now }
        requires y_below { y < self.now }
        ensures sum { result ≡ residue self.now (pos x +ℤ pos y) }
        ensures below { result < self.now }
    {
        let m = self.modulus;
        let sum = x + y;
        if sum < m { sum } else { sum - m }
    }

    /// The residue of x - y.
    #[tactic(auto, using(crate::proofs::Remainders::remainders))]
    pub fn sub(&self, x: u64, y: u64) -> u64
        requires x_below { x < self.now }
        requires y_below { y < self.now }
        ensures difference { result ≡ residue self.now (pos x -ℤ pos y) }
        ensures below { result < self.now }
    {
        let m = self.modulus;
        if x < y { x + m - y } else { x - y }
    }

    /// The residue of -x.
    #[tactic(auto, using(crate::proofs::Remainders::remainders))]
    pub fn neg(&self, x: u64) -> u64
        requires { x < self.now }
        ensures negative { result ≡ residue self.now (neg_ℤ (pos x)) }
        ensures below { result < self.now }
    {
        if x == 0 { 0 } else { self.modulus - x }
    }

    /// The residue of x y.
    #[tactic(auto, using(crate::proofs::Remainders::remainders))]
    pub fn mul(&self, x: u64, y: u64) -> u64
        requires x_below { x < self.now }
        requires y_below { y < self.now }
        ensures product { result ≡ residue self.now (pos x *ℤ pos y) }
        ensures below { result < self.now }
    {
        let m = self.modulus;
        let product = u128::from(x) * u128::from(y);
        reduce(m, self.shift, self.reciprocal, product)
    }

    /// The residue of `base` to the power `e`; with exponent 0 it is 1.
    pub fn pow(&self, base: u64, e: u64) -> u64
        requires { base < self.now }
        ensures power { result ≡ residue self.now (power (pos base) e) }
        ensures below { result < self.now }
    {
        let mut product = self.one();
        let mut square = base;
        let mut left = e;
        while left > 0 {
            if left % 2 == 1 {
                product = self.mul(product, square);
            }
            square = self.mul(square, square);
            left /= 2;
        }
        product
    }

    /// The inverse of x: the residue y with x y = 1 modulo m.
    ///
    /// `Common` comes exactly where x and m share a divisor, and holds the greatest; for x = 0 it is m.
    pub fn inverse(&self, x: u64) -> Result<u64, Common>
        requires { x < self.now }
        ensures inverse { IfOk result (λ y. IsInverse self.now x y) }
        ensures below { IfOk result (λ y. y < self.now) }
        ensures common { IfErr result (λ fault. IsGcd x self.now fault.gcd) }
        ensures coprime { IsOk result ↔ IsGcd x self.now 1 }
    {
        let (gcd, multiplier) = self.bezout(x);
        if gcd == self.one() {
            Ok(multiplier)
        } else {
            Err(Common { gcd })
        }
    }

    // The greatest common divisor of x and m, and a residue whose product with x is congruent to it.
    fn bezout(&self, x: u64) -> (u64, u64)
        requires { x < self.now }
        ensures divisor { IsGcd x self.now result.0 }
        ensures multiplier { Congruent self.now (pos result.1 *ℤ pos x) (pos result.0) }
        ensures below { result.1 < self.now }
    {
        let m = self.modulus;
        let mut divisor = m;
        let mut rest = x;
        let mut of_divisor = 0;
        let mut of_rest = 1;
        while rest > 0 {
            let quotient = divisor / rest % m;
            let remainder = divisor % rest;
            let of_remainder = self.sub(of_divisor, self.mul(quotient, of_rest));
            divisor = rest;
            rest = remainder;
            of_divisor = of_rest;
            of_rest = of_remainder;
        }
        (divisor, of_divisor)
    }

    /// The least t from 1 to `at_most` with x^t = 1 modulo m: 20 for x = 2 and m = 41.
    ///
    /// `None` comes exactly where there is no such t.
    pub fn order(&self, x: u64, at_most: u32) -> Option<u32>
        requires { x < self.now }
        ensures { IsOrderUpTo self.now x at_most result }
    {
        let mut value = self.one();
        for t in 1..=at_most {
            value = self.mul(value, x);
            if value == 1 {
                return Some(t);
            }
        }
        None
    }
}
