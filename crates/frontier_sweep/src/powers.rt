//! Powers of what a loop is worth.

ghost use Rattle.std.specs.Prelude.{◌≡◌, ◌<◌, ◌≤◌, ◌*◌, ◌%◌, ◌^◌, ℕ, slice_index};

use residue_ring::Ring;
use std::marker::Model;

/// The ring, and the powers of delta that a gluing can need: no more than 24 loops close at the at most 24
/// ends of a node.
///
/// Contracts see the modulus and delta.
#[derive(Drop)]
pub(crate) struct LoopPowers {
    ring: Ring,
    delta: u64,
    powers: [u64; 25],
}

impl Model for LoopPowers {
    ghost use Rattle.frontier_sweep.specs.LoopPowers as Powers;
    ghost use Rattle.std.specs.Prelude.{◌≡◌, ◌<◌, ◌≤◌, ◌%◌, ◌^◌, ℕ, slice_index};

    ghost Value = { Powers.LoopPowers };

    ghost view = { λ powers. record { modulus = powers.ring; delta = powers.delta } };

    ghost invariant = { λ powers. (powers.delta < powers.ring) × ((k : ℕ) → k ≤ 24 → slice_index powers.powers k ≡ powers.delta ^ k % powers.ring) };
}

impl LoopPowers {
    /// The powers of delta, which is below the modulus.
    pub(crate) fn of(ring: &Ring, delta: u64) -> LoopPowers
        requires { delta < ring.now }
        ensures { result ≡ record { modulus = ring.now; delta = delta } }
    {
        let mut powers = [0; 25];
        for k in 0..25 {
            powers[k] = ring.pow(delta, k as u64);
        }
        LoopPowers {
            ring: *ring,
            delta,
            powers,
        }
    }

    /// The ring.
    #[inline]
    pub(crate) fn ring(&self) -> &Ring
        ensures { result.now ≡ self.now.modulus }
    {
        &self.ring
    }

    /// The coefficient times the weight and delta to the power of so many loops, at most 24.
    #[inline]
    pub(crate) fn scaled(&self, coefficient: u64, weight: u64, loops: u32) -> u64
        requires coefficient { coefficient < self.now.modulus }
        requires weight { weight < self.now.modulus }
        requires few { loops ≤ 24 }
        ensures value { result ≡ coefficient * (weight * self.now.delta ^ loops) % self.now.modulus }
        ensures below { result < self.now.modulus }
    {
        if loops == 0 {
            return self.ring.mul(coefficient, weight);
        }
        let power = self.powers[loops as usize];
        self.ring.mul(coefficient, self.ring.mul(weight, power))
    }

    /// The coefficient times delta to the power of so many free loops.
    pub(crate) fn with_free_loops(&self, coefficient: u64, free: u32) -> u64
        requires { coefficient < self.now.modulus }
        ensures { result ≡ coefficient * self.now.delta ^ free % self.now.modulus }
    {
        self.ring
            .mul(coefficient, self.ring.pow(self.delta, u64::from(free)))
    }
}
