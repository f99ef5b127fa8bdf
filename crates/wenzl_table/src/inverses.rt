//! The inverses of the quantum numbers.

ghost use Rattle.std.specs.Prelude.{◌≡◌, ◌<◌, ◌≤◌, ℕ, IfOk, IfErr, slice_index};
ghost use Rattle.root_quantum.specs.Parameters.{top_colour};
ghost use Rattle.root_quantum.specs.QuantumNumbers.{loop_value};
ghost use Rattle.strand_algebra.specs.Projectors.{AreInverses};
ghost use Rattle.wenzl_table.specs.Inverses.{AreCoprime, IsFirstCommon};

use root_quantum::Params;

/// The first of `Delta_1` to `Delta_(n-1)` that shares a factor with the modulus.
#[derive(Clone, Copy)]
pub(crate) struct FirstCommon {
    /// Its index.
    pub(crate) index: u32,
    /// The greatest common divisor.
    pub(crate) common: u64,
}

/// Parameters and a colour n from 1 to the top colour, with the inverses of `Delta_1` to `Delta_(n-1)`, at
/// their indices.
#[derive(Clone, Copy)]
pub(crate) struct Inverses {
    pub(crate) params: Params,
    pub(crate) colour: u32,
    pub(crate) by_index: [u64; 8],
    pub ghost some: { 1 ≤ colour },
    pub ghost top: { colour ≤ top_colour params },
    pub ghost inverses: { AreInverses params.modulus (loop_value params) (slice_index by_index) colour },
    pub ghost below: { (k : ℕ) → 0 < k → k < colour → slice_index by_index k < params.modulus },
}

impl Inverses {
    /// The inverses of `Delta_1` to `Delta_(n-1)`.
    pub(crate) fn find(params: &Params, n: u32) -> Result<Inverses, FirstCommon>
        requires some { 1 ≤ n }
        requires top { n ≤ top_colour params.now }
        ensures made { IfOk result (λ inverses. (inverses.params ≡ params.now) × (inverses.colour ≡ n)) }
        ensures coprime { IfOk result (λ _. AreCoprime params.now n) }
        ensures common { IfErr result (λ first. IsFirstCommon params.now n first.index first.common) }
    {
        let mut by_index = [0u64; 8];
        for index in 1..n {
            match params.inverse_delta(index) {
                Ok(inverse) => by_index[index as usize] = inverse,
                Err(fault) => {
                    return Err(FirstCommon {
                        index,
                        common: fault.gcd,
                    });
                }
            }
        }
        Ok(Inverses {
            params: *params,
            colour: n,
            by_index,
        })
    }
}
