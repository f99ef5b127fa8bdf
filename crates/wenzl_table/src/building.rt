//! Wenzl's recursion.

ghost use Rattle.std.specs.Prelude.{◌≡◌, ◌<◌, ◌≤◌, ◌↔◌, ◌+◌, ◌-◌, ℕ, IfOk, slice_index};
ghost use Rattle.root_quantum.specs.Parameters.{top_colour};
ghost use Rattle.root_quantum.specs.QuantumNumbers.{loop_value};
ghost use Rattle.strand_algebra.specs.Elements.{hook, multiply};
ghost use Rattle.strand_algebra.specs.Projectors.{projector, next_projector, wenzl_factor};
ghost use Rattle.temperley_lieb.specs.Elements.{AreBelow, element_of};
ghost use Rattle.wenzl_table.specs.Inverses.{IsFirstCommon};

use crate::fault::WenzlFault;
use crate::inverses::{FirstCommon, Inverses};
use crate::projector::Projector;
use root_quantum::Params;
use std::alloc::{AllocError, Global};
use temperley_lieb::{Element, add, beside, hook, identity, multiply, scale};

/// An element on the last hook, and that on the element: f e f.
fn round_hook(alloc: Global, params: &Params, f: &Element) -> Result<Element, AllocError>
    requires strands { 1 < f.now.strands }
    requires below { AreBelow params.now.modulus f.now }
    ensures value { IfOk result (λ element. element ≡ element_of f.now.strands
        (multiply params.now.modulus (loop_value params.now) f.now.strands
        (multiply params.now.modulus (loop_value params.now) f.now.strands f.now.terms (hook params.now.modulus f.now.strands (f.now.strands - 1)))
        f.now.terms)) }
    ensures below { IfOk result (AreBelow params.now.modulus) }
{
    let last = hook(alloc, params, f.strands(), f.strands() - 1)?;
    let hooked = multiply(alloc, params, f, &last)?;
    multiply(alloc, params, &hooked, f)
}

/// The factor of the recursion: minus `Delta_(n-1)` times the inverse of `Delta_n`.
fn factor(params: &Params, n: u32, inverse: u64) -> u64
    requires some { 0 < n }
    requires few { n ≤ 8 }
    requires inverse { inverse < params.now.modulus }
    ensures value { result ≡ wenzl_factor params.now.modulus (loop_value params.now) inverse (n - 1) }
    ensures below { result < params.now.modulus }
{
    let ring = params.ring();
    ring.neg(ring.mul(params.delta(n - 1), inverse))
}

/// f^(n+1) from f^n, with the inverse of `Delta_n`.
fn next(alloc: Global, params: &Params, f: &Element, inverse: u64) -> Result<Element, AllocError>
    requires some { 0 < f.now.strands }
    requires few { f.now.strands < 8 }
    requires below { AreBelow params.now.modulus f.now }
    requires inverse { inverse < params.now.modulus }
    ensures value { IfOk result (λ element. element ≡ element_of (f.now.strands + 1)
        (next_projector params.now.modulus (loop_value params.now) (wenzl_factor params.now.modulus (loop_value params.now) inverse (f.now.strands - 1)) (f.now.strands - 1) f.now.terms)) }
    ensures below { IfOk result (AreBelow params.now.modulus) }
{
    let wide = beside(alloc, params, f)?;
    let round = round_hook(alloc, params, &wide)?;
    let rest = scale(alloc, params, &round, factor(params, f.strands(), inverse))?;
    add(alloc, params, &wide, &rest)
}

/// f^n, by these inverses.
fn element_of_colour(
    alloc: Global,
    params: &Params,
    n: u32,
    inverses: &[u64; 8],
) -> Result<Element, AllocError>
    requires some { 0 < n }
    requires few { n ≤ 8 }
    requires below { (k : ℕ) → 0 < k → k < n → slice_index inverses.now k < params.now.modulus }
    ensures { IfOk result (λ element. element ≡ element_of n (projector params.now.modulus (loop_value params.now) (slice_index inverses.now) n)) }
{
    let mut element = identity(alloc, params, 1)?;
    for k in 1..n {
        element = next(alloc, params, &element, inverses[k as usize])?;
    }
    Ok(element)
}

/// The projector for the parameters and the colour of these inverses. The only error is want of memory.
pub(crate) fn projector(alloc: Global, inverses: &Inverses) -> Result<Projector, AllocError>
    ensures params { IfOk result (λ projector. projector.params ≡ inverses.now.params) }
    ensures colour { IfOk result (λ projector. projector.colour ≡ inverses.now.colour) }
{
    let element = element_of_colour(alloc, &inverses.params, inverses.colour, &inverses.by_index)?;
    Ok(Projector {
        params: inverses.params,
        colour: inverses.colour,
        element,
    })
}

/// The projector of colour n, from 1 to the top colour, by the recursion f^1 = one strand and
/// f^(n+1) = (f^n beside 1) - (`Delta_(n-1)` / `Delta_n`)(f^n beside 1) e_n (f^n beside 1).
///
/// `NoInverse` comes exactly where one of `Delta_1` to `Delta_(n-1)` shares a factor with m, and holds the
/// least such index and the greatest common divisor. `Memory` is want of memory.
pub fn build(alloc: Global, params: &Params, n: u32) -> Result<Projector, WenzlFault>
    requires some { 1 ≤ n }
    requires top { n ≤ top_colour params.now }
    ensures params { IfOk result (λ projector. projector.params ≡ params.now) }
    ensures colour { IfOk result (λ projector. projector.colour ≡ n) }

    // The inverses are looked for before memory is asked for.
    ensures no_inverse { (index common : ℕ) → (result ≡ Err (WenzlFault.NoInverse index common)) ↔ IsFirstCommon params.now n index common }
{
    let inverses = match Inverses::find(params, n) {
        Ok(inverses) => inverses,
        Err(FirstCommon { index, common }) => return Err(WenzlFault::NoInverse { index, common }),
    };
    match projector(alloc, &inverses) {
        Ok(projector) => Ok(projector),
        Err(AllocError) => Err(WenzlFault::Memory),
    }
}
