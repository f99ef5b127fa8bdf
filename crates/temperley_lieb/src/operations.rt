//! The operations of the algebra.

ghost use Rattle.std.specs.Prelude.{◌≡◌, ◌<◌, ◌≤◌, ◌+◌, ◌*◌, ◌%◌, ◌^◌, map, IfOk};
ghost use Rattle.root_quantum.specs.QuantumNumbers.{loop_value};
ghost use Rattle.strand_algebra.specs.Elements.{IsElement, identity, hook, add, scaled, multiply, beside, term_on};
ghost use Rattle.strand_algebra.specs.Laws.{IsNoncrossingOn};
ghost use Rattle.temperley_lieb.specs.Elements.{AreBelow, element_of};

use crate::collecting::{collect, nothing};
use crate::element::Element;
use crate::stacking::Stack;
use crate::strands::{hooked, straight, widened};
use arc_pairing::Term;
use residue_ring::Ring;
use root_quantum::Params;
use std::alloc::{AllocError, Global};

/// The identity on n strands, n at most 8: each strand's bottom joined to its top, with coefficient 1; all
/// other coefficients are 0. The only error is want of memory.
pub fn identity(alloc: Global, params: &Params, n: u32) -> Result<Element, AllocError>
    requires { n ≤ 8 }
    ensures value { IfOk result (λ element. element ≡ element_of n (identity params.now.modulus n)) }
    ensures below { IfOk result (AreBelow params.now.modulus) }
{
    let ring = params.ring();
    let mut element = nothing(alloc, ring, n)?;
    collect(&mut element, ring, 1, &straight(n));
    Ok(element)
}

/// The hook i on n strands, n at most 8 and i from 1 to n-1: strands i and i+1 joined at the bottom and at
/// the top, the others straight, with coefficient 1; all other coefficients are 0. The only error is want of
/// memory.
pub fn hook(alloc: Global, params: &Params, n: u32, i: u32) -> Result<Element, AllocError>
    requires few { n ≤ 8 }
    requires above { 0 < i }
    requires below { i < n }
    ensures value { IfOk result (λ element. element ≡ element_of n (hook params.now.modulus n i)) }
    ensures below { IfOk result (AreBelow params.now.modulus) }
{
    let ring = params.ring();
    let mut element = nothing(alloc, ring, n)?;
    collect(&mut element, ring, 1, &hooked(n, i));
    Ok(element)
}

/// Adds each of the terms of the other element.
fn collect_all(sum: &mut Element, ring: &Ring, other: &Element)
    requires ring { 0 < ring.now }
    requires strands { sum.old.strands ≡ other.now.strands }
    requires sum { IsElement ring.now sum.old.strands sum.old.terms }
    requires other_below { AreBelow ring.now other.now }
    ensures value { sum.new ≡ element_of sum.old.strands (add ring.now sum.old.strands sum.old.terms other.now.terms) }
    ensures below { AreBelow ring.now sum.new }
{
    for term in other.terms() {
        collect(sum, ring, term.weight, &term.pairing);
    }
}

/// The sum of two elements on equally many strands, coefficient by coefficient modulo m. The coefficients of
/// both are below m. The only error is want of memory.
pub fn add(alloc: Global, params: &Params, x: &Element, y: &Element) -> Result<Element, AllocError>
    requires strands { x.now.strands ≡ y.now.strands }
    requires x_below { AreBelow params.now.modulus x.now }
    requires y_below { AreBelow params.now.modulus y.now }
    ensures value { IfOk result (λ element. element ≡ element_of x.now.strands (add params.now.modulus x.now.strands x.now.terms y.now.terms)) }
    ensures below { IfOk result (AreBelow params.now.modulus) }
{
    let ring = params.ring();
    let mut sum = nothing(alloc, ring, x.strands())?;
    collect_all(&mut sum, ring, x);
    collect_all(&mut sum, ring, y);
    Ok(sum)
}

/// Each coefficient times `by` modulo m. The coefficients and `by` are below m. The only error is want of memory.
pub fn scale(alloc: Global, params: &Params, x: &Element, by: u64) -> Result<Element, AllocError>
    requires below { AreBelow params.now.modulus x.now }
    requires by { by < params.now.modulus }
    ensures value { IfOk result (λ element. element ≡ element_of x.now.strands (scaled params.now.modulus x.now.strands by x.now.terms)) }
    ensures below { IfOk result (AreBelow params.now.modulus) }
{
    let ring = params.ring();
    let mut multiple = nothing(alloc, ring, x.strands())?;
    for term in x.terms() {
        collect(
            &mut multiple,
            ring,
            ring.mul(by, term.weight),
            &term.pairing,
        );
    }
    Ok(multiple)
}

/// The element with one more straight strand on the right; x has at most 7 strands, and its coefficients are
/// below m. The only error is want of memory.
pub fn beside(alloc: Global, params: &Params, x: &Element) -> Result<Element, AllocError>
    requires few { x.now.strands < 8 }
    requires below { AreBelow params.now.modulus x.now }
    ensures value { IfOk result (λ element. element ≡ element_of (x.now.strands + 1) (beside params.now.modulus x.now.strands x.now.terms)) }
    ensures below { IfOk result (AreBelow params.now.modulus) }
{
    let ring = params.ring();
    let strands = x.strands();
    let mut wider = nothing(alloc, ring, strands + 1)?;
    for term in x.terms() {
        let pairing = widened(strands, &term.pairing);
        collect(&mut wider, ring, term.weight, &pairing);
    }
    Ok(wider)
}

/// What one term on another is worth: both weights times delta for each loop that closes.
fn worth(ring: &Ring, delta: u64, above: u64, below: u64, loops: u32) -> u64
    requires delta { delta < ring.now }
    requires above { above < ring.now }
    requires below { below < ring.now }
    ensures value { result ≡ (above * (below * delta ^ loops)) % ring.now }
    ensures below { result < ring.now }
{
    let of_loops = ring.pow(delta, u64::from(loops));
    ring.mul(above, ring.mul(below, of_loops))
}

/// Adds a term on each term of the lower element. Terms of weight 0 add nothing and are passed over.
fn collect_row(sum: &mut Element, ring: &Ring, delta: u64, stack: &Stack, above: &Term, y: &Element)
    requires ring { 0 < ring.now }
    requires delta { delta < ring.now }
    requires strands { y.now.strands ≡ stack.now.strands }
    requires sum_strands { sum.old.strands ≡ stack.now.strands }
    requires sum { IsElement ring.now sum.old.strands sum.old.terms }
    requires weight { above.now.weight < ring.now }
    requires above { IsNoncrossingOn stack.now.strands above.now.partner }
    requires below { AreBelow ring.now y.now }
    ensures { sum.new ≡ element_of sum.old.strands (add ring.now sum.old.strands sum.old.terms (map (term_on delta sum.old.strands above.now) y.now.terms)) }
{
    for below in y.terms() {
        if below.weight != 0 {
            let glued = stack.product(&above.pairing, &below.pairing);
            let weight = worth(ring, delta, above.weight, below.weight, glued.loops);
            collect(sum, ring, weight, &glued.pairing);
        }
    }
}

/// The product of two elements on equally many strands, x stacked on y: the coefficient of a pairing is the
/// sum, over all pairs of pairings with that product, of both coefficients times delta to the number of loops
/// that close (Lickorish, ch. 13). The coefficients of both are below m. The only error is want of memory.
pub fn multiply(
    alloc: Global,
    params: &Params,
    x: &Element,
    y: &Element,
) -> Result<Element, AllocError>
    requires strands { x.now.strands ≡ y.now.strands }
    requires x_below { AreBelow params.now.modulus x.now }
    requires y_below { AreBelow params.now.modulus y.now }
    ensures value { IfOk result (λ element. element ≡ element_of x.now.strands (multiply params.now.modulus (loop_value params.now) x.now.strands x.now.terms y.now.terms)) }
    ensures below { IfOk result (AreBelow params.now.modulus) }
{
    let ring = params.ring();
    let delta = params.loop_value();
    let stack = Stack::new(x.strands());
    let mut product = nothing(alloc, ring, x.strands())?;
    for above in x.terms() {
        if above.weight != 0 {
            collect_row(&mut product, ring, delta, &stack, above, y);
        }
    }
    Ok(product)
}
