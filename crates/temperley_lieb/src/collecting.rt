//! Collecting terms into an element, one by one.

ghost use Rattle.std.specs.Prelude.{◌≡◌, ◌<◌, ◌≤◌, [], ◌∷◌, get_or, length, IfOk};
ghost use Rattle.std.specs.Cmp.Lexicographic.{slice_cmp};
ghost use Rattle.std.specs.Ordering.{nat_cmp};
ghost use Rattle.state_sums.specs.Networks.{Term};
ghost use Rattle.strand_algebra.specs.Elements.{add};
ghost use Rattle.strand_algebra.specs.Laws.{IsNoncrossingOn, nothing};
ghost use Rattle.temperley_lieb.specs.Elements.{AreBelow, element_of};

use crate::element::Element;
use crate::noncrossing::noncrossing;
use arc_pairing::{Pairing, Term};
use residue_ring::Ring;
use std::alloc::{AllocError, Global};
use std::cmp::Ordering;

/// How the pairing of a term stands to this one.
fn compare(term: &Term, pairing: &Pairing) -> Ordering
    ensures { result ≡ slice_cmp nat_cmp term.now.partner pairing.now }
{
    term.pairing.cmp(pairing)
}

/// The place of a noncrossing pairing among the terms of an element.
fn place_of(element: &Element, pairing: &Pairing) -> usize
    requires { IsNoncrossingOn element.now.strands pairing.now }
    ensures within { result < length element.now.terms }
    ensures there { (d : Term) → pairing.now ≡ (get_or element.now.terms result d).partner }
{
    element
        .terms
        .binary_search_by(|term| compare(term, pairing))
        .unwrap()
}

/// All coefficients 0.
pub(crate) fn nothing(alloc: Global, ring: &Ring, strands: u32) -> Result<Element, AllocError>
    requires few { strands ≤ 8 }
    requires ring { 0 < ring.now }
    ensures value { IfOk result (λ element. element ≡ element_of strands (nothing ring.now strands)) }
    ensures below { IfOk result (AreBelow ring.now) }
{
    let pairings = noncrossing(alloc, strands)?;
    let mut terms = Vec::with_capacity(alloc, pairings.len())?;
    for pairing in &pairings {
        terms.push(Term {
            weight: 0,
            pairing: pairing.copy(),
        })?;
    }
    Ok(Element { strands, terms })
}

/// Adds a term with a noncrossing pairing: the coefficient of that pairing grows by the weight.
pub(crate) fn collect(sum: &mut Element, ring: &Ring, weight: u64, pairing: &Pairing)
    requires weight { weight < ring.now }
    requires below { AreBelow ring.now sum.old }
    requires noncrossing { IsNoncrossingOn sum.old.strands pairing.now }
    ensures value { sum.new ≡ element_of sum.old.strands (add ring.now sum.old.strands sum.old.terms (record { weight = weight; partner = pairing.now } ∷ [])) }
    ensures below { AreBelow ring.now sum.new }
{
    let place = place_of(sum, pairing);
    let before = sum.terms[place].weight;
    sum.terms[place].weight = ring.add(before, weight);
}
