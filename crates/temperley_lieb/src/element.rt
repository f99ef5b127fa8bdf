//! Elements: a number of strands, and a coefficient for each noncrossing pairing of their ends.

ghost use Rattle.std.specs.Prelude.{◌≡◌, ◌≤◌};
ghost use Rattle.std.specs.List.{All};
ghost use Rattle.strand_algebra.specs.Laws.{IsNoncrossingOn};
ghost use Rattle.temperley_lieb.specs.Elements.{IsWhole};

use arc_pairing::Term;
use std::marker::Model;

/// An element of the Temperley-Lieb algebra on n strands, n at most 8 (Lickorish, ch. 13): each
/// noncrossing pairing of 2n points once, in dictionary order, with its coefficient, zeros included.
///
/// Contracts see an element as the number of its strands and the list of its terms.
#[derive(Drop)]
pub struct Element {
    pub(crate) strands: u32,
    pub(crate) terms: Vec<Term>,
}

impl Model for Element {
    ghost use Rattle.temperley_lieb.specs.Elements;

    ghost Value = { Elements.Element };

    ghost view = { λ element. record { strands = element.strands; terms = element.terms.items } };

    ghost invariant = { λ element. Elements.IsWhole record { strands = element.strands; terms = element.terms.items } };
}

impl Element {
    /// The number of strands, at most 8. It takes no memory.
    #[inline]
    pub fn strands(&self) -> u32
        ensures value { result ≡ self.now.strands }
        ensures few { self.now.strands ≤ 8 }
    {
        self.strands
    }

    /// The terms: each noncrossing pairing once, in dictionary order, with its coefficient, zeros
    /// included; 1, 1, 2, 5, 14, 42, 132, 429 and 1,430 for 0 to 8 strands. It takes no memory.
    #[inline]
    pub fn terms(&self) -> &[Term]
        ensures value { result.now ≡ self.now.terms }
        ensures whole { IsWhole self.now }
        ensures noncrossing { All (λ term. IsNoncrossingOn self.now.strands term.partner) self.now.terms }
    {
        &self.terms
    }
}
