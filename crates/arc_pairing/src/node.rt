//! Terms and nodes.

ghost use Rattle.std.specs.Prelude.{◌≡◌, ◌<◌, ◌≤◌, ◌↔◌, ℕ, length, IfOk, OnOk};
ghost use Rattle.std.specs.List.{All};
ghost use Rattle.arc_pairing.specs.Pairings.{IsShortPairing};
ghost use Rattle.arc_pairing.specs.Nodes.{IsShortNode, first_misfit};

use crate::fault::NodeFault;
use crate::limits::{MOST_POINTS, MOST_TERMS};
use crate::pairing::Pairing;
use std::alloc::{AllocError, Global};
use std::marker::Model;

/// One way to connect the ends of a node: a pairing of their places, with its weight, a residue.
#[derive(Drop)]
pub struct Term {
    /// The weight.
    pub weight: u64,
    /// Which place is joined to which.
    pub pairing: Pairing,
}

impl Model for Term {
    ghost use Rattle.state_sums.specs.Networks;

    ghost Value = { Networks.Term };

    ghost view = { λ term. record { weight = term.weight; partner = term.pairing } };
}

impl Term {
    /// An equal term. It takes no memory.
    pub fn copy(&self) -> Term
        ensures value { result ≡ self.now }
        ensures pairing { IsShortPairing self.now.partner }
    {
        Term {
            weight: self.weight,
            pairing: self.pairing.copy(),
        }
    }
}

/// A place where strands meet: at most 24 named ends, and the ways to connect them, at most
/// 1,048,576 weighted pairings of these ends.
///
/// Contracts see a node as a group number, the list of its names and the list of its terms; `IsNode`
/// says what each keeps. Only given orders read the group.
#[derive(Drop)]
pub struct Node {
    group: u32,
    ends: Vec<u32>,
    terms: Vec<Term>,
}

impl Model for Node {
    ghost use Rattle.state_sums.specs.Networks;
    ghost use Rattle.arc_pairing.specs.Nodes.{IsShortNode};

    ghost Value = { Networks.Node };

    ghost view = { λ node. record { group = node.group; ends = node.ends.items; terms = node.terms.items } };

    ghost invariant = { λ node. IsShortNode record { group = node.group; ends = node.ends.items; terms = node.terms.items } };
}

/// The first term whose pairing hasn't so many points as there are ends.
fn first_misfit(ends: usize, terms: &[Term]) -> Option<usize>
    ensures { result ≡ first_misfit ends terms.now }
{
    terms
        .iter()
        .position(|term| usize::from(term.pairing.len()) != ends)
}

/// Equal terms.
fn copied(alloc: Global, terms: &[Term]) -> Result<Vec<Term>, AllocError>
    ensures value { IfOk result (λ copies. copies.items ≡ terms.now) }
    ensures pairings { OnOk result (All (λ term. IsShortPairing term.partner) terms.now) }
{
    let mut copies = Vec::with_capacity(alloc, terms.len())?;
    for term in terms {
        copies.push(term.copy())?;
    }
    Ok(copies)
}

impl Node {
    /// The node of this group whose ends have these names, in order, and which has these terms.
    ///
    /// The group is any number; only given orders read it. `Long` holds how many ends were given and
    /// comes exactly past 24, then `TooMany` holds 1,048,576 and comes exactly past as many terms,
    /// then `Ends` holds the first term, counted from 0, whose pairing hasn't as many points as there
    /// are ends. `Memory` is want of memory.
    pub fn new(alloc: Global, group: u32, ends: &[u32], terms: &[Term]) -> Result<Node, NodeFault>
        ensures made { IfOk result (λ node. node ≡ record { group = group; ends = ends.now; terms = terms.now }) }

        // The refusals, in their order; the limits are looked at before memory is asked for.
        ensures long { (given : ℕ) → (result ≡ Err (NodeFault.Long given)) ↔ (MOST_POINTS < length ends.now) × (given ≡ length ends.now) }
        ensures too_many { (limit : ℕ) → (result ≡ Err (NodeFault.TooMany limit)) ↔ (length ends.now ≤ MOST_POINTS) × (MOST_TERMS < length terms.now) × (limit ≡ MOST_TERMS) }
        ensures misfit { (term : ℕ) → (result ≡ Err (NodeFault.Ends term))
            ↔ (length ends.now ≤ MOST_POINTS) × (length terms.now ≤ MOST_TERMS) × (first_misfit (length ends.now) terms.now ≡ Some term) }
    {
        if ends.len() > MOST_POINTS {
            return Err(NodeFault::Long { given: ends.len() });
        }
        if terms.len() > MOST_TERMS {
            return Err(NodeFault::TooMany {
                limit: MOST_TERMS as u32,
            });
        }
        match first_misfit(ends.len(), terms) {
            Some(term) => return Err(NodeFault::Ends { term: term as u32 }),
            None => {}
        }
        let ends = Vec::from_slice(alloc, ends)?;
        let terms = copied(alloc, terms)?;
        Ok(Node { group, ends, terms })
    }

    /// The group. It takes no memory.
    pub fn group(&self) -> u32
        ensures { result ≡ self.now.group }
    {
        self.group
    }

    /// The names of the ends, in order. It takes no memory.
    #[inline]
    pub fn ends(&self) -> &[u32]
        ensures value { result.now ≡ self.now.ends }
        ensures node { IsShortNode self.now }
    {
        &self.ends
    }

    /// The terms. It takes no memory.
    #[inline]
    pub fn terms(&self) -> &[Term]
        ensures value { result.now ≡ self.now.terms }
        ensures node { IsShortNode self.now }
    {
        &self.terms
    }
}
