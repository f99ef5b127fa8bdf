//! Whether colours fit the items of a net.

ghost use Rattle.std.specs.Prelude.{◌≡◌, ◌≤◌, ◌∷◌, [], ℕ, None, Some, length, if◌then◌else◌, OnOk, IfErr};
ghost use Rattle.std.specs.List.{AllByRecursion};
ghost use Rattle.pd_reader.specs.declared.item.NetItem.TheVariants.{X, Y};
ghost use Rattle.pd_reader.specs.Items.{HasItsEdges};
ghost use Rattle.cables.specs.Nets.{first_unequal, first_inadmissible, is_admissible};
ghost use Rattle.skein_network.specs.Edges.{colour_at};
ghost use Rattle.skein_network.specs.Refusals.{fit_refusal};

use crate::edge::{Edge, colour_of};
use crate::fault::CableFault;
use pd_reader::NetItem;

/// The label at which a crossing changes the colour: c, or else d.
fn unequal_edge(edges: &[Edge], slots: &[u32; 4]) -> Option<u32>
    ensures { result ≡ first_unequal (colour_at edges.now) (X slots.now ∷ []) }
{
    let [a, b, c, d] = *slots;
    if colour_of(edges, a) != colour_of(edges, c) {
        return Some(c);
    }
    if colour_of(edges, b) != colour_of(edges, d) {
        return Some(d);
    }
    None
}

/// The label at which the first crossing changes the colour that changes one.
fn first_unequal(edges: &[Edge], items: &[NetItem]) -> Option<u32>
    requires { AllByRecursion HasItsEdges items.now }
    ensures { result ≡ first_unequal (colour_at edges.now) items.now }
{
    for item in items {
        if let NetItem::X(slots) = item {
            if let Some(edge) = unequal_edge(edges, slots) {
                return Some(edge);
            }
        }
    }
    None
}

/// Whether three edges of these colours, at most 8, can meet at a vertex: their sum is even, and each is at most the sum
/// of the others (Kauffman and Lins).
fn is_admissible(a: u32, b: u32, c: u32) -> bool
    requires first { a ≤ 8 }
    requires second { b ≤ 8 }
    requires third { c ≤ 8 }
    ensures { result ≡ is_admissible a b c }
{
    (a + b + c) % 2 == 0 && a <= b + c && b <= c + a && c <= a + b
}

/// Whether the colours are admissible at a vertex.
fn meets(edges: &[Edge], slots: &[u32; 3]) -> bool
    requires { (label : ℕ) → colour_at edges.now label ≤ 8 }
    ensures { first_inadmissible (colour_at edges.now) 1 (Y slots.now ∷ []) ≡ (if result then None else Some 1) }
{
    let [x, y, z] = *slots;
    is_admissible(
        colour_of(edges, x),
        colour_of(edges, y),
        colour_of(edges, z),
    )
}

/// The number of the first vertex that isn't admissible, from 1 among the vertices.
fn first_inadmissible(edges: &[Edge], items: &[NetItem]) -> Option<u32>
    requires few { (label : ℕ) → colour_at edges.now label ≤ 8 }
    requires few_items { length items.now ≤ 256 }
    requires sizes { AllByRecursion HasItsEdges items.now }
    ensures { result ≡ first_inadmissible (colour_at edges.now) 1 items.now }
{
    let mut number = 1;
    for item in items {
        if let NetItem::Y(slots) = item {
            if !meets(edges, slots) {
                return Some(number);
            }
            number += 1;
        }
    }
    None
}

/// Refuses colours that a crossing changes, or that aren't admissible at a vertex.
pub(crate) fn check_fit(edges: &[Edge], items: &[NetItem]) -> Result<(), CableFault>
    requires few { (label : ℕ) → colour_at edges.now label ≤ 8 }
    requires few_items { length items.now ≤ 256 }
    requires sizes { AllByRecursion HasItsEdges items.now }
    ensures ok { OnOk result (fit_refusal (colour_at edges.now) items.now ≡ None) }
    ensures refused { IfErr result (λ fault. fit_refusal (colour_at edges.now) items.now ≡ Some fault) }
{
    if let Some(edge) = first_unequal(edges, items) {
        return Err(CableFault::Unequal { edge });
    }
    if let Some(vertex) = first_inadmissible(edges, items) {
        return Err(CableFault::NotAdmissible { vertex });
    }
    Ok(())
}
