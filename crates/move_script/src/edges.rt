//! Edges by their labels.

ghost use Rattle.std.specs.Prelude.{◌≡◌, ◌+◌, ◌<◌, ◌≤◌, ◌||◌, true, false, length, IfOk, IfErr, OnOk};
ghost use Rattle.pd_reader.specs.Diagrams.{IsDiagram};
ghost use Rattle.planar_check.specs.Places.{place_labels};
ghost use Rattle.diagram_moves.specs.declared.fault.MoveFault.{MoveFault};
ghost use Rattle.diagram_moves.specs.Moves.{first_place_of, is_edge, is_loop, same_face, second_place};
ghost use Rattle.diagram_moves.specs.Rewriting.{fresh};

use diagram_moves::MoveFault;
use pd_reader::{Item, labels};
use planar_check::Planar;
use std::alloc::{AllocError, Global};

/// Where an edge stands: at its first place and at its second one.
#[derive(Clone, Copy, Debug)]
pub(crate) struct Edge {
    pub first: u32,
    pub second: u32,
}

/// The refusal of a label that isn't in the diagram.
pub(crate) fn check_edge(diagram: &Planar, label: u32) -> Result<(), MoveFault>
    ensures ok { OnOk result (is_edge diagram.now label ≡ true) }
    ensures err { IfErr result (λ fault. (fault ≡ MoveFault.NoEdge label) × (is_edge diagram.now label ≡ false)) }
{
    match diagram.component_of(label) {
        Some(_) => Ok(()),
        None => Err(MoveFault::NoEdge { edge: label }),
    }
}

/// The places of an edge, or the refusal of a loop.
pub(crate) fn edge_places(diagram: &Planar, label: u32) -> Result<Edge, MoveFault>
    ensures on { OnOk result (is_loop diagram.now label ≡ false) }
    ensures first { IfOk result (λ edge. (edge.first ≡ first_place_of (place_labels diagram.now) label) × (edge.first < length (place_labels diagram.now))) }
    ensures second { IfOk result (λ edge. (edge.second ≡ second_place diagram.now label) × (edge.second < length (place_labels diagram.now))) }
    ensures err { IfErr result (λ fault. (fault ≡ MoveFault.LoopEdge label) × (is_loop diagram.now label ≡ true)) }
{
    match diagram.first_place(label) {
        Some(first) => Ok(Edge {
            first,
            second: diagram.other_place(first),
        }),
        None => Err(MoveFault::LoopEdge { edge: label }),
    }
}

/// Whether two places lie in one face.
pub(crate) fn same_face(diagram: &Planar, p: u32, q: u32) -> bool
    requires first { p < length (place_labels diagram.now) }
    requires second { q < length (place_labels diagram.now) }
    ensures { result ≡ same_face diagram.now p q }
{
    diagram.face_of(p) == diagram.face_of(q)
}

/// Whether the face of a place has a place of the edge.
pub(crate) fn meets(diagram: &Planar, place: u32, edge: Edge) -> bool
    requires place { place < length (place_labels diagram.now) }
    requires first { edge.first < length (place_labels diagram.now) }
    requires second { edge.second < length (place_labels diagram.now) }
    ensures { result ≡ (same_face diagram.now place edge.first || same_face diagram.now place edge.second) }
{
    same_face(diagram, place, edge.first) || same_face(diagram, place, edge.second)
}

/// The greatest label plus 1, or 1 where there is none.
pub(crate) fn fresh(alloc: Global, items: &[Item]) -> Result<u32, AllocError>
    requires { IsDiagram items.now }
    ensures new { IfOk result (λ new. new ≡ fresh items.now) }
    ensures few { IfOk result (λ new. new ≤ 2000001) }
{
    let mut greatest = 0;
    let all = labels(alloc, items)?;
    for label in &all {
        greatest = (*label).max(greatest);
    }
    Ok(greatest + 1)
}
