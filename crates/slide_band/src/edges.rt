//! The edges of a slide, and the pieces before and after it.

ghost use Rattle.std.specs.Prelude.{◌≡◌, ◌+◌, ◌*◌, ◌<◌, ◌≤◌, Some, None, false, length, IfOk};
ghost use Rattle.std.specs.Int.RustNames.{unsigned_abs};
ghost use Rattle.inertia_laws.specs.Matrices.{is_positive};
ghost use Rattle.pd_reader.specs.Diagrams.{IsDiagram};
ghost use Rattle.planar_check.specs.Components.{least_labels, number_of};
ghost use Rattle.planar_check.specs.Directions.{comes_in};
ghost use Rattle.planar_check.specs.Places.{first_place, place_labels};
ghost use Rattle.planar_check.specs.Signs.{enters};
ghost use Rattle.slide_laws.specs.Directed.{directed};
ghost use Rattle.slide_laws.specs.Slides.{top_of, excess, framed_top, framed_pieces, labels_of_component, slid_pieces};

use crate::banding::band;
use crate::curling::curls;
use crate::doubler::{Doubling, alike, copied, double};
use crate::labels::strand_labels;
use crate::refusals::excess;
use pd_reader::{Item, labels};
use planar_check::{Framed, Planar, distinct_labels};
use slide_strands::Piece;
use std::alloc::{AllocError, Global};

/// The edges of a slide with the numbers of their components: `edge` of the component `moved` is slid along the edge
/// `along` of the component `over`.
#[derive(Clone, Copy, Debug)]
pub(crate) struct Edges {
    pub edge: u32,
    pub along: u32,
    pub moved: u32,
    pub over: u32,
}

/// The greatest label, or 0 where there is none.
pub(crate) fn top(alloc: Global, items: &[Item]) -> Result<u32, AllocError>
    ensures { IfOk result (λ top. top ≡ top_of items.now) }
{
    let mut greatest = 0;
    let all = labels(alloc, items)?;
    for label in &all {
        greatest = (*label).max(greatest);
    }
    Ok(greatest)
}

/// Whether the walk comes in at the first place of a label; a loop has none.
fn comes_in(planar: &Planar, label: u32) -> bool
    ensures { result ≡ comes_in (enters planar.now) (first_place (place_labels planar.now) label) }
{
    match planar.first_place(label) {
        Some(place) => planar.enters(place),
        None => true,
    }
}

/// Whether the number is above 0.
fn is_positive(number: i64) -> bool
    ensures { result ≡ is_positive number }
{
    number > 0
}

/// The pieces after the curls, where `top` is the greatest label.
pub(crate) fn framed_pieces(
    alloc: Global,
    framed: &Framed,
    edges: Edges,
    top: u32,
    pieces: Vec<Piece>,
) -> Result<Vec<Piece>, AllocError>
    requires diagram { IsDiagram framed.now.items }
    requires component { edges.over ≡ number_of framed.now.items edges.along }
    requires first { 1 ≤ edges.over }
    requires last { edges.over ≤ length (least_labels framed.now.items) }
    requires top { top ≡ top_of framed.now.items }
    requires small { top ≤ 1999000 }
    requires few { unsigned_abs (excess framed.now edges.over) ≤ 64 }
    requires pieces { pieces.items ≡ directed framed.now.items }
    ensures { IfOk result (λ made. made.items ≡ framed_pieces framed.now edges.along) }
{
    let excess = excess(framed, edges.over);
    let entered = comes_in(framed.planar(), edges.along);
    let count = excess.unsigned_abs() as u32;
    curls(
        alloc,
        is_positive(excess),
        edges.along,
        edges.over,
        entered,
        count,
        top + 1,
        pieces,
    )
}

/// The greatest label after the curls, where `top` is the one before.
pub(crate) fn framed_top(framed: &Framed, edges: Edges, top: u32) -> u32
    requires diagram { IsDiagram framed.now.items }
    requires component { edges.over ≡ number_of framed.now.items edges.along }
    requires first { 1 ≤ edges.over }
    requires last { edges.over ≤ length (least_labels framed.now.items) }
    requires top { top ≡ top_of framed.now.items }
    requires small { top ≤ 1999000 }
    requires few { unsigned_abs (excess framed.now edges.over) ≤ 64 }
    ensures { result ≡ framed_top framed.now edges.along }
{
    top + 2 * excess(framed, edges.over).unsigned_abs() as u32
}

/// The labels of a component, increasing.
fn component_labels(alloc: Global, component: u32, pieces: &[Piece]) -> Result<Vec<u32>, AllocError>
    ensures labels { IfOk result (λ labels. labels.items ≡ labels_of_component component pieces.now) }
    ensures few { IfOk result (λ labels. length labels.items ≤ 4 * length pieces.now) }
{
    let all = strand_labels(alloc, component, pieces)?;
    let labels = distinct_labels(alloc, &all)?;
    Ok(labels)
}

/// The pieces after the slide, where the greatest label is `top`, and the walks come in or not at the ends of the band.
pub(crate) fn slid_pieces(
    alloc: Global,
    edges: Edges,
    top: u32,
    pieces: &[Piece],
    at_edge: bool,
    at_along: bool,
) -> Result<Vec<Piece>, AllocError>
    requires small { top ≤ 2000000 }
    requires few { length pieces.now ≤ 256 }
    ensures { IfOk result (λ slid. slid.items ≡ slid_pieces edges.moved edges.over edges.edge edges.along top pieces.now at_edge at_along) }
{
    let names = component_labels(alloc, edges.over, pieces)?;
    let doubling = Doubling {
        over: edges.over,
        onto: edges.moved,
        side: at_along,
        along: alike(at_edge, at_along),
    };
    let doubled = double(alloc, doubling, &names, top + 1, pieces)?;
    let copy = copied(&names, top + 1, edges.along);
    band(alloc, at_edge, edges.edge, copy, &doubled)
}
