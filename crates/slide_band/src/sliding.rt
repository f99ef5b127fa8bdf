//! The slide.

ghost use Rattle.std.specs.Prelude.{◌≡◌, ◌⊎◌, ◌+◌, ◌-◌, ◌≤◌, ◌^◌, None, Some, Ok, Err, false, IfOk, IfErr, OnOk, length, map, slice_set, option_map};
ghost use Rattle.inertia_laws.specs.Indices.{IsCongruent, HaveSameIndices};
ghost use Rattle.pd_reader.specs.Diagrams.{IsDiagram};
ghost use Rattle.planar_check.specs.Components.{least_labels, number_of};
ghost use Rattle.planar_check.specs.Framings.{IsFramed, is_large};
ghost use Rattle.planar_check.specs.Places.{item_slots};
ghost use Rattle.planar_check.specs.Planar.{planar_refusal};
ghost use Rattle.planar_check.specs.Signs.{sign_for};
ghost use Rattle.slide_strands.specs.Strands.{alike};
ghost use Rattle.slide_laws.specs.declared.fault.SlideFault.{SlideFault};
ghost use Rattle.slide_laws.specs.Directed.{directed, items_of};
ghost use Rattle.slide_laws.specs.Refusals.{of_plane};
ghost use Rattle.slide_laws.specs.Slides.{top_of, framed_top, framed_pieces, is_against, early_refusal, slid_by, late_refusal, slid};
ghost use Rattle.slide_laws.specs.Matrices.{components, linking_matrix, slide_matrix};

use crate::directing::{component_of, directed};
use crate::edges::{Edges, framed_pieces, framed_top, slid_pieces, top};
use crate::ends::band_sides;
use crate::refusals::early_refusal;
use crate::result::{against, framed_with, framings_with, planar_of, slid_framing};
use crate::slid::Slid;
use planar_check::{Framed, Sign};
use slide_laws::SlideFault;
use slide_strands::Piece;
use std::alloc::Global;

/// The greatest label of a diagram in which an edge is slid.
pub const GREATEST_LABEL: u32 = 1_999_000;

/// A framing's greatest size: 2^60.
const GREATEST_FRAMING: u64 = 1_152_921_504_606_846_976;

/// The sign of a slide: whether the walks come in alike at the ends of the band.
fn sign_of(at_edge: bool, at_along: bool) -> Sign
    ensures { result ≡ sign_for (alike at_edge at_along) }
{
    if at_edge == at_along {
        Sign::Plus
    } else {
        Sign::Minus
    }
}

/// The slide with these pieces, or the refusal of one that is not planar.
fn finished(
    alloc: Global,
    framed: &Framed,
    moved: u32,
    sign: Sign,
    framing: i64,
    pieces: &[Piece],
) -> Result<Slid, SlideFault>
    requires diagram { IsDiagram (items_of pieces.now) }
    requires leasts { least_labels (items_of pieces.now) ≡ least_labels framed.now.items }
    requires small { is_large framing ≡ false }
    requires first { 1 ≤ moved }
    requires last { moved ≤ length (least_labels framed.now.items) }
    ensures made { IfOk result (λ slid. slid ≡ record {
      framed = record { items = items_of pieces.now; framings = slice_set framed.now.framings (moved - 1) framing };
      sign = sign;
      against = map (is_against pieces.now) (least_labels framed.now.items);
    }) }
    ensures ok { OnOk result (planar_refusal item_slots (items_of pieces.now) ≡ None) }
    ensures refused { IfErr result (λ fault. (fault ≡ SlideFault.Memory) ⊎ (option_map of_plane (planar_refusal item_slots (items_of pieces.now)) ≡ Some fault)) }
{
    let planar = planar_of(alloc, pieces)?;
    let against = against(alloc, framed.planar(), &planar, pieces)?;
    let framings = framings_with(alloc, framed, moved, framing)?;
    let framed = framed_with(alloc, planar, &framings)?;
    Ok(Slid {
        framed,
        sign,
        against,
    })
}

/// The slide where the walks come in or not at the ends of the band, or its late refusal. The pieces are those after the
/// curls, `top` their greatest label.
fn slid_by(
    alloc: Global,
    framed: &Framed,
    edges: Edges,
    top: u32,
    pieces: &[Piece],
    at_edge: bool,
    at_along: bool,
) -> Result<Slid, SlideFault>
    requires diagram { IsDiagram framed.now.items }
    requires framed { IsFramed framed.now }
    requires small { top_of framed.now.items ≤ 1999000 }
    requires passed { early_refusal framed.now edges.edge edges.along ≡ None }
    requires moved { edges.moved ≡ number_of framed.now.items edges.edge }
    requires over { edges.over ≡ number_of framed.now.items edges.along }
    requires top { top ≡ framed_top framed.now edges.along }
    requires pieces { pieces.now ≡ framed_pieces framed.now edges.along }
    ensures made { IfOk result (λ slid. late_refusal framed.now edges.moved (slid_by framed.now edges.edge edges.along pieces.now at_edge at_along) ≡ Ok slid) }
    ensures refused { IfErr result (λ fault. (fault ≡ SlideFault.Memory)
        ⊎ (late_refusal framed.now edges.moved (slid_by framed.now edges.edge edges.along pieces.now at_edge at_along) ≡ Err fault)) }
{
    let sign = sign_of(at_edge, at_along);
    let framing = slid_framing(framed, edges.moved, edges.over, sign);
    if framing.unsigned_abs() > GREATEST_FRAMING {
        return Err(SlideFault::FramingSize {
            component: edges.moved,
        });
    }
    let pieces = slid_pieces(alloc, edges, top, pieces, at_edge, at_along)?;
    finished(alloc, framed, edges.moved, sign, framing, &pieces)
}

/// The slide of edges that no early refusal meets, whose components are known.
fn slid_edges(
    alloc: Global,
    framed: &Framed,
    edges: Edges,
    top: u32,
    pieces: Vec<Piece>,
) -> Result<Slid, SlideFault>
    requires diagram { IsDiagram framed.now.items }
    requires framed { IsFramed framed.now }
    requires top { top ≡ top_of framed.now.items }
    requires small { top_of framed.now.items ≤ 1999000 }
    requires passed { early_refusal framed.now edges.edge edges.along ≡ None }
    requires moved { edges.moved ≡ number_of framed.now.items edges.edge }
    requires over { edges.over ≡ number_of framed.now.items edges.along }
    requires pieces { pieces.items ≡ directed framed.now.items }
    ensures made { IfOk result (λ done. slid framed.now edges.edge edges.along ≡ Ok done) }
    ensures refused { IfErr result (λ fault. (fault ≡ SlideFault.Memory) ⊎ (slid framed.now edges.edge edges.along ≡ Err fault)) }
{
    let pieces = framed_pieces(alloc, framed, edges, top, pieces)?;
    let top = framed_top(framed, edges, top);
    let sides = band_sides(alloc, &pieces, edges.edge, edges.along)?;
    match sides {
        Some((at_edge, at_along)) => {
            slid_by(alloc, framed, edges, top, &pieces, at_edge, at_along)
        }
        None => Err(SlideFault::NotSameFace),
    }
}

/// Slides the component of an edge over that of another one, along a band in a face that has both edges.
///
/// The other component is given curls until its writhe is its framing, then it is doubled, and the band makes the copy a
/// part of the first one (Kirby's second move; Gompf and Stipsicz, ch. 5). `slide_laws` defines what a slide gives. The
/// refusals in their order are `NoEdge` for `edge`, then for `along`; `LoopEdge` for both likewise; `SameComponent`;
/// `OddSigns` with the first two components with an odd sum of signs; `TooMany` past 256 items, which holds 256;
/// `NotSameFace`; `FramingSize` where the new framing is past 2^60 in size; `NotPlanar` where the result isn't planar.
/// `Memory` is want of memory.
pub fn slide(alloc: Global, framed: &Framed, edge: u32, along: u32) -> Result<Slid, SlideFault>
    requires { top_of framed.now.items ≤ GREATEST_LABEL }
    // The result is that of the definition.
    ensures made { IfOk result (λ done. slid framed.now edge along ≡ Ok done) }
    // A refusal is the first one, but where memory runs out.
    ensures refused { IfErr result (λ fault. (fault ≡ SlideFault.Memory) ⊎ (slid framed.now edge along ≡ Err fault)) }
    // The new linking matrix is C-transposed times the old one times C, for the matrix C of the slide.
    ensures congruence { IfOk result (λ done. IsCongruent (components framed.now) (linking_matrix framed.now) (slide_matrix framed.now edge along done) (linking_matrix done.framed)) }
    // So it has the same indices of inertia.
    ensures inertia { IfOk result (λ done. HaveSameIndices (components framed.now) (linking_matrix framed.now) (linking_matrix done.framed)) }
    ensures components { IfOk result (λ done. least_labels done.framed.items ≡ least_labels framed.now.items) }
    // The greatest label rises little, so that a script of 1,000 steps from a text on has room.
    ensures top { IfOk result (λ done. top_of done.framed.items ≤ top_of framed.now.items + 512) }
{
    let planar = framed.planar();
    let top = top(alloc, planar.diagram().items())?;
    let pieces = directed(alloc, planar)?;
    if let Some(fault) = early_refusal(framed, &pieces, edge, along) {
        return Err(fault);
    }
    let edges = Edges {
        edge,
        along,
        moved: component_of(planar, edge),
        over: component_of(planar, along),
    };
    slid_edges(alloc, framed, edges, top, pieces)
}
