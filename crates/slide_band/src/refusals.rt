//! The refusals of a slide before its band is looked for.

ghost use Rattle.std.specs.Prelude.{◌≡◌, ◌==◌, ◌&&◌, ◌+◌, ◌*◌, ◌%◌, ◌^◌, ◌<◌, ◌≤◌, ℕ, true, not, nat_lt, None, Some, if◌then◌else◌, length};
ghost use Rattle.std.specs.Int.RustNames.{unsigned_abs};
ghost use Rattle.std.specs.List.{find, range_with_len};
ghost use Rattle.pd_reader.specs.declared.diagram.TheConstants.{MOST_ITEMS};
ghost use Rattle.pd_reader.specs.Diagrams.{IsDiagram};
ghost use Rattle.planar_check.specs.Components.{least_labels, number_of};
ghost use Rattle.planar_check.specs.Signs.{signed_crossings};
ghost use Rattle.slide_laws.specs.declared.fault.SlideFault.TheVariants.{NoEdge, LoopEdge, SameComponent, TooMany};
ghost use Rattle.slide_laws.specs.Directed.{directed};
ghost use Rattle.slide_laws.specs.Slides.{is_edge, is_loop, edge_refusal, is_odd_above, odd_with, odd_pair, excess, items_after, early_refusal};

use crate::counting::added_crossings;
use crate::directing::component_of;
use pd_reader::MOST_ITEMS;
use planar_check::{Framed, Planar};
use slide_laws::SlideFault;
use slide_strands::Piece;

/// Whether the label is in the diagram.
fn is_edge(planar: &Planar, label: u32) -> bool
    ensures { result ≡ is_edge planar.now label }
{
    planar.component_of(label).is_some()
}

/// Whether the label, which is in the diagram, is a loop's.
fn is_loop(planar: &Planar, label: u32) -> bool
    ensures { result ≡ is_loop planar.now label }
{
    planar.first_place(label).is_none()
}

/// The refusal of a label that is not in the diagram, e before f.
fn no_edge(planar: &Planar, e: u32, f: u32) -> Option<SlideFault>
    ensures { result ≡ edge_refusal (λ x. not (is_edge planar.now x)) NoEdge e f }
{
    if !is_edge(planar, e) {
        Some(SlideFault::NoEdge { edge: e })
    } else if !is_edge(planar, f) {
        Some(SlideFault::NoEdge { edge: f })
    } else {
        None
    }
}

/// The refusal of a loop, e before f.
fn loop_edge(planar: &Planar, e: u32, f: u32) -> Option<SlideFault>
    ensures { result ≡ edge_refusal (is_loop planar.now) LoopEdge e f }
{
    if is_loop(planar, e) {
        Some(SlideFault::LoopEdge { edge: e })
    } else if is_loop(planar, f) {
        Some(SlideFault::LoopEdge { edge: f })
    } else {
        None
    }
}

/// The refusal of two edges of one component.
fn same_component(planar: &Planar, e: u32, f: u32) -> Option<SlideFault>
    requires e { is_edge planar.now e ≡ true }
    requires f { is_edge planar.now f ≡ true }
    ensures { result ≡ (if number_of planar.now e == number_of planar.now f then Some SameComponent else None) }
{
    if component_of(planar, e) == component_of(planar, f) {
        Some(SlideFault::SameComponent)
    } else {
        None
    }
}

/// Whether component b is above a, and the sum of the signs between both is odd.
fn is_odd_above(planar: &Planar, a: u32, b: u32) -> bool
    requires low_a { 1 ≤ a }
    requires high_a { a ≤ length (least_labels planar.now) }
    requires low_b { 1 ≤ b }
    requires high_b { b ≤ length (least_labels planar.now) }
    ensures { result ≡ is_odd_above (signed_crossings planar.now) a b }
{
    a < b && planar.sign_sum(a, b).unsigned_abs() % 2 == 1
}

/// The first component above a with which it has an odd sum of signs.
fn odd_with(planar: &Planar, a: u32, count: u32) -> Option<u32>
    requires low { 1 ≤ a }
    requires high { a ≤ count }
    requires count { count ≡ length (least_labels planar.now) }
    requires few { count ≤ 512 }
    ensures { result ≡ odd_with (signed_crossings planar.now) a (range_with_len 1 count) }
{
    for b in 1..count + 1 {
        if is_odd_above(planar, a, b) {
            return Some(b);
        }
    }
    None
}

/// The refusal of the first two components with an odd sum of signs.
fn odd_pair(planar: &Planar) -> Option<SlideFault>
    ensures { let numbers = range_with_len 1 (length (least_labels planar.now)) in result ≡ odd_pair (signed_crossings planar.now) numbers numbers }
{
    let count = planar.components();
    for a in 1..count + 1 {
        if let Some(b) = odd_with(planar, a, count) {
            return Some(SlideFault::OddSigns {
                first: a,
                second: b,
            });
        }
    }
    None
}

/// How far the framing of a component is above its writhe.
pub(crate) fn excess(framed: &Framed, component: u32) -> i64
    requires diagram { IsDiagram framed.now.items }
    requires first { 1 ≤ component }
    requires last { component ≤ length (least_labels framed.now.items) }
    ensures excess { result ≡ excess framed.now component }
    ensures small { unsigned_abs result ≤ 2 ^ 61 }
{
    framed.framing(component) - framed.planar().writhe(component)
}

/// The refusal of a result with too many items.
fn too_many(framed: &Framed, pieces: &[Piece], component: u32) -> Option<SlideFault>
    requires diagram { IsDiagram framed.now.items }
    requires first { 1 ≤ component }
    requires last { component ≤ length (least_labels framed.now.items) }
    requires pieces { pieces.now ≡ directed framed.now.items }
    ensures { result ≡ (if nat_lt MOST_ITEMS (items_after framed.now component) then Some (TooMany MOST_ITEMS) else None) }
{
    let items = pieces.len() as u64 + added_crossings(pieces, component);
    let curls = excess(framed, component).unsigned_abs();
    if items + 4 * curls > u64::from(MOST_ITEMS) {
        Some(SlideFault::TooMany { limit: MOST_ITEMS })
    } else {
        None
    }
}

/// The first refusal before the band is looked for, if there is one.
pub(crate) fn early_refusal(framed: &Framed, pieces: &[Piece], e: u32, f: u32) -> Option<SlideFault>
    requires diagram { IsDiagram framed.now.items }
    requires pieces { pieces.now ≡ directed framed.now.items }
    ensures { result ≡ early_refusal framed.now e f }
{
    let planar = framed.planar();
    if let Some(fault) = no_edge(planar, e, f) {
        return Some(fault);
    }
    if let Some(fault) = loop_edge(planar, e, f) {
        return Some(fault);
    }
    if let Some(fault) = same_component(planar, e, f) {
        return Some(fault);
    }
    if let Some(fault) = odd_pair(planar) {
        return Some(fault);
    }
    too_many(framed, pieces, component_of(planar, f))
}
