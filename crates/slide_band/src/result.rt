//! The framed diagram after a slide, and the directions of its components.

ghost use Rattle.std.specs.Prelude.{◌≡◌, ◌⊎◌, ◌+◌, ◌-◌, ◌<◌, ◌≤◌, ◌^◌, ◌*ℤ◌, ℤ, None, Some, length, map, not, false, slice_index_or, slice_set, IfOk, IfErr, OnOk, option_map};
ghost use Rattle.std.specs.Int.RustNames.{unsigned_abs};
ghost use Rattle.pd_reader.specs.Diagrams.{IsDiagram};
ghost use Rattle.planar_check.specs.Components.{least_labels};
ghost use Rattle.planar_check.specs.Framings.{IsFramed};
ghost use Rattle.planar_check.specs.Places.{first_place, item_slots, place_labels};
ghost use Rattle.planar_check.specs.Directions.{comes_in};
ghost use Rattle.planar_check.specs.Planar.{planar_refusal};
ghost use Rattle.planar_check.specs.Signs.{sign_sum};
ghost use Rattle.planar_check.specs.Tables.{sign_value};
ghost use Rattle.slide_laws.specs.declared.fault.SlideFault.{SlideFault};
ghost use Rattle.slide_laws.specs.Directed.{items_of};
ghost use Rattle.slide_laws.specs.Refusals.{of_plane};
ghost use Rattle.slide_laws.specs.Slides.{is_against, slid_framing};

use crate::directing::items_of;
use crate::ends::ends;
use pd_reader::{Diagram, Item};
use planar_check::{Framed, FramedFault, Planar, Sign, check};
use slide_laws::SlideFault;
use slide_strands::Piece;
use std::alloc::{AllocError, Global};

/// The sum of the signs between two components, or the opposite number.
fn signed_sum(planar: &Planar, i: u32, j: u32, sign: Sign) -> i64
    requires diagram { IsDiagram planar.now }
    requires first_i { 1 ≤ i }
    requires last_i { i ≤ length (least_labels planar.now) }
    requires first_j { 1 ≤ j }
    requires last_j { j ≤ length (least_labels planar.now) }
    ensures sum { result ≡ sign_value sign *ℤ sign_sum planar.now i j }
    ensures small { unsigned_abs result ≤ 256 }
{
    let sum = planar.sign_sum(i, j);
    match sign {
        Sign::Plus => sum,
        Sign::Minus => -sum,
    }
}

/// The framing of component i after it is slid over component j.
pub(crate) fn slid_framing(framed: &Framed, i: u32, j: u32, sign: Sign) -> i64
    requires diagram { IsDiagram framed.now.items }
    requires first_i { 1 ≤ i }
    requires last_i { i ≤ length (least_labels framed.now.items) }
    requires first_j { 1 ≤ j }
    requires last_j { j ≤ length (least_labels framed.now.items) }
    ensures { result ≡ slid_framing framed.now i j sign }
{
    let planar = framed.planar();
    framed.framing(i) + framed.framing(j) + signed_sum(planar, i, j, sign)
}

/// The framings, with another one for a component.
pub(crate) fn framings_with(
    alloc: Global,
    framed: &Framed,
    component: u32,
    framing: i64,
) -> Result<Vec<i64>, AllocError>
    requires first { 1 ≤ component }
    requires last { component ≤ length (least_labels framed.now.items) }
    ensures { IfOk result (λ framings. framings.items ≡ slice_set framed.now.framings (component - 1) framing) }
{
    let count = framed.planar().components();
    let mut framings = Vec::new(alloc);
    for index in 0..count {
        framings.push(framed.framing(index + 1))?;
    }
    framings[component as usize - 1] = framing;
    Ok(framings)
}

/// The planar diagram of the pieces, or its refusal.
pub(crate) fn planar_of(alloc: Global, pieces: &[Piece]) -> Result<Planar, SlideFault>
    requires { IsDiagram (items_of pieces.now) }
    ensures made { IfOk result (λ planar. planar ≡ items_of pieces.now) }
    ensures ok { OnOk result (planar_refusal item_slots (items_of pieces.now) ≡ None) }
    ensures refused { IfErr result (λ fault. (fault ≡ SlideFault.Memory) ⊎ (option_map of_plane (planar_refusal item_slots (items_of pieces.now)) ≡ Some fault)) }
{
    let items = items_of(alloc, pieces)?;
    let diagram = Diagram::of_paired(alloc, &items)?;
    let planar = check(alloc, diagram)?;
    Ok(planar)
}

/// The diagram with framings that fit it.
pub(crate) fn framed_with(
    alloc: Global,
    planar: Planar,
    framings: &[i64],
) -> Result<Framed, AllocError>
    requires { IsFramed (record { items = planar; framings = framings.now }) }
    ensures { IfOk result (λ framed. framed ≡ record { items = planar; framings = framings.now }) }
{
    match Framed::new(alloc, planar, framings) {
        Ok(framed) => Ok(framed),
        Err(FramedFault::Memory) => Err(AllocError),
        Err(
            FramedFault::Count {
                given: _,
                wanted: _,
            },
        ) => unreachable!(),
        Err(FramedFault::Size { component: _ }) => unreachable!(),
    }
}

/// Whether a component with this least label is walked against the direction of its old pieces, whose ends at the places are
/// given.
fn is_against(planar: &Planar, directions: &[(u32, bool)], least: u32) -> bool
    requires { length directions.now ≡ length (place_labels planar.now) }
    ensures { result ≡ not (comes_in (λ p. (slice_index_or directions.now p (0, false)).1) (first_place (place_labels planar.now) least)) }
{
    match planar.first_place(least) {
        Some(place) => !directions[place as usize].1,
        None => false,
    }
}

/// For each component whether it is walked against the direction of its old pieces.
pub(crate) fn against(
    alloc: Global,
    before: &Planar,
    planar: &Planar,
    pieces: &[Piece],
) -> Result<Vec<bool>, AllocError>
    requires { planar.now ≡ items_of pieces.now }
    ensures { IfOk result (λ against. against.items ≡ map (is_against pieces.now) (least_labels before.now)) }
{
    let directions = ends(alloc, pieces)?;
    let mut against = Vec::new(alloc);
    for index in 0..before.components() {
        let least = before.least_label(index + 1);
        against.push(is_against(planar, &directions, least))?;
    }
    Ok(against)
}
