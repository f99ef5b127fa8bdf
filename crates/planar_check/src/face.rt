//! The faces of a diagram.

ghost use Rattle.std.specs.Prelude.{◌≡◌, ◌<◌, ◌≤◌, length, map, IfOk};
ghost use Rattle.std.specs.List.{All, range_with_len};
ghost use Rattle.graph_parts.specs.LeastNames.{least_name};
ghost use Rattle.planar_check.specs.Places.{crossings_of};
ghost use Rattle.planar_check.specs.Planar.{next_in_face, face_edges};
ghost use Rattle.planar_check.specs.Faces.{cycle_from, faces, faces_by, places_of};

use crate::placed::Places;
use pd_reader::Diagram;
use std::alloc::{AllocError, Global};

/// A face: its places from the least one on, each the next slot counterclockwise after the other place
/// of the one before it.
#[derive(Drop, Debug)]
pub struct Face {
    /// The places, from the least one on.
    pub places: Vec<u32>,
}

/// The places of the face that starts at this place.
fn places_from(
    alloc: Global,
    after: &[usize],
    others: &[usize],
    start: usize,
) -> Result<Vec<u32>, AllocError>
    requires start_in_range { start < length others.now }
    requires few { length others.now ≤ 1024 }
    requires same_length { length after.now ≡ length others.now }
    requires after_in_range { All (λ place. place < length others.now) after.now }
    requires others_in_range { All (λ place. place < length others.now) others.now }
    ensures { IfOk result (λ places. places.items ≡ cycle_from (next_in_face after.now others.now) start start (length others.now)) }
{
    let mut places = Vec::new(alloc);
    let mut place = start;
    for _step in 0..others.len() {
        places.push(place as u32)?;
        place = after[others[place]];
        if place == start {
            return Ok(places);
        }
    }
    Ok(places)
}

/// The faces, where the next places counterclockwise, the other places and the least places of the faces are given.
fn faces_by(
    alloc: Global,
    after: &[usize],
    others: &[usize],
    least: &[usize],
) -> Result<Vec<Face>, AllocError>
    requires few { length others.now ≤ 1024 }
    requires same_length { length after.now ≡ length others.now }
    requires after_in_range { All (λ place. place < length others.now) after.now }
    requires others_in_range { All (λ place. place < length others.now) others.now }
    requires least { least.now ≡ map (least_name (range_with_len 0 (length others.now)) (face_edges after.now others.now)) (range_with_len 0 (length others.now)) }
    ensures { IfOk result (λ found. map places_of found.items ≡ faces_by after.now others.now) }
{
    let mut found = Vec::new(alloc);
    for (place, first) in least.iter().enumerate() {
        if *first == place {
            let places = places_from(alloc, after, others, place)?;
            found.push(Face { places })?;
        }
    }
    Ok(found)
}

/// The faces of a diagram, each from its least place on, and ordered by that.
///
/// Places are the slots of the crossings, numbered from 0 through the crossings in order; a loop has
/// none. A face is a cycle of the rule "cross the edge to the label's other place, then take the next
/// slot of that crossing, counterclockwise": those of `X[1,4,2,5]`, `X[3,6,4,1]`, `X[5,2,6,3]` are
/// 0,4,8; 1,7; 2,10,6; 3,9; 5,11. The only error is want of memory.
pub fn faces(alloc: Global, diagram: &Diagram) -> Result<Vec<Face>, AllocError>
    ensures { IfOk result (λ found. map places_of found.items ≡ faces (crossings_of diagram.now)) }
{
    let places = Places::of(alloc, diagram.items())?;
    faces_by(alloc, &places.after, &places.others, &places.faces)
}
