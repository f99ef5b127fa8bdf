//! The ends of strands, place by place, and the faces in which the places lie.

ghost use Rattle.std.specs.Prelude.{◌≡◌, ◌==◌, ◌&&◌, ◌<◌, ◌≤◌, ◌+◌, ◌*◌, ◌/◌, ◌%◌, ◌^◌, ℕ, Bool, length, map, slice_index, is_some, unwrap_or, Some, None, IfOk, IfSome};
ghost use Rattle.std.specs.List.{All, find, range_with_len};
ghost use Rattle.graph_parts.specs.LeastNames.{least_name};
ghost use Rattle.slide_strands.specs.Strands.{ends};
ghost use Rattle.slide_band.specs.Faces.{is_other, other_found, others_found, next_slot, next_edges, face_list};
ghost use Rattle.slide_band.specs.Sides.{sides_from};
ghost use Rattle.slide_laws.specs.Slides.{place_in_face, band_start};

use part_labels::least_names;
use slide_strands::{Piece, Strand};
use std::alloc::{AllocError, Global};

/// The ends at the places, slot by slot: the label, and whether the walk comes in there.
pub(crate) fn ends(alloc: Global, pieces: &[Piece]) -> Result<Vec<(u32, bool)>, AllocError>
    ensures { IfOk result (λ found. found.items ≡ ends pieces.now) }
{
    let mut found = Vec::new(alloc);
    for piece in pieces {
        match piece {
            Piece::Crossed(under, over) => found.extend_from_slice(&[
                (under.from, under.ahead),
                (over.to, !over.ahead),
                (under.to, !under.ahead),
                (over.from, over.ahead),
            ])?,
            Piece::Free(_) => {}
        }
    }
    Ok(found)
}

/// The labels at the places.
pub(crate) fn end_labels(alloc: Global, ends: &[(u32, bool)]) -> Result<Vec<u32>, AllocError>
    ensures { IfOk result (λ labels. labels.items ≡ map (λ (e : ℕ × Bool). e.0) ends.now) }
{
    ends.iter().map(|end| end.0).collect(alloc)
}

/// The first other place at which the label of a place stands.
fn other_found(labels: &[u32], place: usize) -> Option<usize>
    requires { place < length labels.now }
    ensures { result ≡ find (is_other labels.now place) (range_with_len 0 (length labels.now)) }
{
    (0..labels.len()).find(|other| *other != place && labels[*other] == labels[place])
}

/// That place, or the place itself where there is none.
fn other_place(labels: &[u32], place: usize) -> usize
    requires { place < length labels.now }
    ensures { result ≡ other_found labels.now place }
{
    match other_found(labels, place) {
        Some(other) => other,
        None => place,
    }
}

/// For each place the other place of its label.
fn other_places(alloc: Global, labels: &[u32]) -> Result<Vec<usize>, AllocError>
    ensures { IfOk result (λ others. others.items ≡ others_found labels.now) }
{
    (0..labels.len())
        .map(|place| other_place(labels, place))
        .collect(alloc)
}

/// The next slot counterclockwise at the crossing of a place.
fn next_slot(place: usize) -> usize
    ensures { result ≡ next_slot place }
{
    place / 4 * 4 + (place % 4 + 1) % 4
}

/// Each place with the one that follows it in its face: the next slot at the other end of its edge.
fn next_edges(alloc: Global, others: &[usize]) -> Result<Vec<(usize, usize)>, AllocError>
    ensures { IfOk result (λ edges. edges.items ≡ next_edges others.now) }
{
    (0..others.len())
        .map(|place| (place, next_slot(others[place])))
        .collect(alloc)
}

/// For each place the least place of its face.
fn faces(alloc: Global, labels: &[u32]) -> Result<Vec<usize>, AllocError>
    requires { length labels.now % 4 ≡ 0 }
    ensures { IfOk result (λ faces. faces.items ≡ face_list labels.now) }
{
    let others = other_places(alloc, labels)?;
    let edges = next_edges(alloc, &others)?;
    let faces = least_names(alloc, labels.len(), &edges)?;
    Ok(faces)
}

/// The least place of f in the face of a place.
fn place_in_face(labels: &[u32], faces: &[usize], f: u32, place: usize) -> Option<usize>
    requires same_length { length faces.now ≡ length labels.now }
    requires within { place < length labels.now }
    ensures { result ≡ place_in_face labels.now (slice_index faces.now) f place }
{
    (0..labels.len()).find(|other| labels[*other] == f && faces[*other] == faces[place])
}

/// The first place of e whose face has a place of f.
fn band_start(labels: &[u32], faces: &[usize], e: u32, f: u32) -> Option<usize>
    requires { length faces.now ≡ length labels.now }
    ensures { result ≡ band_start labels.now (slice_index faces.now) e f }
{
    (0..labels.len()).find(|place| labels[*place] == e
        && place_in_face(labels, faces, f, *place).is_some())
}

/// Whether the walks come in at both ends of the band, where there is a band: at the first place of e whose face has a
/// place of f, and at the least such place of f.
fn sides_between(
    ends: &[(u32, bool)],
    labels: &[u32],
    faces: &[usize],
    e: u32,
    f: u32,
) -> Option<(bool, bool)>
    requires few { length ends.now < 2 ^ 32 }
    requires labels { length labels.now ≡ length ends.now }
    requires faces { length faces.now ≡ length labels.now }
    ensures { result ≡ sides_from ends.now labels.now faces.now e f }
{
    match band_start(labels, faces, e, f) {
        Some(start) => match place_in_face(labels, faces, f, start) {
            Some(end) => Some((ends[start].1, ends[end].1)),
            None => None,
        },
        None => None,
    }
}

/// The same of pieces.
pub(crate) fn band_sides(
    alloc: Global,
    pieces: &[Piece],
    e: u32,
    f: u32,
) -> Result<Option<(bool, bool)>, AllocError>
    requires { length pieces.now ≤ 256 }
    ensures { let labels = map (λ (end : ℕ × Bool). end.0) (ends pieces.now) in IfOk result (λ sides. sides ≡ sides_from (ends pieces.now) labels (face_list labels) e f) }
{
    let ends = ends(alloc, pieces)?;
    let labels = end_labels(alloc, &ends)?;
    let faces = faces(alloc, &labels)?;
    Ok(sides_between(&ends, &labels, &faces, e, f))
}
