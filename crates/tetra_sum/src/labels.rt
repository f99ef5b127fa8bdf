//! The labels of a text, and their colours at faces and tetrahedra.

ghost use Rattle.std.specs.Prelude.{◌≡◌, ◌≤◌, length, IfOk, unwrap_or};
ghost use Rattle.tetra_reader.specs.Tetras.{faces_of, tetrahedra_of};
ghost use Rattle.tetra_sum.specs.Colourings.{colour_of};
ghost use Rattle.tetra_sum.specs.Sums.{all_labels, text_labels, colours_at};

use crate::colours::colour_of;
use planar_check::distinct_labels;
use std::alloc::{AllocError, Global};
use tetra_reader::Tetra;

/// The labels of the faces, as they stand.
fn face_labels(alloc: Global, faces: &[[u32; 3]]) -> Result<Vec<u32>, AllocError>
    ensures { IfOk result (λ labels. labels.items ≡ all_labels faces.now) }
{
    let mut labels = Vec::new(alloc);
    for face in faces {
        labels.extend_from_slice(face)?;
    }
    Ok(labels)
}

/// The labels of the tetrahedra, as they stand.
fn tetrahedron_labels(alloc: Global, tetrahedra: &[[u32; 6]]) -> Result<Vec<u32>, AllocError>
    ensures { IfOk result (λ labels. labels.items ≡ all_labels tetrahedra.now) }
{
    let mut labels = Vec::new(alloc);
    for tetrahedron in tetrahedra {
        labels.extend_from_slice(tetrahedron)?;
    }
    Ok(labels)
}

/// The labels that stand in the text, each once, increasing. The only error is want of memory.
pub(crate) fn text_labels(alloc: Global, tetra: &Tetra) -> Result<Vec<u32>, AllocError>
    ensures labels { IfOk result (λ labels. labels.items ≡ text_labels tetra.now) }
    ensures few { IfOk result (λ labels. length labels.items ≤ 1000000) }
{
    let mut labels = face_labels(alloc, tetra.faces())?;
    let others = tetrahedron_labels(alloc, tetra.tetrahedra())?;
    labels.extend_from_slice(&others)?;
    distinct_labels(alloc, &labels)
}

/// The colour of a label, each of which has one.
fn colour_at(labels: &[u32], colours: &[u32], label: u32) -> u32
    ensures { result ≡ unwrap_or (colour_of labels.now colours.now label) 0 }
{
    colour_of(labels, colours, label).unwrap_or(0)
}

/// The colours of the labels of a face.
pub(crate) fn face_colours(labels: &[u32], colours: &[u32], face: &[u32; 3]) -> [u32; 3]
    ensures { result ≡ colours_at labels.now colours.now face.now }
{
    let [a, b, c] = *face;
    [
        colour_at(labels, colours, a),
        colour_at(labels, colours, b),
        colour_at(labels, colours, c),
    ]
}

/// The colours of the labels of a tetrahedron.
pub(crate) fn tetrahedron_colours(
    labels: &[u32],
    colours: &[u32],
    tetrahedron: &[u32; 6],
) -> [u32; 6]
    ensures { result ≡ colours_at labels.now colours.now tetrahedron.now }
{
    let [a, b, c, d, e, f] = *tetrahedron;
    [
        colour_at(labels, colours, a),
        colour_at(labels, colours, b),
        colour_at(labels, colours, c),
        colour_at(labels, colours, d),
        colour_at(labels, colours, e),
        colour_at(labels, colours, f),
    ]
}
