//! Tetrahedra whose faces are listed.

ghost use Rattle.std.specs.Prelude.{◌≡◌, ◌≤◌, ◌⊎◌, length, List, None, Some, IfOk, IfErr, option_map};
ghost use Rattle.std.specs.List.{AllByRecursion};
ghost use Rattle.tetra_reader.specs.Tetras.{IsTextTetraItem, IsTetra, are_pair, is_face, is_listed, has_faces, faces_of, tetrahedra_of, first_unlisted, refusal};
ghost use Rattle.tetra_reader.specs.declared.item.TetraItem.{TetraItem};

use crate::fault::TetraText;
use crate::item::TetraItem;
use std::alloc::{AllocError, Global};
use std::marker::Model;

/// The most items of a text.
pub const MOST_ITEMS: u32 = 256;

/// Whether y and z are b and c, in one order or the other.
fn are_pair(y: u32, z: u32, b: u32, c: u32) -> bool
    ensures { result ≡ are_pair y z b c }
{
    (y == b && z == c) || (y == c && z == b)
}

/// Whether the face has the labels a, b and c, in some order.
fn is_face(face: &[u32; 3], a: u32, b: u32, c: u32) -> bool
    ensures { result ≡ is_face a b c face.now }
{
    let [x, y, z] = *face;
    (x == a && are_pair(y, z, b, c))
        || (x == b && are_pair(y, z, a, c))
        || (x == c && are_pair(y, z, a, b))
}

/// Whether a face with the labels a, b and c is listed.
fn is_listed(faces: &[[u32; 3]], a: u32, b: u32, c: u32) -> bool
    ensures { result ≡ is_listed faces.now a b c }
{
    for face in faces {
        if is_face(face, a, b, c) {
            return true;
        }
    }
    false
}

/// Whether all four faces of the tetrahedron are listed.
fn has_faces(faces: &[[u32; 3]], tetrahedron: &[u32; 6]) -> bool
    ensures { result ≡ has_faces faces.now tetrahedron.now }
{
    let [a, b, c, d, e, f] = *tetrahedron;
    is_listed(faces, a, b, c)
        && is_listed(faces, a, e, f)
        && is_listed(faces, b, f, d)
        && is_listed(faces, c, d, e)
}

/// The first tetrahedron, from 1, with a face that is not listed.
fn first_unlisted(faces: &[[u32; 3]], tetrahedra: &[[u32; 6]]) -> Option<u32>
    requires { length tetrahedra.now ≤ MOST_ITEMS }
    ensures { result ≡ first_unlisted faces.now tetrahedra.now }
{
    for i in 0..tetrahedra.len() {
        if !has_faces(faces, &tetrahedra[i]) {
            return Some(i as u32 + 1);
        }
    }
    None
}

/// The faces among the items.
fn faces_of(alloc: Global, items: &[TetraItem]) -> Result<Vec<[u32; 3]>, AllocError>
    ensures { IfOk result (λ faces. faces.items ≡ faces_of items.now) }
{
    let mut faces = Vec::new(alloc);
    for item in items {
        if let TetraItem::F(face) = item {
            faces.push(*face)?;
        }
    }
    Ok(faces)
}

/// The tetrahedra among the items.
fn tetrahedra_of(alloc: Global, items: &[TetraItem]) -> Result<Vec<[u32; 6]>, AllocError>
    ensures { IfOk result (λ tetrahedra. tetrahedra.items ≡ tetrahedra_of items.now) }
{
    let mut tetrahedra = Vec::new(alloc);
    for item in items {
        if let TetraItem::T(tetrahedron) = item {
            tetrahedra.push(*tetrahedron)?;
        }
    }
    Ok(tetrahedra)
}

/// At most 256 faces and tetrahedra, where each face of a tetrahedron is listed.
///
/// Contracts see it as its items. `IsTetra` says what these keep.
#[derive(Drop)]
pub struct Tetra {
    items: Vec<TetraItem>,
    faces: Vec<[u32; 3]>,
    tetrahedra: Vec<[u32; 6]>,
}

impl Model for Tetra {
    ghost use Rattle.std.specs.Prelude.{◌≡◌, List};
    ghost use Rattle.tetra_reader.specs.declared.item.TetraItem.{TetraItem};
    ghost use Rattle.tetra_reader.specs.Tetras.{IsTetra, faces_of, tetrahedra_of};

    ghost Value = { List TetraItem };

    ghost view = { λ tetra. tetra.items.items };

    ghost invariant = { λ tetra. IsTetra tetra.items.items × (tetra.faces.items ≡ faces_of tetra.items.items) × (tetra.tetrahedra.items ≡ tetrahedra_of tetra.items.items) };
}

impl Tetra {
    /// The tetrahedra of a text's items, or the first reason against them.
    pub(crate) fn new(alloc: Global, items: Vec<TetraItem>) -> Result<Tetra, TetraText>
        requires { AllByRecursion IsTextTetraItem items.items }
        ensures made { IfOk result (λ tetra. (tetra ≡ items.items) × (refusal items.items ≡ None)) }
        ensures refused { IfErr result (λ fault. (fault ≡ TetraText.Memory) ⊎ (refusal items.items ≡ Some fault)) }
    {
        if items.len() > MOST_ITEMS as usize {
            return Err(TetraText::TooMany { limit: MOST_ITEMS });
        }
        let faces = faces_of(alloc, &items)?;
        let tetrahedra = tetrahedra_of(alloc, &items)?;
        match first_unlisted(&faces, &tetrahedra) {
            Some(tetrahedron) => Err(TetraText::Face { tetrahedron }),
            None => Ok(Tetra {
                items,
                faces,
                tetrahedra,
            }),
        }
    }

    /// The faces, in the order of the text. It takes no memory.
    pub fn faces(&self) -> &[[u32; 3]]
        ensures faces { result.now ≡ faces_of self.now }
        ensures tetra { IsTetra self.now }
    {
        &self.faces
    }

    /// The tetrahedra, in the order of the text. It takes no memory.
    pub fn tetrahedra(&self) -> &[[u32; 6]]
        ensures tetrahedra { result.now ≡ tetrahedra_of self.now }
        ensures tetra { IsTetra self.now }
    {
        &self.tetrahedra
    }
}
