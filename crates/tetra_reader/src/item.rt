//! Faces and tetrahedra.

/// An item of a text. Labels are whole numbers of at least 1, and name the edges of tetrahedra.
#[derive(Clone, Copy, Debug, PartialEq, Eq)]
pub enum TetraItem {
    /// A face, by its three edges.
    F([u32; 3]),
    /// A tetrahedron, by its six edges a to f: its faces are abc, aef, bfd and cde.
    T([u32; 6]),
}
