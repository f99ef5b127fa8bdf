//! The results of moves: each is a diagram again, components keep their least labels, the faces that moves name are found by labels, and
//! the brackets along a script.
//!
//! The definitions are those of `diagram_moves`; the laws are functions with empty bodies in `laws.rt`.
#![tactic(auto)]

mod laws;

pub use laws::{
    bigon_faces, components_kept, diagram_again, face_step, paired_again, script_lines,
    triangle_faces,
};
