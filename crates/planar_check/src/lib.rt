//! Faces, connected pieces and planarity of diagrams and nets, by Euler's formula; the components of
//! planar diagrams, with their writhes and linking numbers; framings and the linking matrix.
#![tactic(auto)]

mod component;
mod count;
mod cycles;
mod distinct;
mod face;
mod fault;
mod framed;
mod laws;
mod linking;
mod other;
mod placed;
mod planar;
mod sign;
#[cfg(test)]
mod tests;

pub use distinct::{distinct as distinct_labels, rank};
pub use face::{Face, faces};
pub use fault::{FramedFault, PlanarFault};
pub use framed::Framed;
pub use laws::{
    faces_told, one_direction, reversed_direction, signs_by_direction, walk_directions,
};
pub use linking::linking_matrix;
pub use planar::{Planar, PlanarNet, check, check_net};
pub use sign::Sign;
