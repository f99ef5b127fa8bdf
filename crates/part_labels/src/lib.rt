//! The parts of a graph, computed: each name is labelled with the least name of its part.
//!
//! What a part is stands in the crate `graph_parts`. Faces, pieces and components of diagrams are counted by this call.
#![tactic(auto)]

mod forest;
mod parts;
#[cfg(test)]
mod tests;

pub use parts::least_names;
