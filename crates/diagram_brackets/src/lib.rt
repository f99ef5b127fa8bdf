//! The node of a crossing, and the definition of the bracket of a diagram.
#![tactic(auto)]

mod crossing;

pub use crossing::crossing_node;
