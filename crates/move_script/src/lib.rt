//! Moves on diagrams: `apply` makes a step, `apply_framed` and `blow_up` make it with framings, and `apply_coloured` with colours.
#![tactic(auto)]

mod changed;
mod classes;
mod coloured;
mod crossings;
mod curl;
mod edges;
mod framed;
mod moved;
mod pull;
mod push;
mod slide;

pub use coloured::apply_coloured;
pub use framed::{apply_framed, blow_up};
pub use moved::{GREATEST_LABEL, Moved, apply};

#[cfg(test)]
mod tests;
