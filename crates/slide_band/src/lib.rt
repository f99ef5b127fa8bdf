//! Handle slides of framed diagrams.
#![tactic(auto)]

mod banding;
mod counting;
mod curling;
mod directing;
mod doubler;
mod edges;
mod ends;
mod labels;
mod refusals;
mod relabelling;
mod result;
mod slid;
mod sliding;

pub use slid::Slid;
pub use sliding::{GREATEST_LABEL, slide};

#[cfg(test)]
mod tests;
