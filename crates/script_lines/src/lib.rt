//! The lines of a script: each is the value of its diagram, and each but the first follows from the one before it as the step says.
//!
//! The definitions are those of `script_values`; the laws are functions with empty bodies in `laws.rt`.
#![tactic(auto)]

mod laws;

pub use laws::{bracket_lines, coloured_lines, surgery_lines};
