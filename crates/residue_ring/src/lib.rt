// Arithmetic of residues modulo m, for any m from 2 to 2^62 - 1, even ones too. Residues are numbers
// from 0 to m - 1. No call takes memory.
#![tactic(auto)]

mod fault;
mod reduction;
mod ring;

pub use fault::{Common, OutOfRange};
pub use ring::Ring;

#[cfg(test)]
mod tests;
