//! Braid words: a number of strands and signed entries, and their texts, `BR[n,{e,..,e}]`.
#![tactic(auto)]

mod braid;
mod fault;
mod laws;
mod text;

pub use braid::{Braid, MOST_ENTRIES, MOST_STRANDS};
pub use fault::BraidFault;
pub use laws::{readings_are_unique, readings_exist};
pub use text::read_braid;

#[cfg(test)]
mod tests;
