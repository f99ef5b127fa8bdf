//! Texts of a shape: tokens with white space before, between and after them, how far an input is the
//! beginning of one, and the lemmas with which each reader is proved.
#![tactic(auto)]

mod laws;

pub use laws::numbers_are_numerals;
