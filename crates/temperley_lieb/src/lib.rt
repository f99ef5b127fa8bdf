//! Elements of the Temperley-Lieb algebra on at most 8 strands, and their product (Lickorish, ch. 13).
//!
//! An element has each noncrossing pairing of the 2n ends of n strands once, in dictionary order, with its coefficient
//! modulo m, zeros included. Points 0 to n-1 are the bottom from left to right, points n to 2n-1 the top from right to
//! left. The definitions that the contracts cite, and the laws of the algebra, are those of strand_algebra.
#![tactic(auto)]

mod closing;
mod collecting;
mod element;
mod noncrossing;
mod operations;
mod stacking;
mod strands;

pub use closing::close;
pub use element::Element;
pub use operations::{add, beside, hook, identity, multiply, scale};
pub use strands::straight;

#[cfg(test)]
mod tests;
