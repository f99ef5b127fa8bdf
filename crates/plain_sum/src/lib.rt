//! The state sum of a network, by going through all its states: slow, short, and the yardstick of every faster way.
#![tactic(auto)]

mod parts;
mod sum;

pub use sum::plain_sum;
