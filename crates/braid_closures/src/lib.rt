//! Closures of braids: their diagrams, and their brackets by the Temperley-Lieb algebra.
#![tactic(auto)]

mod closures;
mod traces;

pub use closures::closure;
pub use traces::trace;

#[cfg(test)]
mod tests;
