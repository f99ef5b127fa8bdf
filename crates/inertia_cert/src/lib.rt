//! Symmetric matrices of whole numbers, and their inertia with a certificate: matrices P and Q of fractions, inverse to
//! each other, with P-transposed times the matrix times P diagonal.
#![tactic(auto)]

mod agreement;
mod arithmetic;
mod certificate;
mod checking;
mod clearing;
mod elimination;
mod fault;
mod fraction;
mod grid;
mod lines;
mod matrix;
mod parts;
mod places;
mod products;
mod rules;
mod starting;
mod steps;
mod sums;
mod tabulate;

pub use certificate::{Certificate, Counts, inertia};
pub use checking::check;
pub use fault::{InertiaFault, MatrixFault, OutOfBits};
pub use fraction::Fraction;
pub use matrix::Matrix;

#[cfg(test)]
mod tests;
