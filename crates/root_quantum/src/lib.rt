//! The parameters of skein theory at a root of unity A modulo m, and the numbers that they fix: delta, `Delta_n`,
//! `mu_n`. No call takes memory.
//!
//! The definitions stand in `specs/Parameters.antt`, `specs/Colours.antt` and `specs/QuantumNumbers.antt`; the laws
//! are functions with empty bodies in `laws.rt`.
#![tactic(auto)]

mod fault;
mod form;
mod laws;
mod params;

pub use fault::ParamFault;
pub use form::Form;
pub use laws::{
    accepted, delta_first, delta_next, delta_square, equal_parameters, greatest_of_colours,
    loop_value_of_squares, refused, root_times_inverse, twist_none, twist_one, twist_sum,
};
pub use params::Params;

#[cfg(test)]
mod tests;
