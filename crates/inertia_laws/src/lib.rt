//! Inertia of symmetric matrices of whole numbers: certificates, the elimination that gives one over fractions of any size,
//! Sylvester's law and the law of congruence. Definitions and laws; no function runs.
#![tactic(auto)]

mod laws;

pub use laws::{
    border_counts, certificate_indices, congruence_law, elimination_certifies, equations_solvable,
    lowest_terms, size_alone, sylvester_law,
};
