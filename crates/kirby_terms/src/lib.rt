//! What one colouring of a framed diagram gives to its Kirby sum, and how that sum is normalised (Lickorish, ch. 13).
#![tactic(auto)]

mod colour_term;
mod colours;
mod laws;
mod normalisation;

pub use colour_term::term;
pub use colours::{colour_count, colouring, colouring_of};
pub use laws::omega_inverses;
pub use normalisation::{NormFault, normalise, omega};
