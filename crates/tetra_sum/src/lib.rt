//! Sums over coloured tetrahedra (this project's own, after Turaev and Viro).
#![tactic(auto)]

mod checks;
mod colourings;
mod colours;
mod contraction;
mod fault;
mod known;
mod labels;
mod limits;
mod nets;
mod number;
mod places;
mod products;
mod stores;
mod sum;
mod weight;

pub use fault::TetraFault;
pub use limits::MOST_COLOURINGS;
pub use sum::tetra_sum;
