//! Orders of the nodes of a network, their turns, and the tables of pairings that sum its states node by node: definitions,
//! and the laws by which a contraction is proved.
//!
//! The definitions stand in `specs/Orders.antt`, `specs/Turns.antt` and `specs/Tables.antt`.
#![tactic(auto)]

mod laws;
mod limits;

pub use laws::{one_order, open_names_with, whole_order};
pub use limits::MOST_PAIRINGS;
