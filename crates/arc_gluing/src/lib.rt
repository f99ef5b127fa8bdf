//! Gluing of pairings: definitions, and the laws by which a node is glued to the pairing that the nodes before it give.
//!
//! The definitions stand in `specs/Pairings.antt` and `specs/Sums.antt`; the laws are functions with empty bodies in `laws.rt`.
#![tactic(auto)]

mod laws;

pub use laws::{glued_node, one_more_node, one_pairing, paired_states, whole_network};
