//! Pairings of points, and the networks that are made of them: terms, nodes and networks, each with its facts in its type.
//!
//! A pairing joins an even number of points, at most 24, two by two; a node is a list of named ends with weighted pairings
//! of these; a network is a list of nodes in which every name stands exactly twice.
#![tactic(auto)]

mod changes;
mod code;
mod fault;
mod gluing;
mod kept;
mod laws;
mod limits;
mod names;
mod network;
mod node;
mod order;
mod pairing;
mod seam;
#[cfg(test)]
mod tests;

pub use fault::{NetworkFault, NodeFault, PairingFault};
pub use gluing::{Glued, Turns, glue};
pub use laws::one_code;
pub use limits::{MOST_FREE_LOOPS, MOST_NODES, MOST_POINTS, MOST_TERMS};
pub use network::Network;
pub use node::{Node, Term};
pub use pairing::Pairing;
pub use seam::{Seam, TooWide};
