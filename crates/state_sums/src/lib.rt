//! Networks and their state sums: definitions, and the laws by which networks are cut, glued, renamed and rewritten.
//!
//! The definitions stand in `specs/Networks.antt` and `specs/StateSums.antt` (Lickorish, ch. 3 and 13); the laws are
//! functions with empty bodies in `laws.rt`.
#![tactic(auto)]

mod laws;

pub use laws::{
    added_nodes, any_names, any_order, anywhere, cut_at_open_names, disjoint_networks, glued_piece,
    local_renaming, no_nodes, replacement, same_everywhere,
};
