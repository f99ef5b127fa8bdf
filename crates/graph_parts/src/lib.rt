//! Parts of a graph: definitions, and the laws by which everything above counts loops, faces, pieces and components.
//!
//! A graph is a list of names, which are numbers, and a list of edges between names. The definitions stand in
//! `specs/Parts.antt`; the laws are functions with empty bodies in `laws.rt`.
#![tactic(auto)]

mod laws;

pub use laws::{
    apart_edge, as_many_representatives, closed_gluing, contraction, count_by_least,
    disjoint_graphs, joined_edge, least_names_tell, no_names, other_names, part_equivalence,
    parts_by_walks, pattern_gluing, same_edges, same_names,
};
