//! Rotation systems: permutations, faces and genus, lone_curl, and what drawing and cutting change.
//!
//! The definitions stand in `specs/`, in the order of `specs/Lib.antt`; the laws are functions with empty bodies in `laws.rt`.
#![tactic(auto)]

mod laws;

pub use laws::{
    curl_counts, cut_vertex, exchange_merges, exchange_splits, genus, lone_curl, matched_graphs,
    one_more_edge, pair_form, passed_vertex, push_counts, renamed_counts, retract, slide_counts,
    subdivision_counts, without_edge,
};
