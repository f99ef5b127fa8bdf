//! Networks of words: a word's sum over matings is its network's sum over patterns, so words that are the same give networks that are
//! the same everywhere; cabled crossings and their moves.
//!
//! The definitions stand in `specs/`, in the order of `specs/Lib.antt`; the laws are functions with empty bodies in `laws.rt`.
#![tactic(auto)]

mod laws;

pub use laws::{
    box_steps, cabled_curl, cabled_second_move, cabled_third_move, cabled_words, grid_words,
    grids_of_steps, same_steps, same_words, step_sums, turned_grids,
};
