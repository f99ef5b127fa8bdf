//! Words of crossings and hooks: what they do to strands side by side, and the laws of braids, bundles, twists and curls.
//!
//! The definitions stand in `specs/Words.antt`, `specs/Grids.antt` and `specs/Boxes.antt` (Kauffman and Lins; Lickorish, ch. 13); the
//! laws are functions with empty bodies in `laws.rt`.
#![tactic(auto)]

mod laws;

pub use laws::{
    box_curl, box_twist, bundle_second_move, bundle_third_move, closed_grid, far_letters,
    grid_columns, inverse_word, letter_second_move, letter_third_move, raised_words, same_word,
};
