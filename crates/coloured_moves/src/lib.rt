//! Coloured Reidemeister moves: steps that keep the coloured value of a diagram.
//!
//! The definitions are those of `coloured_values` and `diagram_moves`; the laws are functions with empty bodies in `laws.rt`.
#![tactic(auto)]

mod laws;

pub use laws::{
    coloured_bigon, coloured_curl, coloured_push, coloured_slide, first_anchor_named, no_anchor,
};
