//! Moves keep diagrams planar: each step by itself, and all of them together.
//!
//! The definitions are those of `planar_check` and `diagram_moves`; the laws are functions with empty bodies in `laws.rt`.
#![tactic(auto)]

mod laws;

pub use laws::{
    always_planar, blow_up_planar, curl_on_loop_planar, curl_planar, curl_undo_planar,
    moves_planar, never_refused, pull_planar, push_planar, slide_planar,
};
