//! Coloured curls: a cabled curl counts as a twist of its bundle, a crossing beside a projector's box as a factor, and so a curl on the edge with
//! its component's box as `mu_n`.
//!
//! The definitions are those of `strand_words`, `word_networks` and `cables`; the laws are functions with empty bodies in `laws.rt`.
#![tactic(auto)]

mod laws;

pub use laws::{
    boxed_crossing, boxed_edge, boxed_loop, boxless_edge, closed_crossing, curl, curl_beside_box,
    curl_undo,
};
