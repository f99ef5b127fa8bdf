//! Boxes in networks: projectors are killed by hooks, take curls as factors and half turns as nothing, and words close to their traces.
//!
//! The definitions stand in `specs/StrandBoxes.antt` and `specs/Traces.antt` (Lickorish, ch. 13; Kauffman and Lins); the laws are
//! functions with empty bodies in `laws.rt`.
#![tactic(auto)]

mod laws;

pub use laws::{
    closed_box, curl_factor, half_turned_box, projector_box, projector_curl, word_traces,
};
