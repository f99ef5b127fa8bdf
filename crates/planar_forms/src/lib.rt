//! Planar diagrams as rotation systems: what planar_check counts is what the system of the places has, so that the genus is never negative,
//! and a diagram is planar exactly where F = N + 2k.
//!
//! The definitions stand in `specs/`; the laws are functions with empty bodies in `laws.rt`.
#![tactic(auto)]

mod laws;

pub use laws::{counted, few_faces, flat_diagram, planar_form};
