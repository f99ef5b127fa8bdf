//! The nodes at a cabled crossing and at a cabled vertex (Lickorish, ch. 13; Kauffman and Lins).
//!
//! A crossing of u under and o over strands is a grid of o rows and u columns of plain crossings: slot a at the south, b
//! at the east, c at the north, d at the west. The definitions and the picture stand in `cables`.
#![tactic(auto)]

mod crossing;
mod grid;
mod names;
mod row;
mod through;
mod vertex;

pub use crossing::{CrossingEnds, push_crossing};
pub use vertex::{VertexEnds, push_vertex};
