//! Networks of cabled diagrams and nets (Lickorish, ch. 13; Kauffman and Lins).
//!
//! An edge of colour n is n strands, a crossing a grid of crossings, a vertex one node, and a projector stands as a box on
//! each edge of a net, and once on each component of a diagram, that has at least two strands. The definitions are those
//! of `cables` and `coloured_values`, the nodes at crossings and vertices come from `cable_grids`, and the projectors from a
//! table that threads share.
#![tactic(auto)]

mod boxes;
mod coloured;
mod colouring;
mod colours;
mod diagram;
mod edge;
mod fault;
mod fit;
mod item;
mod net;
mod network;
mod progress;
mod projectors;
mod strand;

pub use colours::check_colours;
pub use diagram::cable;
pub use fault::CableFault;
pub use net::{cable_net, check_net_colours};
