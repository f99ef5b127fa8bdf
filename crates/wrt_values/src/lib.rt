//! Values of diagrams and nets, apart from the commands that ask for them.
#![tactic(auto)]

mod bracket;
mod coloured;
mod fault;
mod net;
mod surgery;
mod sweep;
mod value;

pub use bracket::bracket_value;
pub use coloured::coloured_value;
pub use fault::{SweepStep, ValueFault, ValueRefusal};
pub use net::net_value;
pub use surgery::surgery_value;
pub use value::Value;
