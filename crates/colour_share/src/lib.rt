//! Kirby sums: the terms of all colourings of a framed diagram, shared among workers.
#![tactic(auto)]

mod checks;
mod fault;
mod gate;
mod limits;
mod merging;
mod part;
mod sharing;
mod summing;
mod table;
mod worker;

pub use checks::colouring_total;
pub use fault::SumFault;
pub use gate::{Gate, NoGate};
pub use limits::MOST_COLOURINGS;
pub use part::Summed;
pub use summing::sum;
pub use table::table_for;
