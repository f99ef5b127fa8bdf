//! The frontier sweep: state sums of large networks, node by node.
#![tactic(auto)]

mod chooser;
mod contraction;
mod ends_index;
mod fault;
mod frontier;
mod groups;
mod in_place;
mod laws;
mod order;
mod place_key;
mod places;
mod powers;
mod rises;
mod step;
mod table;
mod tables;
mod view;

pub use chooser::{Choose, Chooser, Kept};
pub use contraction::{contract, contract_in_order};
pub use fault::SweepFault;
pub use laws::one_order_each;
pub use order::{Order, given_next, greedy_next, listed_next};
pub use view::View;

#[cfg(test)]
mod tests;
