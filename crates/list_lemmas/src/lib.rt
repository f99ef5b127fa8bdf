//! Lists, numbers and truth values: the lemmas that several crates cite and that std lacks.
//!
//! The one definition, how often a number stands in a list, is in `specs/Times.antt`; the two laws that tell lists by it
//! are functions with empty bodies in `laws.rt`. The lemmas are in `proofs/`, one notion a file.
#![tactic(auto)]

mod counting;
mod laws;

pub use counting::count_of;
pub use laws::{increasing_lists, permuted_lists};
