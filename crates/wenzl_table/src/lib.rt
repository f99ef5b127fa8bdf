//! The projectors of the Temperley-Lieb algebra, by Wenzl's recursion (Lickorish, ch. 13; Kauffman and Lins).
//!
//! A `Projector` keeps in its type that its element is f^n for its own parameters and colour. A `Table` has a cell for each
//! colour, which threads share and which is set once; `Notes` tell which projector a cell holds. The definitions stand in
//! strand_algebra; `specs/Inverses.antt` says where a projector exists, `specs/Laws.antt` what holds of each, and
//! `specs/Tables.antt` what is known of a table.
#![tactic(auto)]

mod building;
mod fault;
mod found;
mod inverses;
mod laws;
mod notes;
mod projector;
mod shape;
mod table;

pub use building::build;
pub use fault::WenzlFault;
pub use found::Found;
pub use laws::{closure, half_turn, hook_above, hook_below, mirror_image, own_square};
pub use notes::Notes;
pub use projector::Projector;
pub use shape::Table;

#[cfg(test)]
mod tests;
