//! Coloured faces and tetrahedra by their labels, and their texts, `TV[F[1,2,3],T[1,2,3,4,5,6],..]`.
#![tactic(auto)]

mod fault;
mod item;
mod laws;
mod tetra;
mod text;

pub use fault::TetraText;
pub use item::TetraItem;
pub use laws::{readings_are_unique, readings_exist};
pub use tetra::{MOST_ITEMS, Tetra};
pub use text::read_tetra;

#[cfg(test)]
mod tests;
