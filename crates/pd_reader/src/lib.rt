//! Planar diagrams and nets: their items, the lists of items in which each label stands twice,
//! and their texts, `PD[X[1,4,2,5],..]` and `Net[Y[1,2,3],..]`.
#![tactic(auto)]

mod call;
mod diagram;
mod fault;
mod item;
mod label;
mod laws;
mod list;
mod scan;
mod signed;
mod text;
mod torus_link;
mod write;

pub use call::{Argument, read_call};
pub use diagram::{Diagram, MOST_ITEMS, NetDiagram};
pub use fault::{DiagramFault, Place, Stop, TextFault, place_at};
pub use item::{Item, Labelled, NetItem};
pub use label::labels;
pub use laws::{
    diagrams_are_unrefused, readings_are_unique, readings_exist, texts_are_unique, written_is_read,
};
pub use list::{TextItem, read_behind, read_inside, read_list, read_text};
pub use scan::{agree, finish, mark, number, read_number, skip, stands, word};
pub use text::{read_net, read_pd};
pub use torus_link::torus;
pub use write::write_pd;

#[cfg(test)]
mod tests;
