//! The program's commands: from words and a source to a report on one sink or a fault line on another.
#![tactic(auto)]

mod arguments_refusal;
mod bracket;
mod braid;
mod braid_refusal;
mod colored;
mod colour_fits;
mod coloured_report;
mod diagram_report;
mod framing_fits;
mod input;
mod item_order;
mod laws;
mod moves;
mod moves_report;
mod net;
mod net_report;
mod opening;
mod parameters;
mod parameters_refusal;
mod plane_refusal;
mod refusal;
mod script_refusal;
mod status;
mod stop;
mod surgery_report;
mod tetra_refusal;
mod tetrahedra;
mod text_refusal;
mod too_long;
mod top;
mod torus;
mod value_refusal;
mod words_refusal;
mod wrt;

pub use arguments_refusal::ArgumentsRefusal;
pub use braid_refusal::BraidRefusal;
pub use laws::{
    outcomes_are_unique, outcomes_exist, reports_are_of_brackets, reports_are_of_braid_traces,
    reports_are_of_coloured_values, reports_are_of_net_values, reports_are_of_scripts,
    reports_are_of_surgery_values, reports_are_of_tetrahedra, same_residues,
};
pub use parameters::read_parameters;
pub use parameters_refusal::ParametersRefusal;
pub use plane_refusal::PlaneRefusal;
pub use refusal::Refusal;
pub use status::Status;
pub use stop::Stop;
pub use tetra_refusal::TetraRefusal;
pub use text_refusal::{Counted, TextRefusal};
pub use too_long::TooLong;
pub use top::run;
pub use words_refusal::WordsRefusal;
