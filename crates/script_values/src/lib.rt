//! Scripts played: the values of a script's diagrams, its first one and what each step gives.
#![tactic(auto)]

mod coloured;
mod drawing;
mod fault;
mod script;
mod step_fault;
mod step_refusal;

pub use coloured::Coloured;
pub use drawing::{Drawing, NEW_LABELS};
pub use fault::{ScriptFault, ScriptRefusal};
pub use script::script_values;
pub use step_fault::StepFault;
pub use step_refusal::StepRefusal;
