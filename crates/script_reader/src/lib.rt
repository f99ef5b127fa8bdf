//! Scripts: a diagram and the steps that are made from it on, and their texts, `Moves[PD[..],R2[1,3],..]`.
#![tactic(auto)]

mod argument;
mod laws;
mod script;
mod step;
mod text;

pub use laws::{script_readings_are_unique, script_readings_exist};
pub use script::{MOST_STEPS, Script};
pub use step::Step;
pub use text::read_script;

#[cfg(test)]
mod tests;
