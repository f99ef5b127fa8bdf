//! The words of a command line, as `clap` reads them.
//!
//! One simple command says what words may stand: `program.rt` hands it to `clap`, and `words.rt` takes
//! the parts from what `clap` matched.
#![tactic(auto)]

mod fault;
mod matched;
mod program;
mod words;

pub use fault::WordsFault;
pub use words::{command_line, read_words};

#[cfg(test)]
mod tests;
