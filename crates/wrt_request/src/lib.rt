//! What the program's words ask for: the walk over the parts of a command line, in the one order of
//! refusals.
#![tactic(auto)]

mod colours;
mod command;
mod fault;
mod framing;
mod laws;
mod list;
mod number;
mod option_name;
mod order;
mod request;
mod workers;

pub use fault::{PartsFault, PartsRefusal};
pub use framing::FramingList;
pub use laws::{lists_by_spelling, numbers_by_spelling};
pub use list::{NumberList, ValueList};
pub use number::decimal;
pub use option_name::OptionName;
pub use order::OrderWord;
pub use request::{DiagramValues, Numbers, Request, Sweep, Task, read_request};

#[cfg(test)]
mod tests;
