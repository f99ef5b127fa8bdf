//! The parts of a command line, as they were written: the command, the numbers behind it and the
//! options. Who reads the words makes them; what they ask for is found in `wrt_request`.
#![tactic(auto)]

mod parts;

pub use parts::Parts;
