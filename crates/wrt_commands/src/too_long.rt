//! Inputs that are too long.

ghost use Rattle.std.specs.Prelude.{◌≡◌, Some};
ghost use Rattle.wrt_commands.specs.TooLongRefusals.{status_of_length, text_of_length};

use crate::status::Status;
use std::fmt;

/// The input has more than `limit` bytes.
#[derive(Clone, Copy, Debug, PartialEq, Eq)]
pub struct TooLong {
    /// The most bytes of an input.
    pub limit: usize,
}

impl TooLong {
    /// The status that the refusal ends with.
    pub(crate) fn status(&self) -> Status
        ensures { result ≡ status_of_length self.now }
    {
        Status::Limit
    }
}

impl fmt::Display for TooLong {
    ghost output = { λ refusal. Some (text_of_length refusal) };

    fn fmt<W: fmt::Write>(&self, f: &mut fmt::Formatter<W>) -> fmt::Result {
        let TooLong { limit } = *self;
        write!(f, "input is longer than {limit} bytes")
    }
}
