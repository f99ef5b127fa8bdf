//! Refused texts of braids.

ghost use Rattle.std.specs.Prelude.{◌≡◌, Some};
ghost use Rattle.wrt_commands.specs.BraidRefusals.{status_of_braid, text_of_braid};

use crate::status::Status;
use braid_trace::MOST_STRANDS;
use std::fmt;

/// Why a text of a braid is none of a braid within the limits.
#[derive(Clone, Copy, Debug, PartialEq, Eq)]
pub enum BraidRefusal {
    /// There are more strands than 6.
    Strands,
    /// There are more entries than `limit`.
    TooMany { limit: u32 },
    /// The entry `at`, from 1, is the first that crosses no two of the `strands` strands.
    Entry { at: u32, strands: u32 },
}

impl BraidRefusal {
    /// The status that the refusal ends with.
    pub(crate) fn status(&self) -> Status
        ensures { result ≡ status_of_braid self.now }
    {
        match self {
            BraidRefusal::Strands | BraidRefusal::TooMany { .. } => Status::Limit,
            BraidRefusal::Entry { .. } => Status::Input,
        }
    }
}

impl fmt::Display for BraidRefusal {
    ghost output = { λ refusal. Some (text_of_braid refusal) };

    fn fmt<W: fmt::Write>(&self, f: &mut fmt::Formatter<W>) -> fmt::Result {
        match self {
            BraidRefusal::Strands => write!(f, "more than {MOST_STRANDS} strands"),
            BraidRefusal::TooMany { limit } => write!(f, "more than {limit} crossings"),
            BraidRefusal::Entry { at, strands } => {
                write!(f, "entry {at} is not a crossing of {strands} strands")
            }
        }
    }
}
