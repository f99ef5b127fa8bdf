//! Why bytes are no text of a braid.

ghost use Rattle.std.specs.Prelude.{◌≡◌};
ghost use Rattle.braid_trace.specs.Faults.{of_place};

use pd_reader::Place;

/// Why bytes are no text of a braid. Bytes are counted from 0.
#[derive(Clone, Copy, Debug, PartialEq, Eq)]
pub enum BraidFault {
    /// Up to byte `at` the input begins some text and no further, and a letter stands there.
    Head { at: usize },
    /// The same, and a digit stands there.
    Number { at: usize },
    /// The same, and another byte stands there, or the input ends.
    Text { at: usize },
    /// The text has `given` strands, more than `MOST_STRANDS`.
    Strands { given: u32 },
    /// The text has more entries than `limit`, which is `MOST_ENTRIES`.
    TooMany { limit: u32 },
    /// The entry `at`, from 1, is the first whose size is at least the number of strands, which is `strands`.
    Entry { at: u32, strands: u32 },
    /// Memory ran out.
    Memory,
}

impl From<Place> for BraidFault {
    ghost from_gives = { λ place e. e ≡ of_place place };

    fn from(place: Place) -> BraidFault {
        match place {
            Place::Head { at } => BraidFault::Head { at },
            Place::Number { at } => BraidFault::Number { at },
            Place::Text { at } => BraidFault::Text { at },
        }
    }
}
