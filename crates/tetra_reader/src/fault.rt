//! Why bytes are no text of tetrahedra.

ghost use Rattle.std.specs.Prelude.{◌≡◌};
ghost use Rattle.tetra_reader.specs.Faults.{of_place};
ghost use Rattle.tetra_reader.specs.declared.fault.TetraText.TheVariants as faults;

use pd_reader::Place;
use std::alloc::AllocError;

/// Why bytes are no text of tetrahedra. Bytes are counted from 0.
#[derive(Clone, Copy, Debug, PartialEq, Eq)]
pub enum TetraText {
    /// Up to byte `at` the input begins some text and no further, and a letter stands there.
    Head { at: usize },
    /// The same, and a digit stands there.
    Number { at: usize },
    /// The same, and another byte stands there, or the input ends.
    Text { at: usize },
    /// The text has more items than `limit`, which is `MOST_ITEMS`.
    TooMany { limit: u32 },
    /// This tetrahedron, counted from 1, is the first with a face that is not listed.
    Face { tetrahedron: u32 },
    /// Memory ran out.
    Memory,
}

impl From<Place> for TetraText {
    ghost from_gives = { λ place e. e ≡ of_place place };

    fn from(place: Place) -> TetraText {
        match place {
            Place::Head { at } => TetraText::Head { at },
            Place::Number { at } => TetraText::Number { at },
            Place::Text { at } => TetraText::Text { at },
        }
    }
}

impl From<AllocError> for TetraText {
    ghost from_gives = { λ _ e. e ≡ faults.Memory };

    fn from(_error: AllocError) -> TetraText {
        TetraText::Memory
    }
}
