//! Why a list of items is no diagram, and why bytes are no text of one.

ghost use Rattle.std.specs.Prelude.{◌≡◌, ◌≤◌, length};
ghost use Rattle.pd_reader.specs.declared.fault.DiagramFault.TheVariants.{Memory};
ghost use Rattle.pd_reader.specs.declared.fault.Stop.TheVariants as stops;
ghost use Rattle.pd_reader.specs.Faults.{NamesByte, byte_of, of_items, of_place};

use std::alloc::{AllocError, AllocFailed};

/// Why a list of items is no diagram, or no net.
#[derive(Clone, Copy, Debug, PartialEq, Eq)]
pub enum DiagramFault {
    /// There are more items than `limit`, which is `MOST_ITEMS`.
    TooMany { limit: u32 },
    /// This label stands `count` times, and not twice. It is the least of these.
    Label { label: u32, count: u32 },
    /// Memory ran out.
    Memory,
}

impl From<AllocError> for DiagramFault {
    ghost from_gives = { λ _ e. e ≡ Memory };

    fn from(_error: AllocError) -> DiagramFault {
        DiagramFault::Memory
    }
}

impl<T: Drop> From<AllocFailed<T>> for DiagramFault {
    ghost from_gives = { λ _ e. e ≡ Memory };

    fn from(_error: AllocFailed<T>) -> DiagramFault {
        DiagramFault::Memory
    }
}

/// Where bytes stop being the beginning of a text, and what stands there. Each shape of text has a fault that
/// takes it in. Bytes are counted from 0.
#[derive(Clone, Copy, Debug, PartialEq, Eq)]
pub enum Place {
    /// A letter.
    Head { at: usize },
    /// A digit.
    Number { at: usize },
    /// Another byte, or the end.
    Text { at: usize },
}

/// Why bytes are no text of a diagram, or of a net. Bytes are counted from 0.
#[derive(Clone, Copy, Debug, PartialEq, Eq)]
pub enum TextFault {
    /// Up to byte `at` the input begins some text and no further, and a letter stands there.
    Head { at: usize },
    /// The same, and a digit stands there.
    Number { at: usize },
    /// The same, and another byte stands there, or the input ends.
    Text { at: usize },
    /// The text has more items than `limit`, which is `MOST_ITEMS`.
    TooMany { limit: u32 },
    /// This label stands `count` times, and not twice. It is the least of these.
    Label { label: u32, count: u32 },
    /// Memory ran out.
    Memory,
}

impl From<Place> for TextFault {
    ghost from_gives = { λ place e. e ≡ of_place place };

    fn from(place: Place) -> TextFault {
        match place {
            Place::Head { at } => TextFault::Head { at },
            Place::Number { at } => TextFault::Number { at },
            Place::Text { at } => TextFault::Text { at },
        }
    }
}

impl From<DiagramFault> for TextFault {
    ghost from_gives = { λ fault e. e ≡ of_items fault };

    fn from(fault: DiagramFault) -> TextFault {
        match fault {
            DiagramFault::TooMany { limit } => TextFault::TooMany { limit },
            DiagramFault::Label { label, count } => TextFault::Label { label, count },
            DiagramFault::Memory => TextFault::Memory,
        }
    }
}

/// Where a reader stops, before it is said what stands there.
#[derive(Clone, Copy, Debug, PartialEq, Eq)]
pub enum Stop {
    /// The bytes go on up to here as the shape says, and no further.
    At(usize),
    /// Memory ran out.
    Memory,
}

impl From<usize> for Stop {
    ghost from_gives = { λ p e. e ≡ stops.At p };

    fn from(p: usize) -> Stop {
        Stop::At(p)
    }
}

impl From<AllocError> for Stop {
    ghost from_gives = { λ _ e. e ≡ stops.Memory };

    fn from(_error: AllocError) -> Stop {
        Stop::Memory
    }
}

impl<T: Drop> From<AllocFailed<T>> for Stop {
    ghost from_gives = { λ _ e. e ≡ stops.Memory };

    fn from(_error: AllocFailed<T>) -> Stop {
        Stop::Memory
    }
}

/// The place at a byte, named by the byte that stands there: `Head` by a letter, `Number` by a digit,
/// `Text` by any other byte or the end.
pub fn place_at(bytes: &[u8], at: usize) -> Place
    requires { at ≤ length bytes.now }
    ensures named { NamesByte bytes.now result }
    ensures byte { byte_of result ≡ at }
{
    match bytes.get(at) {
        Some(b'A'..=b'Z' | b'a'..=b'z') => Place::Head { at },
        Some(b'0'..=b'9') => Place::Number { at },
        _ => Place::Text { at },
    }
}
