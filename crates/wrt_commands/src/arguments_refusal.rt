//! Arguments of the words that don't fit the diagram.

ghost use Rattle.std.specs.Prelude.{◌≡◌, Some};
ghost use Rattle.wrt_commands.specs.ArgumentsRefusals.{status_of_arguments, text_of_arguments};

use crate::status::Status;
use std::fmt;

/// Why an argument doesn't fit the diagram.
#[derive(Clone, Copy, Debug, PartialEq, Eq)]
pub enum ArgumentsRefusal {
    /// So many colours are given, and as many are wanted as there are components.
    ColourCount { given: usize, wanted: u32 },
    /// The first colour of the list that is above the top colour.
    ColourTooLarge { colour: u32, limit: u32 },
    /// The first crossing at which an edge changes its colour changes that of this edge.
    Unequal { edge: u32 },
    /// The colours at this vertex aren't admissible: the first such vertex, numbered from 1.
    NotAdmissible { vertex: u32 },
    /// So many framings are given, and as many are wanted as there are components.
    FramingCount { given: usize, wanted: u32 },
    /// The framing of this component is past 2^60 in size: the first such component, numbered from 1.
    FramingSize { component: u32 },
    /// The list of the order doesn't name each item that has places once, and nothing else; `items` of
    /// them have.
    Order { items: u32 },
}

impl ArgumentsRefusal {
    /// The status that the refusal ends with.
    pub(crate) fn status(&self) -> Status
        ensures { result ≡ status_of_arguments self.now }
    {
        Status::Input
    }
}

impl fmt::Display for ArgumentsRefusal {
    ghost output = { λ refusal. Some (text_of_arguments refusal) };

    fn fmt<W: fmt::Write>(&self, f: &mut fmt::Formatter<W>) -> fmt::Result {
        match self {
            ArgumentsRefusal::ColourCount { given, wanted } => {
                write!(f, "{given} colours given, {wanted} wanted")
            }
            ArgumentsRefusal::ColourTooLarge { colour, limit } => {
                write!(f, "colour {colour} is above {limit}")
            }
            ArgumentsRefusal::Unequal { edge } => write!(f, "edge {edge} changes its colour"),
            ArgumentsRefusal::NotAdmissible { vertex } => {
                write!(f, "vertex {vertex} is not admissible")
            }
            ArgumentsRefusal::FramingCount { given, wanted } => {
                write!(f, "{given} framings given, {wanted} wanted")
            }
            ArgumentsRefusal::FramingSize { component } => {
                write!(f, "framing of component {component} is out of range")
            }
            ArgumentsRefusal::Order { items } => {
                write!(f, "order does not name each of {items} items once")
            }
        }
    }
}
