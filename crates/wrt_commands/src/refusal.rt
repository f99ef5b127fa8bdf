//! Refusals: what the words and the input come to, where that is no report.

ghost use Rattle.std.specs.Prelude.{◌≡◌, Some};
ghost use Rattle.wrt_commands.specs.Refusals.{status_of, text_of};

use crate::arguments_refusal::ArgumentsRefusal;
use crate::braid_refusal::BraidRefusal;
use crate::parameters_refusal::ParametersRefusal;
use crate::plane_refusal::PlaneRefusal;
use crate::script_refusal::script_status;
use crate::status::Status;
use crate::tetra_refusal::TetraRefusal;
use crate::text_refusal::TextRefusal;
use crate::too_long::TooLong;
use crate::value_refusal::value_status;
use crate::words_refusal::WordsRefusal;
use script_values::ScriptRefusal;
use std::fmt;
use wrt_values::ValueRefusal;

/// Why there is no report, by the layer that refuses, in the order in which the layers are looked at.
#[derive(Clone, Copy, Debug, PartialEq, Eq)]
pub enum Refusal {
    /// The words ask for nothing.
    Words(WordsRefusal),
    /// M, A and R are no parameters.
    Parameters(ParametersRefusal),
    /// The input is too long.
    TooLong(TooLong),
    /// The text is refused, or its items are.
    Text(TextRefusal),
    /// The text is one of a braid past the limits, or with an entry that is no crossing.
    Braid(BraidRefusal),
    /// A tetrahedron of the text has a face that is not listed, or the sum over them has too many colourings or a face without an
    /// inverse.
    Tetra(TetraRefusal),
    /// The diagram is not planar.
    Plane(PlaneRefusal),
    /// An argument of the words doesn't fit the diagram.
    Arguments(ArgumentsRefusal),
    /// The diagram has no value within the limits.
    Value(ValueRefusal),
    /// A step of the script can't be made, or one of its diagrams has no value within the limits.
    Script(ScriptRefusal),
}

impl Refusal {
    /// The status that the refusal ends with.
    pub fn status(&self) -> Status
        ensures { result ≡ status_of self.now }
    {
        match self {
            Refusal::Words(refusal) => refusal.status(),
            Refusal::Parameters(refusal) => refusal.status(),
            Refusal::TooLong(refusal) => refusal.status(),
            Refusal::Text(refusal) => refusal.status(),
            Refusal::Braid(refusal) => refusal.status(),
            Refusal::Tetra(refusal) => refusal.status(),
            Refusal::Plane(refusal) => refusal.status(),
            Refusal::Arguments(refusal) => refusal.status(),
            Refusal::Value(refusal) => value_status(refusal),
            Refusal::Script(refusal) => script_status(refusal),
        }
    }
}

/// The line of the refusal, without the program's name before it.
impl fmt::Display for Refusal {
    ghost output = { λ refusal. Some (text_of refusal) };

    fn fmt<W: fmt::Write>(&self, f: &mut fmt::Formatter<W>) -> fmt::Result {
        match self {
            Refusal::Words(refusal) => write!(f, "{refusal}"),
            Refusal::Parameters(refusal) => write!(f, "{refusal}"),
            Refusal::TooLong(refusal) => write!(f, "{refusal}"),
            Refusal::Text(refusal) => write!(f, "{refusal}"),
            Refusal::Braid(refusal) => write!(f, "{refusal}"),
            Refusal::Tetra(refusal) => write!(f, "{refusal}"),
            Refusal::Plane(refusal) => write!(f, "{refusal}"),
            Refusal::Arguments(refusal) => write!(f, "{refusal}"),
            Refusal::Value(refusal) => write!(f, "{refusal}"),
            Refusal::Script(refusal) => write!(f, "{refusal}"),
        }
    }
}
