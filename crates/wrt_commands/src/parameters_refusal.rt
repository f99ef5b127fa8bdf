//! Refused parameters.

ghost use Rattle.std.specs.Prelude.{◌≡◌, Some};
ghost use Rattle.wrt_commands.specs.ParametersRefusals.{status_of_parameters, text_of_parameters};

use crate::status::Status;
use std::fmt;

/// Why numbers are no parameters: the first reason that holds.
#[derive(Clone, Copy, Debug, PartialEq, Eq)]
pub enum ParametersRefusal {
    /// M is out of range.
    Modulus,
    /// A is out of range.
    Root,
    /// R is out of range.
    Level,
    /// R is above 6, for a sum over tetrahedra.
    TetraLevel,
    /// R is even, in the even form.
    EvenLevel,
    /// The least power of A that is 1 is `found`, or there is none up to `wanted`.
    Order {
        found: Option<u32>,
        wanted: u32,
    },
    /// In the even form, the least power of A that is 1 is `found`, or there is none up to `greater`; wanted are `greater`
    /// or `lesser`.
    EvenOrder {
        found: Option<u32>,
        greater: u32,
        lesser: u32,
    },
}

impl ParametersRefusal {
    /// The status that the refusal ends with.
    pub(crate) fn status(&self) -> Status
        ensures { result ≡ status_of_parameters self.now }
    {
        Status::Words
    }
}

impl fmt::Display for ParametersRefusal {
    ghost output = { λ refusal. Some (text_of_parameters refusal) };

    fn fmt<W: fmt::Write>(&self, f: &mut fmt::Formatter<W>) -> fmt::Result {
        match self {
            ParametersRefusal::Modulus => write!(f, "modulus is out of range"),
            ParametersRefusal::Root => write!(f, "root is out of range"),
            ParametersRefusal::Level => write!(f, "level is not 3 to 10"),
            ParametersRefusal::TetraLevel => write!(f, "level is not 3 to 6"),
            ParametersRefusal::EvenLevel => write!(f, "level is not odd"),
            ParametersRefusal::Order {
                found: Some(found),
                wanted,
            } => write!(f, "order is {found}, wanted {wanted}"),
            ParametersRefusal::Order {
                found: None,
                wanted,
            } => write!(f, "no order up to {wanted}, wanted {wanted}"),
            ParametersRefusal::EvenOrder {
                found: Some(found),
                greater,
                lesser,
            } => write!(f, "order is {found}, wanted {greater} or {lesser}"),
            ParametersRefusal::EvenOrder {
                found: None,
                greater,
                lesser,
            } => write!(f, "no order up to {greater}, wanted {greater} or {lesser}"),
        }
    }
}
