//! Refused texts of tetrahedra, and refused sums over them.

ghost use Rattle.std.specs.Prelude.{◌≡◌, Some};
ghost use Rattle.wrt_commands.specs.TetraRefusals.{status_of_tetra, text_of_tetra};

use crate::status::Status;
use std::fmt;

/// Why tetrahedra are not whole, or the sum over them has no value, where no other family says so. All numbers count from 1.
#[derive(Clone, Copy, Debug, PartialEq, Eq)]
pub enum TetraRefusal {
    /// This tetrahedron is the first with a face that is not listed.
    Face {
        tetrahedron: u32,
    },
    /// So many labels give more than 65,536 colourings.
    TooMany {
        labels: u32,
    },
    /// In that colouring the theta of that face shares the factor `common` with the modulus.
    Theta {
        colouring: u64,
        face: u32,
        common: u64,
    },
}

impl TetraRefusal {
    /// The status that the refusal ends with.
    pub(crate) fn status(&self) -> Status
        ensures { result ≡ status_of_tetra self.now }
    {
        match self {
            TetraRefusal::Face { .. } => Status::Input,
            TetraRefusal::TooMany { .. } => Status::Limit,
            TetraRefusal::Theta { .. } => Status::NoInverse,
        }
    }
}

impl fmt::Display for TetraRefusal {
    ghost output = { λ refusal. Some (text_of_tetra refusal) };

    fn fmt<W: fmt::Write>(&self, f: &mut fmt::Formatter<W>) -> fmt::Result {
        match self {
            TetraRefusal::Face { tetrahedron } => {
                write!(f, "tetrahedron {tetrahedron} has a face that is not listed")
            }
            TetraRefusal::TooMany { labels } => {
                write!(f, "{labels} labels give more than 65536 colourings")
            }
            TetraRefusal::Theta {
                colouring,
                face,
                common,
            } => write!(
                f,
                "colouring {colouring}: theta of face {face} has the common factor {common} with the modulus"
            ),
        }
    }
}
