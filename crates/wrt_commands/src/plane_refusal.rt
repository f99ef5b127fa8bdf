//! Diagrams that are not planar.

ghost use Rattle.std.specs.Prelude.{◌≡◌, Some};
ghost use Rattle.wrt_commands.specs.PlaneRefusals.{status_of_plane, text_of_plane};

use crate::status::Status;
use std::fmt;

/// The diagram is not planar.
#[derive(Clone, Copy, Debug, PartialEq, Eq)]
pub struct PlaneRefusal {
    /// How many faces it has.
    pub faces: u32,
    /// How many a planar diagram of its edges, crossings and pieces has.
    pub wanted: u32,
}

impl PlaneRefusal {
    /// The status that the refusal ends with.
    pub(crate) fn status(&self) -> Status
        ensures { result ≡ status_of_plane self.now }
    {
        Status::Input
    }
}

impl fmt::Display for PlaneRefusal {
    ghost output = { λ refusal. Some (text_of_plane refusal) };

    fn fmt<W: fmt::Write>(&self, f: &mut fmt::Formatter<W>) -> fmt::Result {
        let PlaneRefusal { faces, wanted } = *self;
        write!(f, "not planar: {faces} faces, {wanted} wanted")
    }
}
