//! What a table answers.

use crate::projector::Projector;

/// A projector that was asked for.
#[derive(Drop)]
pub enum Found<'a> {
    /// The one that the table's cell holds, for good.
    Shared(&'a Projector),
    /// One of the caller's own, since the cell holds one for other parameters or of another colour.
    Own(Projector),
}
