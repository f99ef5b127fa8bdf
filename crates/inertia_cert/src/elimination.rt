//! The state of an elimination: the matrix as it stands, P and Q.

ghost use Rattle.std.specs.Prelude.{◌≡◌};

use crate::grid::Grid;

/// The matrix as it stands after some steps, and P and Q, all of one size.
#[derive(Drop, Debug)]
pub(crate) struct Elimination {
    pub(crate) matrix: Grid,
    pub(crate) p: Grid,
    pub(crate) q: Grid,
    pub ghost p_size: { p.size ≡ matrix.size },
    pub ghost q_size: { q.size ≡ matrix.size },
}
