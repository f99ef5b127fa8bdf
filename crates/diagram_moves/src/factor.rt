//! The factors by which steps multiply a bracket.

/// A factor of the bracket: -A^3 to the power `curl`, times delta to the power `circle`.
#[derive(Clone, Copy, Debug, PartialEq, Eq)]
pub struct Factor {
    /// The power of -A^3: 1 for a positive curl that comes, or a negative one that goes.
    pub curl: i64,
    /// The power of delta: how many closed curves came.
    pub circle: u32,
}
