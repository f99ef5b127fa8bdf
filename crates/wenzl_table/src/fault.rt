//! Why there is no projector.

/// Why there is no projector.
#[derive(Clone, Copy, Debug, PartialEq, Eq)]
pub enum WenzlFault {
    /// `Delta_index` shares the factor `common` with the modulus: the first of `Delta_1` to
    /// `Delta_(n-1)` that shares one, and the greatest common divisor. It is `Delta_1` and 17 for colour 2
    /// at 119, 2, 6.
    NoInverse { index: u32, common: u64 },
    /// Memory ran out.
    Memory,
}
