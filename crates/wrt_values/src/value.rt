//! Values.

/// The value of a diagram, and what it took.
#[derive(Clone, Copy, Debug, PartialEq, Eq)]
pub struct Value {
    /// The value, below the modulus.
    pub residue: u64,
    /// How many turns it took: additions of a term's product to a table.
    pub turns: u128,
}
