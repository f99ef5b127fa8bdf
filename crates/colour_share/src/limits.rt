//! The limits of a Kirby sum, which the clauses cite.

/// The most colourings of a diagram.
pub const MOST_COLOURINGS: u64 = 65_536;
