//! The limit that the clauses cite.

/// The most colourings of a text's labels.
pub const MOST_COLOURINGS: u32 = 65_536;
