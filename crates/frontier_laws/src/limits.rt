//! The limit of a table, which the definitions and the sweep's clauses cite.

/// The most pairings of a table. It lies above 208,012, the number of noncrossing pairings of 24 points: these are
/// the pairings of a disc, but the names that are open may lie on an annulus, where there are more.
pub const MOST_PAIRINGS: usize = 262_144;
