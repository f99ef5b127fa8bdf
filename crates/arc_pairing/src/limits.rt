//! The limits of pairings, nodes and networks, which the clauses cite.

/// The most points of a pairing, ends of a node, and names that a seam takes or leaves.
pub const MOST_POINTS: usize = 24;

/// The most slots of a gluing: the points of a pairing and the ends of a node.
pub(crate) const MOST_SLOTS: usize = 48;

/// The most terms of a node.
pub const MOST_TERMS: usize = 1_048_576;

/// The most nodes of a network.
pub const MOST_NODES: usize = 65_536;

/// The most free loops of a network.
pub const MOST_FREE_LOOPS: usize = 256;
