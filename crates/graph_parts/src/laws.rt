//! The laws of parts: each function has an empty body, and its contract is the law. They are stated in `specs/Laws.antt`.

ghost use Rattle.graph_parts.specs.Laws.{PartsByWalksLaw, PartEquivalenceLaw, NoNamesLaw, JoinedEdgeLaw, ApartEdgeLaw, ContractionLaw, SameEdgesLaw, SameNamesLaw, OtherNamesLaw, DisjointGraphsLaw, AsManyRepresentativesLaw, LeastNamesTellLaw, CountByLeastLaw, PatternGluingLaw, ClosedGluingLaw};

/// The part of a name is what walks along the edges join with it.
pub fn parts_by_walks()
    ensures { PartsByWalksLaw }
{}

/// Being in one part is an part_equivalence of the names.
pub fn part_equivalence()
    ensures { PartEquivalenceLaw }
{}

/// A graph with no name has no part.
pub fn no_names()
    ensures { NoNamesLaw }
{}

/// One more edge between joined names keeps the number of parts.
pub fn joined_edge()
    ensures { JoinedEdgeLaw }
{}

/// One more edge between names that are not joined lowers the number of parts by one.
pub fn apart_edge()
    ensures { ApartEdgeLaw }
{}

/// Two lists of edges that join the same names of a set are interchangeable under further edges between these names.
pub fn contraction()
    ensures { ContractionLaw }
{}

/// Order, direction and repetition of the edges do not matter.
pub fn same_edges()
    ensures { SameEdgesLaw }
{}

/// Order and repetition of the names do not matter.
pub fn same_names()
    ensures { SameNamesLaw }
{}

/// Other names, one to one, keep the number of parts.
pub fn other_names()
    ensures { OtherNamesLaw }
{}

/// Two graphs with no name in common have together as many parts as both.
pub fn disjoint_graphs()
    ensures { DisjointGraphsLaw }
{}

/// There are as many parts as representatives, whichever are chosen.
pub fn as_many_representatives()
    ensures { AsManyRepresentativesLaw }
{}

/// Two names are joined exactly where the least names of their parts are one.
pub fn least_names_tell()
    ensures { LeastNamesTellLaw }
{}

/// There are as many parts as names that are the least of their part.
pub fn count_by_least()
    ensures { CountByLeastLaw }
{}

/// The pattern of two graphs together follows from the first one's pattern and the second one's edges.
pub fn pattern_gluing()
    ensures { PatternGluingLaw }
{}

/// The closed parts of two graphs together are those of the first and those that then close.
pub fn closed_gluing()
    ensures { ClosedGluingLaw }
{}
