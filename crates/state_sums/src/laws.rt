//! The laws of state sums: each function has an empty body, and its contract is the law. They are stated in `specs/Laws.antt`.

ghost use Rattle.state_sums.specs.Laws.{NoNodesLaw, AnyOrderLaw, AnyNamesLaw, DisjointNetworksLaw, CutAtOpenNamesLaw, GluedPieceLaw, ReplacementLaw, SameEverywhereLaw, AddedNodesLaw, LocalRenamingLaw, AnywhereLaw};

/// A network with no node has one state, the empty one: its value is delta to the power of its free loops.
pub fn no_nodes()
    ensures { NoNodesLaw }
{}

/// The order of the nodes does not matter.
pub fn any_order()
    ensures { AnyOrderLaw }
{}

/// Other names, one to one, keep the value.
pub fn any_names()
    ensures { AnyNamesLaw }
{}

/// Two networks with no name in common have together the product of their values.
pub fn disjoint_networks()
    ensures { DisjointNetworksLaw }
{}

/// Where no name stands three times, the names that stand once in some nodes cut them off from the rest.
pub fn cut_at_open_names()
    ensures { CutAtOpenNamesLaw }
{}

/// A piece and the rest together count as the piece alone, where each pattern of its open names is worth what the rest then comes to.
pub fn glued_piece()
    ensures { GluedPieceLaw }
{}

/// Pieces with one coefficient at each pattern of their open names are interchangeable in every network.
pub fn replacement()
    ensures { ReplacementLaw }
{}

/// To be the same everywhere is an equivalence of pieces.
pub fn same_everywhere()
    ensures { SameEverywhereLaw }
{}

/// To be the same everywhere is kept under adding nodes.
pub fn added_nodes()
    ensures { AddedNodesLaw }
{}

/// To be the same everywhere is kept under other names, one to one.
pub fn local_renaming()
    ensures { LocalRenamingLaw }
{}

/// A local equality holds in every network at any names, one to one.
pub fn anywhere()
    ensures { AnywhereLaw }
{}
