//! The laws of gluing: each function has an empty body, and its contract is the law. They are stated in `specs/Laws.antt`.

ghost use Rattle.arc_gluing.specs.Laws.{PairedStatesLaw, OnePairingLaw, GluedNodeLaw, OneMoreNodeLaw, WholeNetworkLaw};

/// Where no name stands three times, each state of some nodes pairs the names that stand once.
pub fn paired_states()
    ensures { PairedStatesLaw }
{}

/// Only one pairing of the open names is that of the parts.
pub fn one_pairing()
    ensures { OnePairingLaw }
{}

/// Gluing: with one more node, the pairing and the closed parts of each state follow from those of the state before.
pub fn glued_node()
    ensures { GluedNodeLaw }
{}

/// Gluing in sums over all states, whatever each pairing is worth.
pub fn one_more_node()
    ensures { OneMoreNodeLaw }
{}

/// With no open name, the sum over pairings is the state sum.
pub fn whole_network()
    ensures { WholeNetworkLaw }
{}
