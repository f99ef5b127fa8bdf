//! The laws of orders: functions with empty bodies, whose contracts are the theorems.

ghost use Rattle.frontier_laws.specs.Laws.{OneOrderLaw, OpenNamesWithLaw, WholeOrderLaw};

/// Where the next node is a function of the view, the order is a function of the network.
pub fn one_order()
    ensures { OneOrderLaw }
{}

/// The nodes of a network in any order, each once, have its value, and leave no name open.
pub fn whole_order()
    ensures { WholeOrderLaw }
{}

/// The greedy order counts the names that are open when a node is taken too.
pub fn open_names_with()
    ensures { OpenNamesWithLaw }
{}
