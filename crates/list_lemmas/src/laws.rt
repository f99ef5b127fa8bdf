//! What the counts of their numbers tell of two lists: each function has an empty body, and its contract is the law.

ghost use Rattle.list_lemmas.specs.Laws.{IncreasingListsLaw, PermutedListsLaw};

/// Two increasing lists in which each number stands equally often are one.
pub fn increasing_lists()
    ensures { IncreasingListsLaw }
{}

/// Two lists in which each number stands equally often have the same numbers in some order.
pub fn permuted_lists()
    ensures { PermutedListsLaw }
{}
