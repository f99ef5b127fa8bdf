// Laws over the definitions alone: functions with empty bodies, each with its theorem.
ghost use Rattle.ring_identities.specs.Laws.{ResidueInRange, ResidueCongruent, SameResidues, ResidueOfNatural, InverseUnique, PowerModOrder, UnityAtMultiples, OrderUpToLimit, SignedPowerSum};

/// Residues modulo m are below m.
pub fn residue_in_range()
    ensures { ResidueInRange }
{}

/// A whole number is its residue plus a multiple of m.
pub fn residue_congruent()
    ensures { ResidueCongruent }
{}

/// Two residues are equal exactly where the numbers differ by a multiple of m.
pub fn same_residues()
    ensures { SameResidues }
{}

/// The residue of a natural number is its remainder.
pub fn residue_of_natural()
    ensures { ResidueOfNatural }
{}

/// A residue has at most one inverse.
pub fn inverse_unique()
    ensures { InverseUnique }
{}

/// Where x^t is 1, exponents of x count modulo t.
pub fn power_mod_order()
    ensures { PowerModOrder }
{}

/// Where t is the order of x, x^n is 1 exactly where t divides n.
pub fn unity_at_multiples()
    ensures { UnityAtMultiples }
{}

/// Trying each exponent up to a limit finds the order where it is within it, and else nothing.
pub fn order_up_to_limit()
    ensures { OrderUpToLimit }
{}

/// Exponents of either sign add up, where x has an inverse.
pub fn signed_power_sum()
    ensures { SignedPowerSum }
{}
