//! The laws of cabled crossings: each function has an empty body, and its contract is the law. They are stated in `specs/Laws.antt`.

ghost use Rattle.cable_crossings.specs.Laws.{ThroughArcsLaw, CabledBigonLaw, BigonAtSlotsLaw};

/// Strands that go straight through a crossing with a colour 0 are arcs.
pub fn strands_through()
    ensures { ThroughArcsLaw }
{}

/// Two cabled crossings that are a bigon count as the strands of both edges.
pub fn bigon_of_cables()
    ensures { CabledBigonLaw }
{}

/// So they do told from any of their slots.
pub fn bigon_at_slots()
    ensures { BigonAtSlotsLaw }
{}
