//! The laws of coloured moves: each function has an empty body, and its contract is the law. They are stated in `specs/Laws.antt`.

ghost use Rattle.coloured_moves.specs.Laws.{ColouredPushLaw, ColouredUndoLaw, ColouredSlideLaw, ColouredCurlLaw, NoAnchorLaw, FirstAnchorLaw};

/// `R2` keeps the coloured value, for all parameters and colours.
pub fn coloured_push()
    ensures { ColouredPushLaw }
{}

/// `R2Undo` keeps the coloured value, where no box lies inside the bigon and each colour has its projector; a strand that closes
/// becomes a loop of its colour, with the box that a loop has.
pub fn coloured_bigon()
    ensures { ColouredUndoLaw }
{}

/// `R3` keeps the coloured value, where no box lies inside the triangle and each colour has its projector.
pub fn coloured_slide()
    ensures { ColouredSlideLaw }
{}

/// `Curl` on a component of colour n = 0 or 1, on an edge or on a Loop, multiplies the coloured value by `mu_n`, or by its inverse for the
/// sign `-`; the other components have any colours (Lickorish, ch. 13).
pub fn coloured_curl()
    ensures { ColouredCurlLaw }
{}

/// Where no box lies inside a step, no inner edge of the step has one.
pub fn no_anchor()
    ensures { NoAnchorLaw }
{}

/// The component that is named has its box inside the step, and none before it has.
pub fn first_anchor_named()
    ensures { FirstAnchorLaw }
{}
