//! The laws of moves: each function has an empty body, and its contract is the law. They are stated in `specs/Laws.antt`.

ghost use Rattle.diagram_moves.specs.Laws.{PlainMovesLaw};

/// Each accepted move multiplies the bracket by the value of its factor, for all parameters.
pub fn plain_moves()
    ensures { PlainMovesLaw }
{}
