//! The laws of moves and planarity: each function has an empty body, and its contract is the law. They are stated in `specs/Laws.antt`.

ghost use Rattle.planar_moves.specs.Laws.{PushPlanarLaw, CurlPlanarLaw, CurlOnLoopPlanarLaw, BlowUpPlanarLaw, SlidePlanarLaw, PullPlanarLaw, CurlUndoPlanarLaw, MovesPlanarLaw, NeverRefusedLaw, AlwaysPlanarLaw};

/// An accepted `R2` keeps a diagram planar, and makes none planar.
pub fn push_planar()
    ensures { PushPlanarLaw }
{}

/// A curl on an edge keeps a diagram planar, and makes none planar.
pub fn curl_planar()
    ensures { CurlPlanarLaw }
{}

/// So does a curl on a `Loop`.
pub fn curl_on_loop_planar()
    ensures { CurlOnLoopPlanarLaw }
{}

/// A `Loop` more keeps a diagram planar, and makes none planar.
pub fn blow_up_planar()
    ensures { BlowUpPlanarLaw }
{}

/// An accepted `R3` keeps a diagram planar, and makes none planar.
pub fn slide_planar()
    ensures { SlidePlanarLaw }
{}

/// The result of `R2Undo` on a planar diagram is planar.
pub fn pull_planar()
    ensures { PullPlanarLaw }
{}

/// The result of `CurlUndo` on a planar diagram is planar.
pub fn curl_undo_planar()
    ensures { CurlUndoPlanarLaw }
{}

/// The result of every accepted step on a planar diagram is planar.
pub fn moves_planar()
    ensures { MovesPlanarLaw }
{}

/// A step on a planar diagram gives what the move gives: that its result has to be planar changes nothing.
pub fn never_refused()
    ensures { NeverRefusedLaw }
{}

/// No step on a planar diagram is refused as `NotPlanar`.
pub fn always_planar()
    ensures { AlwaysPlanarLaw }
{}
