//! The laws of results of moves: each function has an empty body, and its contract is the law. They are stated in `specs/Laws.antt`.

ghost use Rattle.move_results.specs.Laws.{PairedAgainLaw, ComponentsKeptLaw, FaceStepLaw, DiagramAgainLaw, ScriptLinesLaw, BigonFacesLaw, TriangleFacesLaw};

/// In the result each crossing has four slots, and each label stands twice again.
pub fn paired_again()
    ensures { PairedAgainLaw }
{}

/// The components keep their least labels, in their order; `BlowUp` adds one at the end.
pub fn components_kept()
    ensures { ComponentsKeptLaw }
{}

/// A face goes on from one crossing's slot to another's as their labels say.
pub fn face_step()
    ensures { FaceStepLaw }
{}

/// The result of a move on a diagram is a diagram, where the greatest label leaves room for four more.
pub fn diagram_again()
    ensures { DiagramAgainLaw }
{}

/// Along a script the bracket of each result is its factor times the one before.
pub fn script_lines()
    ensures { ScriptLinesLaw }
{}

/// The test of `R2Undo` finds the faces of exactly two places.
pub fn bigon_faces()
    ensures { BigonFacesLaw }
{}

/// The test of `R3` finds the faces of exactly three places.
pub fn triangle_faces()
    ensures { TriangleFacesLaw }
{}
