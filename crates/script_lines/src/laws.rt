//! The laws of the lines of a script: each function has an empty body, and its contract is the law. They are stated in `specs/Laws.antt`.

ghost use Rattle.script_lines.specs.Laws.{BracketLinesLaw, ColouredLinesLaw, SurgeryLinesLaw};

/// Without framings each line of a script is the bracket of its diagram, and each line but the first is the step's factor times the
/// one before it, modulo m.
pub fn bracket_lines()
    ensures { BracketLinesLaw }
{}

/// With framings each line of a script is the surgery value of its diagram, and each blow-up repeats the line before it.
pub fn surgery_lines()
    ensures { SurgeryLinesLaw }
{}

/// With colours each line of a script is the value of its diagram with its colours; each `R2`, `R2Undo` and `R3` repeats the line before
/// it, each blow-up multiplies it by delta, and each `Curl` and `CurlUndo` on a component of colour n by `mu_n` to the power of the curl
/// of the step's factor, modulo m.
pub fn coloured_lines()
    ensures { ColouredLinesLaw }
{}
