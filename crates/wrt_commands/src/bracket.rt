//! `bracket M A R`.

ghost use Rattle.std.specs.Prelude.{◌≤◌, length, string_bytes};
ghost use Rattle.wrt_commands.specs.BracketOutcomes.{IsBracketOutcome};
ghost use Rattle.wrt_commands.specs.Stops.{Answers};

use crate::diagram_report::diagram_report;
use crate::input::{MOST_BYTES, read_diagram};
use crate::stop::Stop;
use root_quantum::Params;
use std::alloc::Global;
use wrt_request::Sweep;

/// The report of `bracket` on these bytes, at most `MOST_BYTES`.
pub(crate) fn bracket_report(
    alloc: Global,
    params: &Params,
    sweep: &Sweep,
    bytes: &[u8],
) -> Result<String, Stop>
    requires { length bytes.now ≤ MOST_BYTES }
    ensures { Answers (IsBracketOutcome params.now sweep.now bytes.now) string_bytes result }
{
    let diagram = read_diagram(alloc, bytes)?;
    diagram_report(alloc, params, sweep, diagram)
}
