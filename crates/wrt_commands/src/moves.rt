//! `moves M A R`.

ghost use Rattle.std.specs.Prelude.{◌≤◌, length, string_bytes};
ghost use Rattle.wrt_commands.specs.MovesOutcomes.{IsMovesOutcome};
ghost use Rattle.wrt_commands.specs.Stops.{Answers};

use crate::input::{MOST_BYTES, read_script_input};
use crate::moves_report::moves_report;
use crate::stop::Stop;
use colour_share::Gate;
use root_quantum::Params;
use std::alloc::Global;
use std::thread::Threads;
use wrt_request::DiagramValues;

/// The report of `moves` on these bytes, at most `MOST_BYTES`: these values of the script's diagrams.
pub(crate) fn script_report<R: Threads + Sync, G: Gate + Sync>(
    rt: &R,
    alloc: Global,
    params: &Params,
    values: &DiagramValues,
    bytes: &[u8],
    gate: &G,
) -> Result<String, Stop>
    requires { length bytes.now ≤ MOST_BYTES }
    ensures { Answers (IsMovesOutcome params.now values.now bytes.now) string_bytes result }
{
    let script = read_script_input(alloc, bytes)?;
    moves_report(rt, alloc, params, values, script, gate)
}
