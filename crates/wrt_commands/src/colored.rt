//! `colored M A R`.

ghost use Rattle.std.specs.Prelude.{◌≤◌, length, string_bytes};
ghost use Rattle.wrt_commands.specs.ColoredOutcomes.{IsColoredOutcome};
ghost use Rattle.wrt_commands.specs.Stops.{Answers};

use crate::coloured_report::coloured_report;
use crate::input::{MOST_BYTES, read_diagram};
use crate::stop::Stop;
use root_quantum::Params;
use std::alloc::Global;
use wrt_request::Sweep;

/// The report of `colored` with these colours on these bytes, at most `MOST_BYTES`.
pub(crate) fn colored_report(
    alloc: Global,
    params: &Params,
    colours: &[u32],
    sweep: &Sweep,
    bytes: &[u8],
) -> Result<String, Stop>
    requires { length bytes.now ≤ MOST_BYTES }
    ensures { Answers (IsColoredOutcome params.now colours.now sweep.now bytes.now) string_bytes result }
{
    let diagram = read_diagram(alloc, bytes)?;
    coloured_report(alloc, params, sweep, colours, diagram)
}
