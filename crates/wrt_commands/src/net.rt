//! `net M A R`.

ghost use Rattle.std.specs.Prelude.{◌≤◌, length, string_bytes};
ghost use Rattle.wrt_commands.specs.NetOutcomes.{IsNetOutcome};
ghost use Rattle.wrt_commands.specs.Stops.{Answers};

use crate::input::{MOST_BYTES, read_net_input};
use crate::net_report::net_report;
use crate::stop::Stop;
use root_quantum::Params;
use std::alloc::Global;
use wrt_request::Sweep;

/// The report of `net` with these colours on these bytes, at most `MOST_BYTES`.
pub(crate) fn coloured_net_report(
    alloc: Global,
    params: &Params,
    colours: &[u32],
    sweep: &Sweep,
    bytes: &[u8],
) -> Result<String, Stop>
    requires { length bytes.now ≤ MOST_BYTES }
    ensures { Answers (IsNetOutcome params.now colours.now sweep.now bytes.now) string_bytes result }
{
    let net = read_net_input(alloc, bytes)?;
    net_report(alloc, params, sweep, colours, net)
}
