//! `wrt M A R`.

ghost use Rattle.std.specs.Prelude.{◌≡◌, ◌≤◌, length, string_bytes};
ghost use Rattle.wrt_commands.specs.WrtOutcomes.{IsWrtOutcome, framing_list};
ghost use Rattle.wrt_commands.specs.Stops.{Answers};

use crate::input::{MOST_BYTES, read_diagram};
use crate::stop::Stop;
use crate::surgery_report::surgery_report;
use colour_share::Gate;
use root_quantum::Params;
use std::alloc::Global;
use std::thread::Threads;
use wrt_request::{FramingList, Sweep};

/// The framings of the option; none without it.
fn framing_list(framings: &Option<FramingList>) -> &[i64]
    ensures { result.now ≡ framing_list framings.now }
{
    match framings {
        Some(list) => list.members(),
        None => &[],
    }
}

/// The report of `wrt` with these framings on these bytes, at most `MOST_BYTES`; so many workers share the sum, 1 to 64.
pub(crate) fn wrt_report<R: Threads + Sync, G: Gate + Sync>(
    rt: &R,
    alloc: Global,
    params: &Params,
    framings: &Option<FramingList>,
    workers: u32,
    sweep: &Sweep,
    bytes: &[u8],
    gate: &G,
) -> Result<String, Stop>
    requires length { length bytes.now ≤ MOST_BYTES }
    requires first { 1 ≤ workers }
    requires last { workers ≤ 64 }
    ensures { Answers (IsWrtOutcome params.now framings.now sweep.now bytes.now) string_bytes result }
{
    let diagram = read_diagram(alloc, bytes)?;
    let framings = framing_list(framings);
    surgery_report(rt, alloc, params, sweep, framings, workers, diagram, gate)
}
