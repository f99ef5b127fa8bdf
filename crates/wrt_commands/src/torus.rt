//! `torus N M A R`.

ghost use Rattle.std.specs.Prelude.{◌≤◌, string_bytes};
ghost use Rattle.wrt_commands.specs.TorusOutcomes.{torus_outcome};
ghost use Rattle.wrt_commands.specs.Stops.{Answers, Is};

use crate::diagram_report::diagram_report;
use crate::stop::Stop;
use pd_reader::torus;
use root_quantum::Params;
use std::alloc::Global;
use wrt_request::Sweep;

/// The report of `torus` for so many crossings, 1 to 256.
pub(crate) fn torus_report(
    alloc: Global,
    params: &Params,
    crossings: u32,
    sweep: &Sweep,
) -> Result<String, Stop>
    requires least { 1 ≤ crossings }
    requires most { crossings ≤ 256 }
    ensures { Answers (Is (torus_outcome params.now crossings sweep.now)) string_bytes result }
{
    let diagram = torus(alloc, crossings)?;
    diagram_report(alloc, params, sweep, diagram)
}
