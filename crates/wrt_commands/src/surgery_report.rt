//! The report of a diagram whose components have framings.

ghost use Rattle.std.specs.Prelude.{◌≤◌, string_bytes};
ghost use Rattle.wrt_commands.specs.SurgeryReports.{framed_report, surgery_report};
ghost use Rattle.wrt_commands.specs.Stops.{Answers, Is};

use crate::diagram_report::{check_planar, value_report};
use crate::framing_fits::fit_framings;
use crate::item_order::item_chooser;
use crate::stop::Stop;
use colour_share::Gate;
use pd_reader::Diagram;
use planar_check::Framed;
use root_quantum::Params;
use std::alloc::Global;
use std::thread::Threads;
use wrt_request::Sweep;
use wrt_values::surgery_value;

/// The report of a framed diagram, whose sum so many workers share, 1 to 64.
fn framed_report<R: Threads + Sync, G: Gate + Sync>(
    rt: &R,
    alloc: Global,
    params: &Params,
    sweep: &Sweep,
    workers: u32,
    framed: &Framed,
    gate: &G,
) -> Result<String, Stop>
    requires first { 1 ≤ workers }
    requires last { workers ≤ 64 }
    ensures { Answers (Is (framed_report params.now sweep.now framed.now)) string_bytes result }
{
    let items = framed.planar().diagram().items();
    let chooser = item_chooser(alloc, &sweep.order, items)?;
    let value = surgery_value(rt, alloc, params, framed, &chooser, workers, gate)?;
    Ok(value_report(alloc, value, sweep.turns)?)
}

/// The report of the diagram, whose components have these framings, where they fit; so many workers share the sum, 1 to 64.
pub(crate) fn surgery_report<R: Threads + Sync, G: Gate + Sync>(
    rt: &R,
    alloc: Global,
    params: &Params,
    sweep: &Sweep,
    framings: &[i64],
    workers: u32,
    diagram: Diagram,
    gate: &G,
) -> Result<String, Stop>
    requires first { 1 ≤ workers }
    requires last { workers ≤ 64 }
    ensures { Answers (Is (surgery_report params.now sweep.now framings.now diagram)) string_bytes result }
{
    let plane = check_planar(alloc, diagram)?;
    let framed = fit_framings(alloc, plane, framings)?;
    framed_report(rt, alloc, params, sweep, workers, &framed, gate)
}
