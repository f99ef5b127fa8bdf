//! The report of a diagram's bracket, for the commands about one.

ghost use Rattle.std.specs.Prelude.{◌≡◌, Some, None, IfOk, string_bytes};
ghost use Rattle.wrt_commands.specs.DiagramReports.{diagram_report, planar};
ghost use Rattle.wrt_commands.specs.Reports.{report_of, value_report};
ghost use Rattle.wrt_commands.specs.Stops.{Answers, Is};

use crate::item_order::item_chooser;
use crate::plane_refusal::PlaneRefusal;
use crate::refusal::Refusal;
use crate::stop::Stop;
use pd_reader::Diagram;
use planar_check::{Planar, PlanarFault, check};
use root_quantum::Params;
use std::alloc::{AllocError, Global};
use wrt_request::Sweep;
use wrt_values::{Value, bracket_value};

/// The diagram, planar, or how many faces it has.
pub(crate) fn check_planar(alloc: Global, diagram: Diagram) -> Result<Planar, Stop>
    ensures { Answers (Is (planar diagram)) (λ plane. plane) result }
{
    match check(alloc, diagram) {
        Ok(plane) => Ok(plane),
        Err(PlanarFault::NotPlanar { faces, wanted }) => Err(Stop::Refused(Refusal::Plane(
            PlaneRefusal { faces, wanted },
        ))),
        Err(PlanarFault::Memory) => Err(Stop::Memory),
    }
}

/// The report of a residue.
pub(crate) fn residue_report(alloc: Global, residue: u64) -> Result<String, AllocError>
    ensures { IfOk result (λ report. string_bytes report ≡ report_of residue None) }
{
    format!(in alloc; "{residue}\n")
}

/// The report of a value with its turns.
fn turns_report(alloc: Global, value: Value) -> Result<String, AllocError>
    ensures { IfOk result (λ report. string_bytes report ≡ report_of value.residue (Some value.turns)) }
{
    let Value { residue, turns } = value;
    format!(in alloc; "{residue}\nturns {turns}\n")
}

/// The report of a value, with its turns where they are asked for.
pub(crate) fn value_report(
    alloc: Global,
    value: Value,
    with_turns: bool,
) -> Result<String, AllocError>
    ensures { IfOk result (λ report. string_bytes report ≡ value_report with_turns value) }
{
    if with_turns {
        turns_report(alloc, value)
    } else {
        residue_report(alloc, value.residue)
    }
}

/// The report of the diagram's bracket.
pub(crate) fn diagram_report(
    alloc: Global,
    params: &Params,
    sweep: &Sweep,
    diagram: Diagram,
) -> Result<String, Stop>
    ensures { Answers (Is (diagram_report params.now sweep.now diagram)) string_bytes result }
{
    let plane = check_planar(alloc, diagram)?;
    let chooser = item_chooser(alloc, &sweep.order, plane.diagram().items())?;
    let value = bracket_value(alloc, params, &plane, &chooser)?;
    Ok(value_report(alloc, value, sweep.turns)?)
}
