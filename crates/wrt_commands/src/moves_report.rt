//! The report of a script: the values of its diagrams.

ghost use Rattle.std.specs.Prelude.{◌≡◌, ◌≤◌, length, IfOk, string_bytes};
ghost use Rattle.pd_reader.specs.Diagrams.{labels};
ghost use Rattle.pd_reader.specs.Items.{item_labels};
ghost use Rattle.planar_check.specs.Components.{greatest};
ghost use Rattle.script_values.specs.Drawings.{ColoursFit, greatest_label};
ghost use Rattle.wrt_commands.specs.MovesReports.{first_drawing, lines, moves_report};
ghost use Rattle.wrt_commands.specs.Stops.{Answers, Is};

use crate::colour_fits::fit_components;
use crate::diagram_report::check_planar;
use crate::framing_fits::fit_framings;
use crate::stop::Stop;
use colour_share::Gate;
use planar_check::Planar;
use root_quantum::Params;
use script_reader::{MOST_STEPS, Script};
use script_values::{Coloured, Drawing, script_values};
use std::alloc::{AllocError, Global};
use std::thread::Threads;
use wrt_request::DiagramValues;

/// The greatest label that a text spells.
const GREATEST_NUMBER: u32 = 999_999;

/// The first diagram: alone, or with the colours or the framings that its values are about, where they fit.
fn first_drawing(
    alloc: Global,
    params: &Params,
    values: &DiagramValues,
    plane: Planar,
) -> Result<Drawing, Stop>
    ensures answer { Answers (Is (first_drawing params.now values.now plane)) (λ drawing. drawing) result }
    ensures labels { IfOk result (λ drawing. greatest_label drawing ≡ greatest (labels item_labels plane)) }
    ensures fit { IfOk result (λ drawing. ColoursFit params.now drawing) }
{
    match values {
        DiagramValues::Brackets => Ok(Drawing::Plain(plane)),
        DiagramValues::Coloured(list) => {
            fit_components(params, &plane, list.members())?;
            let colours = Vec::from_slice(alloc, list.members())?;
            Ok(Drawing::Coloured(Coloured::new(plane, colours)))
        }
        DiagramValues::Surgery(list) => {
            Ok(Drawing::Framed(fit_framings(alloc, plane, list.members())?))
        }
    }
}

/// A line for each residue.
fn lines(alloc: Global, residues: &[u64]) -> Result<String, AllocError>
    ensures { IfOk result (λ report. string_bytes report ≡ lines residues.now) }
{
    let mut report = String::new(alloc);
    for residue in residues {
        let line = format!(in alloc; "{residue}\n")?;
        report.push_str(&line)?;
    }
    Ok(report)
}

/// The report of the script, whose labels are those of a text.
pub(crate) fn moves_report<R: Threads + Sync, G: Gate + Sync>(
    rt: &R,
    alloc: Global,
    params: &Params,
    values: &DiagramValues,
    script: Script,
    gate: &G,
) -> Result<String, Stop>
    requires labels { greatest (labels item_labels script.diagram) ≤ GREATEST_NUMBER }
    requires steps { length script.steps ≤ MOST_STEPS }
    ensures { Answers (Is (moves_report params.now values.now script)) string_bytes result }
{
    let Script { diagram, steps } = script;
    let plane = check_planar(alloc, diagram)?;
    let first = first_drawing(alloc, params, values, plane)?;
    let residues = script_values(rt, alloc, params, first, &steps, gate)?;
    Ok(lines(alloc, &residues)?)
}
