//! `braid M A R`.

ghost use Rattle.std.specs.Prelude.{◌≡◌, ◌≤◌, length, string_bytes};
ghost use Rattle.wrt_commands.specs.BraidOutcomes.{IsBraidOutcome, braid_report};
ghost use Rattle.wrt_commands.specs.BraidRefusals.{stop_of_braid};
ghost use Rattle.wrt_commands.specs.Inputs.{IsBraidTextOutcome};
ghost use Rattle.wrt_commands.specs.Stops.{Answers, Is};

use crate::braid_refusal::BraidRefusal;
use crate::diagram_report::residue_report;
use crate::input::MOST_BYTES;
use crate::refusal::Refusal;
use crate::stop::Stop;
use crate::text_refusal::TextRefusal;
use braid_closures::trace;
use braid_trace::{Braid, BraidFault, read_braid};
use root_quantum::Params;
use std::alloc::Global;

/// Why there is no braid: the refusal of its text, or want of memory.
fn refused_braid(fault: BraidFault) -> Stop
    ensures { result ≡ stop_of_braid fault }
{
    let refusal = match fault {
        BraidFault::Head { at } => Refusal::Text(TextRefusal::Head { at }),
        BraidFault::Number { at } => Refusal::Text(TextRefusal::Number { at }),
        BraidFault::Text { at } => Refusal::Text(TextRefusal::Text { at }),
        BraidFault::Strands { .. } => Refusal::Braid(BraidRefusal::Strands),
        BraidFault::TooMany { limit } => Refusal::Braid(BraidRefusal::TooMany { limit }),
        BraidFault::Entry { at, strands } => Refusal::Braid(BraidRefusal::Entry { at, strands }),
        BraidFault::Memory => return Stop::Memory,
    };
    Stop::Refused(refusal)
}

/// The braid that the bytes spell.
fn read_braid_input(alloc: Global, bytes: &[u8]) -> Result<Braid, Stop>
    ensures { Answers (IsBraidTextOutcome bytes.now) (λ braid. braid) result }
{
    match read_braid(alloc, bytes) {
        Ok(braid) => Ok(braid),
        Err(fault) => Err(refused_braid(fault)),
    }
}

/// The report of the bracket of the braid's closure.
fn trace_report(alloc: Global, params: &Params, braid: &Braid) -> Result<String, Stop>
    ensures { Answers (Is (braid_report params.now braid.now)) string_bytes result }
{
    let residue = trace(alloc, params, braid)?;
    Ok(residue_report(alloc, residue)?)
}

/// The report of `braid` on these bytes, at most `MOST_BYTES`.
pub(crate) fn closed_braid_report(
    alloc: Global,
    params: &Params,
    bytes: &[u8],
) -> Result<String, Stop>
    requires { length bytes.now ≤ MOST_BYTES }
    ensures { Answers (IsBraidOutcome params.now bytes.now) string_bytes result }
{
    let braid = read_braid_input(alloc, bytes)?;
    trace_report(alloc, params, &braid)
}
