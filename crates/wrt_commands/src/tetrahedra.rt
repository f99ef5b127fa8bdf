//! `tv M A R`.

ghost use Rattle.std.specs.Prelude.{◌≡◌, ◌≤◌, length, string_bytes};
ghost use Rattle.wrt_commands.specs.Inputs.{IsTetraTextOutcome};
ghost use Rattle.wrt_commands.specs.Stops.{Answers, Is};
ghost use Rattle.wrt_commands.specs.TetraOutcomes.{IsTetraOutcome, tetra_report};
ghost use Rattle.wrt_commands.specs.TetraRefusals.{stop_of_sum, stop_of_tetra};

use crate::diagram_report::residue_report;
use crate::input::MOST_BYTES;
use crate::refusal::Refusal;
use crate::stop::Stop;
use crate::tetra_refusal::TetraRefusal;
use crate::text_refusal::{Counted, TextRefusal};
use root_quantum::Params;
use std::alloc::Global;
use tetra_reader::{Tetra, TetraText, read_tetra};
use tetra_sum::{TetraFault, tetra_sum};
use wenzl_table::Table;
use wrt_values::{SweepStep, ValueRefusal};

/// Why there are no tetrahedra: the refusal of their text, or want of memory.
fn refused_tetra(fault: TetraText) -> Stop
    ensures { result ≡ stop_of_tetra fault }
{
    let refusal = match fault {
        TetraText::Head { at } => Refusal::Text(TextRefusal::Head { at }),
        TetraText::Number { at } => Refusal::Text(TextRefusal::Number { at }),
        TetraText::Text { at } => Refusal::Text(TextRefusal::Text { at }),
        TetraText::TooMany { limit } => Refusal::Text(TextRefusal::TooMany {
            limit,
            counted: Counted::Items,
        }),
        TetraText::Face { tetrahedron } => Refusal::Tetra(TetraRefusal::Face { tetrahedron }),
        TetraText::Memory => return Stop::Memory,
    };
    Stop::Refused(refusal)
}

/// Why there is no sum: its refusal, or want of memory.
fn refused_sum(fault: TetraFault) -> Stop
    ensures { result ≡ stop_of_sum fault }
{
    let refusal = match fault {
        TetraFault::TooMany { labels, .. } => Refusal::Tetra(TetraRefusal::TooMany { labels }),
        TetraFault::NoInverse { index, common } => {
            Refusal::Value(ValueRefusal::NoInverse { index, common })
        }
        TetraFault::Wide {
            colouring,
            step,
            ends,
        } => Refusal::Value(ValueRefusal::Wide {
            step: SweepStep { colouring, step },
            ends,
        }),
        TetraFault::Table { colouring, step } => Refusal::Value(ValueRefusal::Table {
            step: SweepStep { colouring, step },
        }),
        TetraFault::Theta {
            colouring,
            face,
            common,
        } => Refusal::Tetra(TetraRefusal::Theta {
            colouring,
            face,
            common,
        }),
        TetraFault::Memory => return Stop::Memory,
    };
    Stop::Refused(refusal)
}

/// The tetrahedra that the bytes spell.
fn read_tetra_input(alloc: Global, bytes: &[u8]) -> Result<Tetra, Stop>
    ensures { Answers (IsTetraTextOutcome bytes.now) (λ tetra. tetra) result }
{
    match read_tetra(alloc, bytes) {
        Ok(tetra) => Ok(tetra),
        Err(fault) => Err(refused_tetra(fault)),
    }
}

/// The report of the sum over the tetrahedra.
fn sum_report(alloc: Global, params: &Params, tetra: &Tetra) -> Result<String, Stop>
    ensures { Answers (Is (tetra_report params.now tetra.now)) string_bytes result }
{
    let table = Table::new(alloc, *params, params.level() - 2)?;
    let mut notes = table.notes(alloc)?;
    match tetra_sum(alloc, &table, tetra, &mut notes) {
        Ok(sum) => Ok(residue_report(alloc, sum)?),
        Err(fault) => Err(refused_sum(fault)),
    }
}

/// The report of `tv` on these bytes, at most `MOST_BYTES`.
pub(crate) fn tetrahedra_report(
    alloc: Global,
    params: &Params,
    bytes: &[u8],
) -> Result<String, Stop>
    requires { length bytes.now ≤ MOST_BYTES }
    ensures { Answers (IsTetraOutcome params.now bytes.now) string_bytes result }
{
    let tetra = read_tetra_input(alloc, bytes)?;
    sum_report(alloc, params, &tetra)
}
