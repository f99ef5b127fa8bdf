//! The input: its bytes, and the diagram, the net or the script that they spell.

ghost use Rattle.std.specs.Prelude.{◌≡◌, ◌≢◌, ◌≤◌, Err, IfOk, MatchResult, OnOk, length};
ghost use Rattle.pd_reader.specs.Diagrams.{labels};
ghost use Rattle.pd_reader.specs.Items.{item_labels};
ghost use Rattle.planar_check.specs.Components.{greatest};
ghost use Rattle.skein_io.specs.Faults.{Rose};
ghost use Rattle.skein_io.specs.Source.{IsSuffix};
ghost use Rattle.wrt_commands.specs.Inputs.{IsNetTextOutcome, IsPdOutcome, IsScriptTextOutcome};
ghost use Rattle.wrt_commands.specs.Runs.{IsAtEnd, IsRead, IsUnread};
ghost use Rattle.wrt_commands.specs.Stops.{Answers};
ghost use Rattle.wrt_commands.specs.TextRefusals.{counted_in, stop_of_text};
ghost use Rattle.wrt_commands.specs.declared.stop.Stop.TheVariants as stops;

use crate::refusal::Refusal;
use crate::stop::Stop;
use crate::text_refusal::{Counted, TextRefusal};
use crate::too_long::TooLong;
use pd_reader::{Diagram, NetDiagram, TextFault, read_net, read_pd};
use script_reader::{MOST_STEPS, Script, read_script};
use skein_io::{ReadAll, Source, read_all};
use std::alloc::Global;

/// The most bytes of an input: 1,048,576.
pub(crate) const MOST_BYTES: usize = 1_048_576;

/// All bytes of the source, at most `MOST_BYTES`.
pub(crate) fn read_input<S: Source>(alloc: Global, source: &mut S) -> Result<Vec<u8>, Stop>
    ensures answer { MatchResult result (λ bytes. IsRead (S.left source.old) bytes.items) (IsUnread (S.left source.old)) }
    ensures end { OnOk result (IsAtEnd (S.left source.old) (S.left source.new)) }
    ensures suffix { IsSuffix (S.left source.new) (S.left source.old) }
    ensures never_falls { S.faults source.old ≤ S.faults source.new }
    ensures read_fault { result ≡ Err stops.ReadFault → Rose (S.faults source.old) (S.faults source.new) }
    ensures no_fault { result ≢ Err stops.ReadFault → S.faults source.new ≡ S.faults source.old }
{
    match read_all(alloc, source, MOST_BYTES) {
        Ok(bytes) => Ok(bytes),
        Err(ReadAll::Fault) => Err(Stop::ReadFault),
        Err(ReadAll::TooLong { .. }) => Err(Stop::Refused(Refusal::TooLong(TooLong {
            limit: MOST_BYTES,
        }))),
        Err(ReadAll::Memory) => Err(Stop::Memory),
    }
}

/// Why there is no diagram: the refusal of its text, or want of memory.
fn refused_text(fault: TextFault, counted: Counted) -> Stop
    ensures { result ≡ stop_of_text counted fault }
{
    match TextRefusal::of(fault, counted) {
        Some(refusal) => Stop::Refused(Refusal::Text(refusal)),
        None => Stop::Memory,
    }
}

/// The diagram that the bytes spell.
pub(crate) fn read_diagram(alloc: Global, bytes: &[u8]) -> Result<Diagram, Stop>
    ensures { Answers (IsPdOutcome bytes.now) (λ diagram. diagram) result }
{
    match read_pd(alloc, bytes) {
        Ok(diagram) => Ok(diagram),
        Err(fault) => Err(refused_text(fault, Counted::Items)),
    }
}

/// The net that the bytes spell.
pub(crate) fn read_net_input(alloc: Global, bytes: &[u8]) -> Result<NetDiagram, Stop>
    ensures { Answers (IsNetTextOutcome bytes.now) (λ net. net) result }
{
    match read_net(alloc, bytes) {
        Ok(net) => Ok(net),
        Err(fault) => Err(refused_text(fault, Counted::Items)),
    }
}

/// What a limit of a script's text counts, where it is past one.
fn counted_in(fault: &TextFault) -> Counted
    ensures { result ≡ counted_in fault.now }
{
    match fault {
        TextFault::TooMany { limit } if *limit == MOST_STEPS => Counted::Steps,
        _ => Counted::Items,
    }
}

/// The script that the bytes spell.
pub(crate) fn read_script_input(alloc: Global, bytes: &[u8]) -> Result<Script, Stop>
    ensures answer { Answers (IsScriptTextOutcome bytes.now) (λ script. script) result }
    ensures labels { IfOk result (λ script. greatest (labels item_labels script.diagram) ≤ 999999) }
    ensures steps { IfOk result (λ script. length script.steps ≤ MOST_STEPS) }
{
    match read_script(alloc, bytes) {
        Ok(script) => Ok(script),
        Err(fault) => {
            let counted = counted_in(&fault);
            Err(refused_text(fault, counted))
        }
    }
}
