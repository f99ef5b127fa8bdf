//! The top call.

ghost use Rattle.std.specs.Prelude.{◌≡◌, ◌≢◌, ◌⊎◌, ◌≤◌, ℕ, List, Some, Ok, Err, IfOk, OnOk, MatchResult, true, false, map, string_bytes};
ghost use Rattle.skein_io.specs.Faults.{Rose};
ghost use Rattle.skein_io.specs.Source.{IsSuffix};
ghost use Rattle.wrt_request.specs.Requests.{IsInRange};
ghost use Rattle.wrt_words.specs.Words.{command_line, takes_line};
ghost use Rattle.wrt_commands.specs.Openings.{opening, reads_input};
ghost use Rattle.wrt_commands.specs.Outcomes.{Outcome, IsOutcome, IsOutcomeAt};
ghost use Rattle.wrt_commands.specs.Runs.{IsAtEnd, IsTold, IsStopped, IsStoppedAt, RunsTo, Says, Settles, written};
ghost use Rattle.wrt_commands.specs.Stops.{status_of_stop, stop_line};
ghost use Rattle.wrt_commands.specs.declared.refusal.Refusal.TheVariants as refusals;
ghost use Rattle.wrt_commands.specs.declared.stop.Stop.TheVariants as stops;
ghost use Rattle.wrt_commands.specs.declared.words_refusal.WordsRefusal.TheVariants as words_refusals;

use crate::bracket::bracket_report;
use crate::braid::closed_braid_report;
use crate::colored::colored_report;
use crate::input::read_input;
use crate::moves::script_report;
use crate::net::coloured_net_report;
use crate::opening::{Opened, open_words};
use crate::status::Status;
use crate::stop::Stop;
use crate::tetrahedra::tetrahedra_report;
use crate::torus::torus_report;
use crate::wrt::wrt_report;
use colour_share::Gate;
use skein_io::{Sink, Source, Wrote, write_all};
use std::alloc::{AllocError, Global};
use std::thread::Threads;
use wrt_request::Task;

/// The report of what is asked for, of the input that the source gives or of a diagram of its own.
fn task_report<R: Threads + Sync, S: Source, G: Gate + Sync>(
    rt: &R,
    alloc: Global,
    opened: &Opened,
    source: &mut S,
    gate: &G,
) -> Result<String, Stop>
    requires { IsInRange opened.now.task }
    ensures answer { (bytes : List ℕ) × IsTold (S.left source.old) bytes × MatchResult result (λ report. IsOutcomeAt (Ok opened.now) bytes (Ok (string_bytes report)))
        (IsStoppedAt (Ok opened.now) bytes) }
    ensures end { OnOk result (reads_input (Ok opened.now) ≡ true → IsAtEnd (S.left source.old) (S.left source.new)) }
    ensures suffix { IsSuffix (S.left source.new) (S.left source.old) }
    ensures never_falls { S.faults source.old ≤ S.faults source.new }
    ensures read_fault { result ≡ Err stops.ReadFault → Rose (S.faults source.old) (S.faults source.new) }
    ensures no_fault { result ≢ Err stops.ReadFault → S.faults source.new ≡ S.faults source.old }
    ensures unread { reads_input (Ok opened.now) ≡ false → (S.left source.new ≡ S.left source.old) × (S.faults source.new ≡ S.faults source.old) }
{
    match &opened.task {
        Task::Bracket { sweep } => {
            let bytes = read_input(alloc, source)?;
            bracket_report(alloc, &opened.params, sweep, &bytes)
        }
        Task::Colored { colours, sweep } => {
            let bytes = read_input(alloc, source)?;
            colored_report(alloc, &opened.params, colours.members(), sweep, &bytes)
        }
        Task::Net { colours, sweep } => {
            let bytes = read_input(alloc, source)?;
            coloured_net_report(alloc, &opened.params, colours.members(), sweep, &bytes)
        }
        Task::Torus { crossings, sweep } => torus_report(alloc, &opened.params, *crossings, sweep),
        Task::Wrt {
            framings,
            workers,
            sweep,
            ..
        } => {
            let bytes = read_input(alloc, source)?;
            wrt_report(
                rt,
                alloc,
                &opened.params,
                framings,
                *workers,
                sweep,
                &bytes,
                gate,
            )
        }
        Task::Moves { values } => {
            let bytes = read_input(alloc, source)?;
            script_report(rt, alloc, &opened.params, values, &bytes, gate)
        }
        Task::Braid => {
            let bytes = read_input(alloc, source)?;
            closed_braid_report(alloc, &opened.params, &bytes)
        }
        Task::Tetrahedra => {
            let bytes = read_input(alloc, source)?;
            tetrahedra_report(alloc, &opened.params, &bytes)
        }
    }
}

/// The report of what the words ask for.
fn report<R: Threads + Sync, S: Source, G: Gate + Sync>(
    rt: &R,
    alloc: Global,
    words: &[&str],
    source: &mut S,
    gate: &G,
) -> Result<String, Stop>
    ensures answer { (bytes : List ℕ) × IsTold (S.left source.old) bytes × MatchResult result (λ report. IsOutcome (map (λ s. s.now) words.now) bytes (Ok (string_bytes report)))
        (IsStopped (map (λ s. s.now) words.now) bytes) }
    ensures taken { takes_line (command_line (map (λ s. s.now) words.now)) ≡ true → result ≢ Err (stops.Refused (refusals.Words words_refusals.NoCommandLine)) }
    ensures end { OnOk result (reads_input (opening (map (λ s. s.now) words.now)) ≡ true → IsAtEnd (S.left source.old) (S.left source.new)) }
    ensures suffix { IsSuffix (S.left source.new) (S.left source.old) }
    ensures never_falls { S.faults source.old ≤ S.faults source.new }
    ensures read_fault { result ≡ Err stops.ReadFault → Rose (S.faults source.old) (S.faults source.new) }
    ensures no_fault { result ≢ Err stops.ReadFault → S.faults source.new ≡ S.faults source.old }
    ensures unread { reads_input (opening (map (λ s. s.now) words.now)) ≡ false → (S.left source.new ≡ S.left source.old) × (S.faults source.new ≡ S.faults source.old) }
{
    let opened = open_words(alloc, words)?;
    task_report(rt, alloc, &opened, source, gate)
}

/// The fault line of the stop.
fn stop_line(alloc: Global, stop: &Stop) -> Result<String, AllocError>
    ensures { IfOk result (λ line. string_bytes line ≡ stop_line stop.now) }
{
    format!(in alloc; "wrtcalc: {stop}\n")
}

/// Writes the line to `err`. A fault of `err` changes nothing else.
fn say<E: Sink>(err: &mut E, line: &[u8])
    ensures never_falls { E.faults err.old ≤ E.faults err.new }
    ensures says { Says (written (E.taken err.old) (E.taken err.new) (E.faults err.old) (E.faults err.new)) line.now }
{
    let _ = write_all(err, line);
}

/// Writes the fault line of the stop, and gives the status with which the run ends: that of the
/// stop, or want of memory where there is none for the line.
fn tell<E: Sink>(alloc: Global, err: &mut E, stop: &Stop) -> Status
    ensures never_falls { E.faults err.old ≤ E.faults err.new }
    ensures says { ((result ≡ status_of_stop stop.now)
        × Says (written (E.taken err.old) (E.taken err.new) (E.faults err.old) (E.faults err.new)) (stop_line stop.now))
        ⊎ ((result ≡ Status.Memory)
        × Says (written (E.taken err.old) (E.taken err.new) (E.faults err.old) (E.faults err.new)) (stop_line stops.Memory)) }
{
    match stop_line(alloc, stop) {
        Ok(line) => {
            say(err, line.as_bytes());
            stop.status()
        }
        Err(_) => {
            say(err, b"wrtcalc: out of memory\n");
            Status::Memory
        }
    }
}

/// Does what the words after the program's name ask for: reads `source`, writes the report to `out` in
/// one piece after everything was computed, or a fault line to `err`, and gives the status.
///
/// The workers of a surgery value are threads of `rt`, and pass `gate` before each colouring; neither changes what is written.
pub fn run<R: Threads + Sync, S: Source, K: Sink, E: Sink, G: Gate + Sync>(
    rt: &R,
    alloc: Global,
    words: &[&str],
    source: &mut S,
    out: &mut K,
    err: &mut E,
    gate: &G,
) -> Status
    // The status, and what stands on `out` and `err`, are those of the outcome of the words and of the bytes that
    // the source tells, or of some bytes where it tells none; and the outcome of these settles the status, but for
    // want of memory and faults of the streams.
    ensures outcome { (bytes : List ℕ) × IsTold (S.left source.old) bytes
        × RunsTo (map (λ s. s.now) words.now) bytes result
        (written (K.taken out.old) (K.taken out.new) (K.faults out.old) (K.faults out.new))
        (written (E.taken err.old) (E.taken err.new) (E.faults err.old) (E.faults err.new))
        × ((outcome : Outcome) → IsOutcome (map (λ s. s.now) words.now) bytes outcome → Settles (opening (map (λ s. s.now) words.now)) outcome result) }

    // Where `clap` takes the words by its definition, they aren't refused as no command line, but for want of memory.
    ensures taken { takes_line (command_line (map (λ s. s.now) words.now)) ≡ true → result ≢ Status.Memory
        → opening (map (λ s. s.now) words.now) ≢ Err (refusals.Words words_refusals.NoCommandLine) }

    // At `Done` an input that is read was read to its end; at every status what is left is the end of what was left.
    ensures end { result ≡ Status.Done → reads_input (opening (map (λ s. s.now) words.now)) ≡ true → IsAtEnd (S.left source.old) (S.left source.new) }
    ensures suffix { IsSuffix (S.left source.new) (S.left source.old) }

    // No count of faults falls.
    ensures never_falls { (S.faults source.old ≤ S.faults source.new) × (K.faults out.old ≤ K.faults out.new) × (E.faults err.old ≤ E.faults err.new) }

    // A read fault is a fault of the source, in this call; without one, and with memory, its count stays.
    ensures read_fault { result ≡ Status.ReadFault → Rose (S.faults source.old) (S.faults source.new) }
    ensures no_fault { result ≢ Status.ReadFault → result ≢ Status.Memory → S.faults source.new ≡ S.faults source.old }

    // Where the words are refused, and for a torus link, the source isn't read.
    ensures unread { reads_input (opening (map (λ s. s.now) words.now)) ≡ false
        → (S.left source.new ≡ S.left source.old) × (S.faults source.new ≡ S.faults source.old) }

    // Where the source tells its bytes, or isn't read, the outcome is a report and no stream failed, the report is
    // written, or memory was wanting.
    ensures complete { (bytes report : List ℕ) → (reads_input (opening (map (λ s. s.now) words.now)) ≡ true → S.left source.old ≡ Some bytes)
        → IsOutcome (map (λ s. s.now) words.now) bytes (Ok report)
        → ¬ Rose (S.faults source.old) (S.faults source.new) → ¬ Rose (K.faults out.old) (K.faults out.new)
        → (result ≡ Status.Done) ⊎ (result ≡ Status.Memory) }
{
    match report(rt, alloc, words, source, gate) {
        Ok(report) => match write_all(out, report.as_bytes()) {
            Ok(()) => Status::Done,
            Err(Wrote::Fault { .. }) => {
                say(err, b"wrtcalc: write failed\n");
                Status::WriteFault
            }
        },
        Err(stop) => tell(alloc, err, &stop),
    }
}
