//! wrtcalc: skein invariants of planar diagrams, from standard input to standard output.
#![tactic(auto)]

use colour_share::NoGate;
use skein_io::StdStream;
use std::alloc::AllocError;
use std::process::ExitCode;
use std::thread::Threads;
use std::{env, io};
use wrt_commands::{Refusal, Status, Stop, WordsRefusal, run};

/// Hands the words after the program's name and the standard streams to `run`, whose workers are threads of `threads`.
fn calculate(rt: &HostRuntime, threads: &(impl Threads + Sync)) -> io::Result<Status> {
    let words: Vec<String> = env::args(rt)?.skip(1).collect(rt.alloc())?;
    let words: Vec<&str> = words.iter().map(|word| word.as_str()).collect(rt.alloc())?;
    let mut source = StdStream::new(rt.stdin());
    let mut out = StdStream::new(rt.stdout());
    let mut err = StdStream::new(rt.stderr());
    Ok(run(
        threads,
        rt.alloc(),
        &words,
        &mut source,
        &mut out,
        &mut err,
        &NoGate,
    ))
}

/// Ends with the code of the run's status. Words that aren't UTF-8 are refused words, and where there is no memory
/// for the words the status is want of memory.
fn main(rt: HostRuntime) -> ExitCode {
    let stop = match calculate(&rt, &rt) {
        Ok(status) => return ExitCode::from(status.code()),
        Err(error) if error.kind() == io::ErrorKind::OutOfMemory => Stop::Memory,
        Err(_) => Stop::Refused(Refusal::Words(WordsRefusal::NoCommandLine)),
    };
    let _ = eprintln!(rt; "wrtcalc: {stop}");
    ExitCode::from(stop.status().code())
}
