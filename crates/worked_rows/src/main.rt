//! Runs each row of the transcript on standard input, and tells the rows that don't answer as written.
#![tactic(auto)]

#[cfg(test)]
mod closure_tests;
mod row;
#[cfg(test)]
mod tests;
#[cfg(test)]
mod worker_tests;

use colour_share::NoGate;
use row::Row;
use skein_io::{MemorySink, MemorySource};
use std::alloc::{AllocError, Global};
use std::io;
use std::process::ExitCode;
use std::thread::Threads;
use wrt_commands::run;

/// What came of a run: the exit status, and what stands on the two outputs.
#[derive(Debug, Drop)]
struct Answer {
    code: u8,
    report: Vec<u8>,
    fault: Vec<u8>,
}

impl Answer {
    /// Whether this is what the row wants.
    fn is_as_written(&self, row: &Row) -> bool {
        self.code == row.code
            && self.report.as_slice() == row.report.as_bytes()
            && self.fault.as_slice() == row.fault.as_bytes()
    }
}

/// Runs the row on streams in memory: each read gives a byte or eight, each write takes one of the report or three of a fault line.
fn run_row(
    alloc: Global,
    threads: &(impl Threads + Sync),
    row: &Row,
) -> Result<Answer, AllocError> {
    let words: Vec<&str> = row.words.iter().map(|word| word.as_str()).collect(alloc)?;
    let piece = if row.is_bytewise { 1 } else { 8 };
    let mut source = MemorySource::new(alloc, row.input.as_bytes(), piece, &[row.failing.read])?;
    let mut out = MemorySink::new(alloc, 65_536, 1, &[row.failing.report])?;
    let mut err = MemorySink::new(alloc, 65_536, 3, &[row.failing.fault])?;
    let status = run(
        threads,
        alloc,
        &words,
        &mut source,
        &mut out,
        &mut err,
        &NoGate,
    );
    Ok(Answer {
        code: status.code(),
        report: Vec::from_slice(alloc, out.bytes())?,
        fault: Vec::from_slice(alloc, err.bytes())?,
    })
}

/// The rows of the transcript on standard input.
fn read_rows(rt: &HostRuntime) -> io::Result<Vec<Row>> {
    let mut rows: Vec<Row> = Vec::new(rt.alloc());
    for line in rt.lines(rt.alloc()) {
        let line = line?;
        if let Some(command) = line.strip_prefix("$ ") {
            rows.push(Row::new(rt.alloc(), command)?)?;
        } else if let Some(row) = rows.last_mut() {
            row.add(&line)?;
        }
    }
    Ok(rows)
}

/// Runs the row, and tells it where it answers otherwise than written; whether it answers as written.
fn check_row(rt: &HostRuntime, threads: &(impl Threads + Sync), row: &Row) -> io::Result<bool> {
    let answer = run_row(rt.alloc(), threads, row)?;
    let agrees = answer.is_as_written(row);
    if !agrees {
        let report = String::from_utf8_lossy(rt.alloc(), &answer.report)?;
        let fault = String::from_utf8_lossy(rt.alloc(), &answer.fault)?;
        println!(rt; "{:?} = {}\n{report}{fault}", row.words, answer.code)?;
    }
    Ok(agrees)
}

/// Prints how many rows there are, each of which answers as written; else ends with status 1.
fn main(rt: HostRuntime) -> io::Result<ExitCode> {
    let rows = read_rows(&rt)?;
    let mut all_agree = true;
    for row in &rows {
        let agrees = check_row(&rt, &rt, row)?;
        all_agree &= agrees;
    }
    if !all_agree {
        return Ok(ExitCode::FAILURE);
    }
    println!(rt; "{} rows, each as written", rows.len())?;
    Ok(ExitCode::SUCCESS)
}
