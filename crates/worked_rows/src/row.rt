//! A row of a transcript: a command line, what it is run on and what has to come of it.

use std::alloc::{AllocError, Global};
use std::io;

/// What is written of one run.
#[derive(Debug, Drop)]
pub struct Row {
    /// The words after the program's name.
    pub words: Vec<String>,
    /// Standard input.
    pub input: String,
    /// Whether a line of input was written.
    has_input: bool,
    /// Whether a read gives one byte; else it gives eight.
    pub is_bytewise: bool,
    /// The call that fails of each stream.
    pub failing: Failing,
    /// What has to stand on standard output.
    pub report: String,
    /// What has to stand on standard error.
    pub fault: String,
    /// The exit status that is wanted.
    pub code: u8,
}

/// Numbers of calls, from 1, or 0 for none.
#[derive(Debug, Clone, Copy, Drop)]
pub struct Failing {
    /// The read of the input.
    pub read: u64,
    /// The write of the report.
    pub report: u64,
    /// The write of the fault line.
    pub fault: u64,
}

/// Why a line is none of a row.
#[derive(Debug, Drop)]
pub enum RowFault {
    /// It begins with no mark of a row, or its number can't be read.
    Line,
    /// There was no memory for it.
    Memory,
}

impl From<AllocError> for RowFault {
    fn from(_error: AllocError) -> RowFault {
        RowFault::Memory
    }
}

impl From<RowFault> for io::Error {
    fn from(fault: RowFault) -> io::Error {
        match fault {
            RowFault::Line => io::Error::from(io::ErrorKind::InvalidData),
            RowFault::Memory => io::Error::from(io::ErrorKind::OutOfMemory),
        }
    }
}

impl Row {
    /// The row of a command line, whose words stand between single spaces; `''` is the empty word. Nothing is on standard
    /// input, no call fails, and nothing is wanted on the outputs.
    pub fn new(alloc: Global, command: &str) -> Result<Row, AllocError> {
        let mut words = Vec::new(alloc);
        for word in command.split(' ') {
            words.push(String::from_str(alloc, if word == "''" { "" } else { word })?)?;
        }
        Ok(Row {
            words,
            input: String::new(alloc),
            has_input: false,
            is_bytewise: false,
            failing: Failing {
                read: 0,
                report: 0,
                fault: 0,
            },
            report: String::new(alloc),
            fault: String::new(alloc),
            code: 0,
        })
    }

    /// Takes one more line of the row: a mark, a space, and what the mark says of it (README.md). An empty line and one with
    /// the mark `#` say nothing.
    pub fn add(&mut self, line: &str) -> Result<(), RowFault> {
        let (mark, rest) = line.split_once(' ').unwrap_or((line, ""));
        match mark {
            "<" => self.add_input(rest)?,
            "<*" => self.repeat_input(rest)?,
            ">" => add_line(&mut self.report, rest)?,
            ">-" => self.report.push_str(rest)?,
            "!" => add_line(&mut self.fault, rest)?,
            "!-" => self.fault.push_str(rest)?,
            "x" => self.add_failing(rest)?,
            "1" => self.is_bytewise = true,
            "=" => self.code = rest.parse().ok().ok_or(RowFault::Line)?,
            "#" | "" => {}
            _ => return Err(RowFault::Line),
        }
        Ok(())
    }

    /// Puts a line of input behind those that are there.
    fn add_input(&mut self, line: &str) -> Result<(), AllocError> {
        if self.has_input {
            self.input.push('\n')?;
        }
        self.has_input = true;
        self.input.push_str(line)
    }

    /// Puts a text so many times behind the last line of input: `3 ab` puts `ababab`.
    fn repeat_input(&mut self, repeated: &str) -> Result<(), RowFault> {
        let (count, text) = repeated.split_once(' ').ok_or(RowFault::Line)?;
        let count: u32 = count.parse().ok().ok_or(RowFault::Line)?;
        for _ in 0..count {
            self.input.push_str(text)?;
        }
        Ok(())
    }

    /// Sets the call that fails of a stream: `read 3`, `report 3` or `fault 3`.
    fn add_failing(&mut self, call: &str) -> Result<(), RowFault> {
        let (stream, number) = call.split_once(' ').ok_or(RowFault::Line)?;
        let number = number.parse().ok().ok_or(RowFault::Line)?;
        match stream {
            "read" => self.failing.read = number,
            "report" => self.failing.report = number,
            "fault" => self.failing.fault = number,
            _ => return Err(RowFault::Line),
        }
        Ok(())
    }
}

/// Puts a line and its end behind a text.
fn add_line(text: &mut String, line: &str) -> Result<(), AllocError> {
    text.push_str(line)?;
    text.push('\n')
}
