ghost use Rattle.std.specs.Prelude.{◌≡◌, ◌<◌, ◌≤◌, length, None, OnOk, OnErr, IfOk};
ghost use Rattle.std.specs.Io.KnownBytes.{ReadConsumes, WriteAppends};
ghost use Rattle.skein_io.specs.Faults.{one_more};

use crate::sink::Sink;
use crate::source::{Failed, Source};
use std::io::{Read, Write};

/// A source over a reader of the system, as its standard input, or a sink over a writer, as its standard output
/// or error. It doesn't tell its bytes, and no proof speaks of them: what the reader gives, and what the writer
/// does with them, is trusted.
#[derive(Drop)]
pub struct StdStream<T> {
    stream: T,
    faults: u64,
}

impl<T> StdStream<T> {
    /// A source or a sink over `stream`. Each error of the stream is a fault, an interrupted call too, and so is
    /// a write that takes nothing.
    pub fn new(stream: T) -> StdStream<T>
        ensures stream { result.stream ≡ stream }
        ensures faults { result.faults ≡ 0 }
    {
        StdStream { stream, faults: 0 }
    }

    /// Counts a fault.
    fn fail(&mut self) -> Failed
        ensures counted { self.new ≡ record self.old { faults = one_more self.old.faults } }
        ensures never_falls { self.old.faults ≤ self.new.faults }
    {
        self.faults = self.faults.saturating_add(1);
        Failed
    }
}

impl<R: Read> Source for StdStream<R> {
    ghost left = { λ _. None };

    ghost faults = { λ stream. stream.faults };

    fn read(&mut self, into: &mut [u8]) -> Result<usize, Failed>
        requires { 0 < length into.old }
        ensures within { IfOk result (λ count. count ≤ length into.old) }
        // What the reader gave is handed on. Only a reader in memory says what that is.
        ensures bytes { ReadConsumes (R.remaining self.old.stream) (R.remaining self.new.stream)
            result into.new }
        ensures no_fault { OnOk result (self.new.faults ≡ self.old.faults) }
        ensures fault { OnErr result (self.new.faults ≡ one_more self.old.faults) }
        ensures never_falls { self.old.faults ≤ self.new.faults }
    {
        let Ok(count) = self.stream.read(into) else {
            return Err(self.fail());
        };
        Ok(count)
    }
}

impl<W: Write> Sink for StdStream<W> {
    ghost taken = { λ _. None };

    ghost faults = { λ stream. stream.faults };

    fn write(&mut self, piece: &[u8]) -> Result<usize, Failed>
        requires { 0 < length piece.now }
        ensures some { IfOk result (λ count. 0 < count) }
        ensures within { IfOk result (λ count. count ≤ length piece.now) }
        // The piece is handed on to the writer. Only a writer in memory says what it holds.
        ensures bytes { WriteAppends (W.contents self.old.stream) (W.contents self.new.stream)
            result piece.now }
        ensures no_fault { OnOk result (self.new.faults ≡ self.old.faults) }
        ensures fault { OnErr result (self.new.faults ≡ one_more self.old.faults) }
        ensures never_falls { self.old.faults ≤ self.new.faults }
    {
        match self.stream.write(piece) {
            Ok(count) if count > 0 => Ok(count),
            Ok(_) | Err(_) => Err(self.fail()),
        }
    }
}
