ghost use Rattle.std.specs.Prelude.{◌<◌};

use super::*;
use std::alloc::Global;
use std::io::{self, ErrorKind, Read, Write};
use std::test::Fail;

const TEXT: &[u8] = b"PD[X[1,1,2,2]]";

/// Limits below, at and above the 14 bytes, what a reading gives, and how many bytes are left behind it.
const LIMITS: [(usize, Result<usize, ReadAll>, usize); 4] = [
    (0, Err(ReadAll::TooLong { limit: 0 }), 13),
    (13, Err(ReadAll::TooLong { limit: 13 }), 0),
    (14, Ok(14), 0),
    (usize::MAX - 1, Ok(14), 0),
];

/// A stream of the system that does nothing: a read fails, and a write takes no byte.
#[derive(Drop)]
struct Stuck;

impl Read for Stuck {
    fn read(&mut self, _buf: &mut [u8]) -> io::Result<usize> {
        Err(ErrorKind::Other.into())
    }
}

impl Write for Stuck {
    fn write(&mut self, _buf: &[u8]) -> io::Result<usize> {
        Ok(0)
    }

    fn flush(&mut self) -> io::Result<()> {
        Ok(())
    }
}

/// How many bytes a reading gives, or why it gives none.
fn length_read<S: Source>(alloc: Global, source: &mut S, limit: usize) -> Result<usize, ReadAll>
    requires { limit < usize.MAX }
{
    match read_all(alloc, source, limit) {
        Ok(bytes) => Ok(bytes.len()),
        Err(fault) => Err(fault),
    }
}

/// Whether a reading gives the text but for its first `taken` bytes.
fn gives_rest<S: Source>(alloc: Global, source: &mut S, taken: usize) -> bool {
    match (read_all(alloc, source, TEXT.len()), TEXT.get(taken..)) {
        (Ok(bytes), Some(rest)) => bytes.as_slice() == rest,
        _ => false,
    }
}

/// Whether a reading in pieces ends with a fault after some calls, and the next one begins where the fault was.
fn reads(alloc: Global, piece: usize, calls: usize) -> bool
    requires { 0 < piece }
{
    let failing = calls.saturating_add(1) as u64;
    let Ok(mut source) = MemorySource::new(alloc, TEXT, piece, &[failing]) else {
        return false;
    };
    length_read(alloc, &mut source, TEXT.len()) == Err(ReadAll::Fault)
        && source.faults() == 1
        && gives_rest(
            alloc,
            &mut source,
            calls.saturating_mul(piece).min(TEXT.len()),
        )
}

/// Whether a reading within a limit gives this, and a second one this number of bytes, with no fault.
fn reads_within(alloc: Global, limit: usize, answer: Result<usize, ReadAll>, left: usize) -> bool
    requires { limit < usize.MAX }
{
    let Ok(mut source) = MemorySource::new(alloc, TEXT, 8, &[]) else {
        return false;
    };
    length_read(alloc, &mut source, limit) == answer
        && length_read(alloc, &mut source, 14) == Ok(left)
        && source.faults() == 0
}

/// Whether the writing of the text into a sink ends with a fault behind `sent` bytes, and the sink holds these.
fn ends_behind(sink: &mut MemorySink, sent: usize) -> bool {
    write_all(sink, TEXT) == Err(Wrote::Fault { sent })
        && TEXT
            .get(..sent)
            .is_some_and(|wanted| sink.bytes() == wanted)
}

/// Whether a writing of the text but for its first `sent` bytes ends well, and the sink holds it whole.
fn takes_rest(sink: &mut MemorySink, sent: usize) -> bool {
    match TEXT.get(sent..) {
        Some(rest) => write_all(sink, rest) == Ok(()) && sink.bytes() == TEXT,
        None => false,
    }
}

/// Whether a writing in pieces ends with a fault after some calls, and the next one writes the rest.
fn writes(alloc: Global, piece: usize, calls: usize) -> bool
    requires { 0 < piece }
{
    let failing = calls.saturating_add(1) as u64;
    let Ok(mut sink) = MemorySink::new(alloc, TEXT.len(), piece, &[failing]) else {
        return false;
    };
    let sent = calls.saturating_mul(piece).min(TEXT.len());
    ends_behind(&mut sink, sent) && sink.faults() == 1 && takes_rest(&mut sink, sent)
}

/// Whether a sink with room for 10 bytes takes the first 10.
fn fills_its_room(alloc: Global) -> bool {
    match MemorySink::new(alloc, 10, 8, &[]) {
        Ok(mut sink) => ends_behind(&mut sink, 10),
        Err(_) => false,
    }
}

/// Whether a writer of the system takes the text.
fn takes_text(writer: impl Write + Drop) -> bool {
    write_all(&mut StdStream::new(writer), TEXT) == Ok(())
}

#[test]
fn streams(rt: HostRuntime) {
    for piece in [1, 3, 8] {
        for calls in 0..=TEXT.len().div_ceil(piece) {
            assert!(rt; reads(rt.alloc(), piece, calls), "call {calls} by {piece}");
        }
        for calls in 0..TEXT.len().div_ceil(piece) {
            assert!(rt; writes(rt.alloc(), piece, calls), "call {calls} by {piece}");
        }
    }
    for (limit, answer, left) in LIMITS {
        assert!(rt;
            reads_within(rt.alloc(), limit, answer, left),
            "limit {limit}"
        );
    }
    assert!(rt; fills_its_room(rt.alloc()));
}

/// The system's streams: a pipe.
#[test]
fn through_a_pipe(rt: HostRuntime) -> Result<(), Fail> {
    let (reader, writer) = io::pipe(&rt)?;
    assert!(rt; takes_text(writer));
    assert!(rt; gives_rest(rt.alloc(), &mut StdStream::new(reader), 0));
    Ok(())
}

/// The system's streams: one that does nothing.
#[test]
fn does_nothing(rt: HostRuntime) {
    let read = length_read(rt.alloc(), &mut StdStream::new(Stuck), 14);
    assert!(rt; read == Err(ReadAll::Fault));
    let written = write_all(&mut StdStream::new(Stuck), TEXT);
    assert!(rt; written == Err(Wrote::Fault { sent: 0 }));
}
