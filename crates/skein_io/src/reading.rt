ghost use Rattle.std.specs.Prelude.{◌≡◌, ◌≢◌, ◌<◌, ◌≤◌, ◌+◌, ℕ, [], length, IfOk, IfSome, OnOk, OnErr};
ghost use Rattle.skein_io.specs.Faults.{Rose};
ghost use Rattle.skein_io.specs.Source.{Takes, TakesExactly, TakesAtMost, IsSuffix};
ghost use Rattle.skein_io.specs.declared.reading.ReadAll.TheVariants.{Memory, Fault};

use crate::source::{Failed, Source};
use std::alloc::{AllocError, AllocFailed, Global};

/// Why `read_all` didn't come to the end of its source.
#[derive(Clone, Copy, Debug, PartialEq, Eq)]
pub enum ReadAll {
    /// A read failed.
    Fault,
    /// The source holds more than `limit` bytes.
    TooLong { limit: usize },
    /// There was no memory for the bytes.
    Memory,
}

impl From<Failed> for ReadAll {
    ghost from_gives = { λ _ error. error ≡ Fault };

    fn from(_failed: Failed) -> ReadAll {
        ReadAll::Fault
    }
}

impl From<AllocError> for ReadAll {
    ghost from_gives = { λ _ error. error ≡ Memory };

    fn from(_refused: AllocError) -> ReadAll {
        ReadAll::Memory
    }
}

impl<T: Drop> From<AllocFailed<T>> for ReadAll {
    ghost from_gives = { λ _ error. error ≡ Memory };

    fn from(_refused: AllocFailed<T>) -> ReadAll {
        ReadAll::Memory
    }
}

/// How many bytes one read asks for at most.
const PIECE: usize = 4096;

/// Reads `source` to its end, and gives all that was left in it, at most `limit` bytes. `limit` is
/// below `usize::MAX`.
///
/// `Fault` comes where a read failed, which isn't tried again. `TooLong` comes where more than
/// `limit` bytes were taken: `limit + 1` of them, and the rest is left. `Memory` is want of memory.
/// After `Fault` and `Memory` at most `limit` bytes were taken.
pub fn read_all<S: Source>(alloc: Global, source: &mut S, limit: usize) -> Result<Vec<u8>, ReadAll>
    requires { limit < usize.MAX }

    // What is read is what was taken: all that was left, and nothing is left behind it.
    ensures taken { IfOk result (λ bytes. Takes (S.left source.old) bytes.items (S.left source.new)) }
    ensures all { IfOk result (λ bytes. IfSome (S.left source.old) (λ left. bytes.items ≡ left)) }
    ensures none_left { OnOk result (IfSome (S.left source.new) (λ left. left ≡ [])) }
    ensures within { IfOk result (λ bytes. length bytes.items ≤ limit) }
    ensures no_fault { OnOk result (S.faults source.new ≡ S.faults source.old) }

    // The other answers leave a suffix.
    ensures suffix { OnErr result (IsSuffix (S.left source.new) (S.left source.old)) }

    // A fault is a fault of the source, in this call.
    ensures fault { result ≡ Err ReadAll.Fault → Rose (S.faults source.old) (S.faults source.new) }
    ensures fault_takes { result ≡ Err ReadAll.Fault
        → TakesAtMost limit (S.left source.old) (S.left source.new) }

    // Too long is what has more than `limit` bytes.
    ensures too_long_limit { (given : ℕ) → result ≡ Err (ReadAll.TooLong given) → given ≡ limit }
    ensures too_long_takes { (given : ℕ) → result ≡ Err (ReadAll.TooLong given)
        → TakesExactly (limit + 1) (S.left source.old) (S.left source.new) }
    ensures too_long_no_fault { (given : ℕ) → result ≡ Err (ReadAll.TooLong given)
        → S.faults source.new ≡ S.faults source.old }
    ensures too_long { IfSome (S.left source.old) (λ left.
        result ≡ Err (ReadAll.TooLong limit) → limit < length left) }
    ensures long { IfSome (S.left source.old) (λ left. limit < length left
        → result ≢ Err ReadAll.Fault → result ≢ Err ReadAll.Memory
        → result ≡ Err (ReadAll.TooLong limit)) }

    ensures memory_takes { result ≡ Err ReadAll.Memory
        → TakesAtMost limit (S.left source.old) (S.left source.new) }
    ensures memory_no_fault { result ≡ Err ReadAll.Memory
        → S.faults source.new ≡ S.faults source.old }

    ensures never_falls { S.faults source.old ≤ S.faults source.new }
{
    let mut all = Vec::new(alloc);
    let mut buffer = [0; PIECE];
    loop {
        let asked = PIECE.min(limit - all.len() + 1);
        let piece = &mut buffer[..asked];
        let count = source.read(piece)?;
        if count == 0 {
            return Ok(all);
        }
        if limit - all.len() < count {
            return Err(ReadAll::TooLong { limit });
        }
        all.extend_from_slice(&piece[..count])?;
    }
}
