//! The texts of braids.

ghost use Rattle.std.specs.Prelude.{◌≡◌, ◌≤◌, length, IfOk, IfErr, List, ℤ};
ghost use Rattle.std.specs.List.{AllByRecursion};
ghost use Rattle.text_shapes.specs.Readers.{Accepts, Found, LeadsTo, Missed};
ghost use Rattle.pd_reader.specs.Answers.{Answers, IsRefusal};
ghost use Rattle.pd_reader.specs.Faults.{IsNamed};
ghost use Rattle.pd_reader.specs.Signed.{IsSigned};
ghost use Rattle.pd_reader.specs.Stops.{MissesAt, StopsAt};
ghost use Rattle.braid_trace.specs.Braids.{BraidWord, IsTextBraid, braid_tokens, entries_tokens, IsBraidText, refusal};
ghost use Rattle.braid_trace.specs.Faults.{cause, IsBraidRefusal};

use crate::braid::Braid;
use crate::fault::BraidFault;
use pd_reader::{Stop, finish, mark, place_at, read_inside, read_number, word};
use std::alloc::Global;

/// Reads `BR[n`, and says where it ends, or how far the bytes go on as a text.
fn read_strands(bytes: &[u8]) -> Result<(u32, usize), usize>
    ensures ok { IfOk result (λ found. LeadsTo IsTextBraid braid_tokens (AllByRecursion IsSigned) entries_tokens
        (λ entries. record { strands = found.0; word = entries }) bytes.now 0 found.1) }
    ensures err { IfErr result (λ p. Missed IsTextBraid braid_tokens bytes.now 0 p) }
{
    let head = word(bytes, 0, b"BR")?;
    let opened = mark(bytes, head, b'[')?;
    let (strands, next) = read_number(bytes, opened)?;
    Ok((strands, next))
}

/// Reads `,{e,..,e}]`, and says where it ends, or how far the bytes go on as that.
fn read_entries(alloc: Global, bytes: &[u8], at: usize) -> Result<(Vec<i32>, usize), Stop>
    requires { at ≤ length bytes.now }
    ensures ok { IfOk result (λ found. Found (AllByRecursion IsSigned) entries_tokens bytes.now at found.0.items found.1) }
    ensures err { IfErr result (λ stop. MissesAt (AllByRecursion IsSigned) entries_tokens bytes.now at stop) }
{
    let comma = mark(bytes, at, b',')?;
    let opened = mark(bytes, comma, b'{')?;
    let (entries, closed) = read_inside(alloc, bytes, opened, b'}')?;
    let next = mark(bytes, closed, b']')?;
    Ok((entries, next))
}

/// Reads a text that is all the bytes.
fn read_text(alloc: Global, bytes: &[u8]) -> Result<(u32, Vec<i32>), Stop>
    ensures ok { IfOk result (λ found. Accepts IsTextBraid braid_tokens bytes.now (record { strands = found.0; word = found.1.items })) }
    ensures err { IfErr result (λ stop. StopsAt IsTextBraid braid_tokens bytes.now stop) }
{
    let (strands, at) = read_strands(bytes)?;
    let (entries, end) = read_entries(alloc, bytes, at)?;
    finish(bytes, end)?;
    Ok((strands, entries))
}

/// The braid that the bytes spell: `BR[n,{e,..,e}]`, n strands and any number of entries, which are numbers with
/// or without a `-` before them (KnotTheory's). A number is one to six decimal digits, the first not 0. White
/// space may stand anywhere but inside a token, also behind a `-`.
///
/// Where the bytes are no such text, let p be the length of their longest beginning that also begins one.
/// The refusal stands at byte p, from 0: `Head` where a letter stands there, `Number` where a digit does,
/// and `Text` where another byte does or the input ends. Then `Strands` comes past 6 strands and holds their
/// number, `TooMany` past 250 entries and holds 250, and `Entry` holds the first entry, from 1, whose size is
/// at least the number of strands, and that number: 1 and 2 for `BR[2,{2}]`. `Memory` is want of memory.
pub fn read_braid(alloc: Global, bytes: &[u8]) -> Result<Braid, BraidFault>
    // What is read is what the text spells.
    ensures read { IfOk result (λ braid. IsBraidText bytes.now braid) }
    // A text is read, or its braid is refused for the first reason against it, or memory runs out.
    ensures text { (braid : BraidWord) → IsBraidText bytes.now braid → Answers cause (refusal braid) braid result }
    // A refusal that names a place stands where the bytes stop being the beginning of a text, and any
    // other but want of memory is of a text's braid.
    ensures refused { IfErr result (λ fault. IsBraidRefusal bytes.now fault) }
    // It is named by the byte there.
    ensures named { IfErr result (λ fault. IsNamed bytes.now (cause fault)) }
{
    match read_text(alloc, bytes) {
        Ok((strands, entries)) => Braid::new(strands, entries),
        Err(Stop::At(at)) => Err(BraidFault::from(place_at(bytes, at))),
        Err(Stop::Memory) => Err(BraidFault::Memory),
    }
}
