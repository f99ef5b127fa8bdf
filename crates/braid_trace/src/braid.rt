//! Braids as words in the crossings of neighbouring strands.

ghost use Rattle.std.specs.Prelude.{◌≡◌, ◌+◌, ◌<◌, ◌≤◌, length, ℤ, List, None, Some, IfOk, IfErr, option_map};
ghost use Rattle.std.specs.List.{AllByRecursion};
ghost use Rattle.pd_reader.specs.Signed.{IsSigned};
ghost use Rattle.braid_trace.specs.Braids.{BraidWord, IsTextBraid, IsBraid, first_wide, refusal};

use crate::fault::BraidFault;
use std::marker::Model;

/// The most strands of a braid.
pub const MOST_STRANDS: u32 = 6;

/// The most entries of a braid.
pub const MOST_ENTRIES: u32 = 250;

/// A braid of at most 6 strands, numbered from 1 on from the left, as a word of at most 250 entries. The entry i
/// or -i crosses the strands at i and i+1, positively or negatively (KnotTheory's `BR`).
///
/// Contracts see a braid as its strands and its word. `IsBraid` says what these keep.
#[derive(Drop, Debug)]
pub struct Braid {
    strands: u32,
    word: Vec<i32>,
}

impl Model for Braid {
    ghost use Rattle.braid_trace.specs.Braids.{BraidWord, IsBraid};

    ghost Value = { BraidWord };

    ghost view = { λ braid. record { strands = braid.strands; word = braid.word.items } };

    ghost invariant = { λ braid. IsBraid (record { strands = braid.strands; word = braid.word.items }) };
}

/// The first entry, from 1, whose size is at least the number of strands.
fn first_wide(strands: u32, word: &[i32]) -> Option<u32>
    requires { length word.now ≤ MOST_ENTRIES }
    ensures { result ≡ first_wide strands word.now }
{
    for i in 0..word.len() {
        if word[i].unsigned_abs() >= strands {
            return Some(i as u32 + 1);
        }
    }
    None
}

impl Braid {
    /// The braid of a text, or the first reason against it.
    pub(crate) fn new(strands: u32, word: Vec<i32>) -> Result<Braid, BraidFault>
        requires { IsTextBraid (record { strands = strands; word = word.items }) }
        ensures ok { IfOk result (λ braid. (braid ≡ record { strands = strands; word = word.items })
            × (refusal (record { strands = strands; word = word.items }) ≡ None)) }
        ensures err { IfErr result (λ fault. refusal (record { strands = strands; word = word.items }) ≡ Some fault) }
    {
        if strands > MOST_STRANDS {
            return Err(BraidFault::Strands { given: strands });
        }
        if word.len() > MOST_ENTRIES as usize {
            return Err(BraidFault::TooMany {
                limit: MOST_ENTRIES,
            });
        }
        match first_wide(strands, &word) {
            Some(at) => Err(BraidFault::Entry { at, strands }),
            None => Ok(Braid { strands, word }),
        }
    }

    /// The number of strands.
    pub fn strands(&self) -> u32
        ensures { result ≡ self.now.strands }
    {
        self.strands
    }

    /// The entries, from the first crossing on.
    pub fn word(&self) -> &[i32]
        ensures word { result.now ≡ self.now.word }
        ensures braid { IsBraid self.now }
    {
        &self.word
    }
}
