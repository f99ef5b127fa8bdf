ghost use Rattle.std.specs.Prelude.{◌≡◌, ◌<◌, ◌≤◌, ◌↔◌, ℕ, [], length, take, drop, min, Some, IfOk, IsErr, OnErr};
ghost use Rattle.skein_io.specs.Faults.{one_more};
ghost use Rattle.skein_io.specs.Memory.{SourceInMemory, IsListed};

use crate::calls::Calls;
use crate::source::{Failed, Source};
use std::alloc::{AllocError, Global};
use std::marker::Model;

/// A source over bytes in memory, which tells them. It gives them in pieces, and fails on the calls
/// that it was told.
#[derive(Drop)]
pub struct MemorySource {
    bytes: Vec<u8>,
    at: usize,
    piece: usize,
    calls: Calls,
}

impl Model for MemorySource {
    ghost Value = { SourceInMemory };

    ghost view = { λ source. record {
      left = drop source.at source.bytes.items;
      piece = source.piece;
      fails = source.calls.fails.items;
      calls = source.calls.made;
      faults = source.calls.faults;
    } };

    ghost invariant = { λ source. (source.at ≤ length source.bytes.items) × (0 < source.piece) };
}

impl MemorySource {
    /// A source of `bytes`. Each call gives at most `piece` of them, which is at least 1. The calls
    /// whose numbers stand in `fails`, counted from 1, fail.
    pub fn new(
        alloc: Global,
        bytes: &[u8],
        piece: usize,
        fails: &[u64],
    ) -> Result<MemorySource, AllocError>
        requires { 0 < piece }
        ensures { IfOk result (λ source. source ≡ record {
          left = bytes.now;
          piece = piece;
          fails = fails.now;
          calls = 0;
          faults = 0;
        }) }
    {
        Ok(MemorySource {
            bytes: bytes.to_vec(alloc)?,
            at: 0,
            piece,
            calls: Calls::new(alloc, fails)?,
        })
    }

    /// How often it has failed. The count stops at 2^64 - 1.
    pub fn faults(&self) -> u64
        ensures { result ≡ self.now.faults }
    {
        self.calls.faults()
    }
}

impl Source for MemorySource {
    ghost left = { λ source. Some source.left };

    ghost faults = { λ source. source.faults };

    fn read(&mut self, into: &mut [u8]) -> Result<usize, Failed>
        requires { 0 < length into.old }
        // The listed calls fail, and no other.
        ensures listed { IsErr result ↔ (IsListed self.old.fails self.old.calls) }
        ensures failed { OnErr result (self.new ≡ record self.old {
          calls = one_more self.old.calls;
          faults = one_more self.old.faults;
        }) }

        // The others give a piece, or what fits or is left.
        ensures count { IfOk result (λ count.
            count ≡ min self.old.piece (min (length into.old) (length self.old.left))) }
        ensures end { IfOk result (λ count. (count ≡ 0) ↔ (self.old.left ≡ [])) }
        ensures bytes { IfOk result (λ count. take count into.new ≡ take count self.old.left) }
        ensures given { IfOk result (λ count. self.new ≡ record self.old {
          left = drop count self.old.left;
          calls = one_more self.old.calls;
        }) }

        ensures never_falls { self.old.faults ≤ self.new.faults }
    {
        self.calls.begin()?;
        let left = &self.bytes[self.at..];
        let count = self.piece.min(into.len()).min(left.len());
        into[..count].copy_from_slice(&left[..count]);
        self.at += count;
        Ok(count)
    }
}
