ghost use Rattle.std.specs.Prelude.{◌≡◌, ◌<◌, ◌≤◌, ◌-◌, ◌++◌, ◌⊎◌, ◌↔◌, ℕ, [], length, take, min, vec_capacity, Some, IfOk, IsErr, OnErr};
ghost use Rattle.skein_io.specs.Faults.{one_more};
ghost use Rattle.skein_io.specs.Memory.{SinkInMemory, IsListed};

use crate::calls::Calls;
use crate::sink::Sink;
use crate::source::Failed;
use std::alloc::{AllocError, Global};
use std::marker::Model;

/// A sink that keeps its bytes in memory, and tells them. It takes them in pieces, and fails on the
/// calls that it was told, and where its room is full.
#[derive(Drop)]
pub struct MemorySink {
    bytes: Vec<u8>,
    room: usize,
    piece: usize,
    calls: Calls,
}

impl Model for MemorySink {
    ghost Value = { SinkInMemory };

    ghost view = { λ sink. record {
      taken = sink.bytes.items;
      room = sink.room;
      piece = sink.piece;
      fails = sink.calls.fails.items;
      calls = sink.calls.made;
      faults = sink.calls.faults;
    } };

    ghost invariant = { λ sink. (length sink.bytes.items ≤ sink.room)
        × (sink.room ≤ vec_capacity sink.bytes) × (0 < sink.piece) };
}

impl MemorySink {
    /// An empty sink with room for `room` bytes, which is made here: `write` takes no memory. Each
    /// call takes at most `piece` bytes, which is at least 1. The calls whose numbers stand in
    /// `fails`, counted from 1, fail, and every call fails once `room` bytes were taken.
    pub fn new(
        alloc: Global,
        room: usize,
        piece: usize,
        fails: &[u64],
    ) -> Result<MemorySink, AllocError>
        requires { 0 < piece }
        ensures { IfOk result (λ sink. sink ≡ record {
          taken = [];
          room = room;
          piece = piece;
          fails = fails.now;
          calls = 0;
          faults = 0;
        }) }
    {
        Ok(MemorySink {
            bytes: Vec::with_capacity(alloc, room)?,
            room,
            piece,
            calls: Calls::new(alloc, fails)?,
        })
    }

    /// The bytes that it has taken.
    pub fn bytes(&self) -> &[u8]
        ensures { result.now ≡ self.now.taken }
    {
        &self.bytes
    }

    /// How often it has failed. The count stops at 2^64 - 1.
    pub fn faults(&self) -> u64
        ensures { result ≡ self.now.faults }
    {
        self.calls.faults()
    }
}

impl Sink for MemorySink {
    ghost taken = { λ sink. Some sink.taken };

    ghost faults = { λ sink. sink.faults };

    fn write(&mut self, piece: &[u8]) -> Result<usize, Failed>
        requires { 0 < length piece.now }
        // The listed calls fail, and those that find the room full, and no other.
        ensures listed { IsErr result
            ↔ ((IsListed self.old.fails self.old.calls) ⊎ (length self.old.taken ≡ self.old.room)) }
        ensures failed { OnErr result (self.new ≡ record self.old {
          calls = one_more self.old.calls;
          faults = one_more self.old.faults;
        }) }

        // The others take a piece, or what there is or what has room.
        ensures count { IfOk result (λ count. count
            ≡ min self.old.piece (min (length piece.now) (self.old.room - length self.old.taken))) }
        ensures some { IfOk result (λ count. 0 < count) }
        ensures given { IfOk result (λ count. self.new ≡ record self.old {
          taken = self.old.taken ++ take count piece.now;
          calls = one_more self.old.calls;
        }) }

        ensures never_falls { self.old.faults ≤ self.new.faults }
    {
        self.calls.begin()?;
        let free = self.room - self.bytes.len();
        if free == 0 {
            return Err(self.calls.fail());
        }
        let count = self.piece.min(piece.len()).min(free);
        self.bytes.extend_from_slice(&piece[..count]).unwrap();
        Ok(count)
    }
}
