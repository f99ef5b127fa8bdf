ghost use Rattle.std.specs.Prelude.{◌≡◌, ◌↔◌, [], IfOk, IsErr, OnOk, OnErr};
ghost use Rattle.skein_io.specs.Faults.{one_more};
ghost use Rattle.skein_io.specs.Memory.{IsListed};

use crate::source::Failed;
use std::alloc::{AllocError, Global};

/// The calls of a stream in memory: which fail, how many were made, and how many failed. Both counts
/// stop at 2^64 - 1.
#[derive(Drop)]
pub struct Calls {
    fails: Vec<u64>,
    made: u64,
    faults: u64,
}

impl Calls {
    /// No calls yet. Those whose numbers stand in `fails`, counted from 1, will fail.
    pub fn new(alloc: Global, fails: &[u64]) -> Result<Calls, AllocError>
        ensures fails { IfOk result (λ calls. calls.fails.items ≡ fails.now) }
        ensures made { IfOk result (λ calls. calls.made ≡ 0) }
        ensures faults { IfOk result (λ calls. calls.faults ≡ 0) }
    {
        Ok(Calls {
            fails: fails.to_vec(alloc)?,
            made: 0,
            faults: 0,
        })
    }

    /// How many calls failed.
    pub fn faults(&self) -> u64
        ensures { result ≡ self.now.faults }
    {
        self.faults
    }

    /// Begins a call, which fails where its number is listed.
    pub fn begin(&mut self) -> Result<(), Failed>
        ensures listed { IsErr result ↔ (IsListed self.old.fails.items self.old.made) }
        ensures begun { OnOk result (self.new ≡ record self.old { made = one_more self.old.made }) }
        ensures failed { OnErr result (self.new ≡ record self.old {
          made = one_more self.old.made;
          faults = one_more self.old.faults;
        }) }
    {
        self.made = self.made.saturating_add(1);
        if self.fails.contains(&self.made) {
            return Err(self.fail());
        }
        Ok(())
    }

    /// Counts a fault.
    pub fn fail(&mut self) -> Failed
        ensures { self.new ≡ record self.old { faults = one_more self.old.faults } }
    {
        self.faults = self.faults.saturating_add(1);
        Failed
    }
}
