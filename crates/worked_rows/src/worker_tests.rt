//! Workers: the Kirby sum of a chain of three unknots at modulus 41, A = 2 and level 5, framed 0 each, by one worker and by three: 23, which is its surgery
//! value 33 times `Omega+`, 23, times `Omega-`, 5; and that two workers are under way at once, in `sum` and in `run`.

ghost use Rattle.std.specs.Prelude.{◌≤◌};

use super::*;
use colour_share::{Gate, Summed, sum, table_for};
use frontier_sweep::{Chooser, Order};
use kirby_terms::colouring;
use pd_reader::read_pd;
use planar_check::{Framed, check};
use root_quantum::Params;
use std::sync::atomic::{AtomicU64, Ordering};
use std::test::*;

/// A chain of three, whose middle is component 1.
const CHAIN: &[u8] = b"PD[X[1,6,2,5],X[6,3,5,2],X[3,8,4,7],X[8,1,7,4]]";

const KIRBY_SUM: u64 = 23;

/// The Kirby sum of the chain by so many workers.
fn chain<G: Gate + Sync>(
    rt: &(impl AllocGlobal + Threads + Sync),
    workers: u32,
    gate: &G,
) -> Result<Summed, Fail>
    requires some { 1 ≤ workers }
    requires most { workers ≤ 64 }
{
    let alloc = rt.alloc();
    let params = Params::new(41, 2, 5)?;
    let planar = check(alloc, read_pd(alloc, CHAIN)?)?;
    let framed = Framed::new(alloc, planar, &[0, 0, 0])?;
    let table = table_for(alloc, &params)?;
    let listed = Chooser::keep(Order::Listed);
    Ok(sum(rt, alloc, &framed, &table, &listed, workers, gate)?)
}

#[test]
fn one_worker_or_three(rt: HostRuntime) -> Result<(), Fail> {
    let alone = chain(&rt, 1, &NoGate)?;
    let shared = chain(&rt, 3, &NoGate)?;
    assert_eq!(rt; [alone.value, shared.value], [KIRBY_SUM, KIRBY_SUM]);
    assert_eq!(rt; alone.turns, shared.turns);
    assert_eq!(rt; [alone.notes.len(), shared.notes.len()], [1, 3]);
    Ok(())
}

/// How often a worker looks whether the other one has come.
const MOST_LOOKS: u64 = 200_000_000;

/// A gate that holds colouring 1 until colouring 2 has come, and colouring 2 until colouring 1 has, each for `MOST_LOOKS` looks.
#[derive(Drop)]
struct Meeting {
    first_came: AtomicU64,
    second_came: AtomicU64,
    met: AtomicU64,
}

impl Meeting {
    /// Says that one has come, and waits for the other.
    fn wait_for(&self, own: &AtomicU64, other: &AtomicU64) {
        own.store(1, Ordering::SeqCst);
        for _ in 0..MOST_LOOKS {
            if other.load(Ordering::SeqCst) == 1 {
                self.met.fetch_add(1, Ordering::SeqCst);
                return;
            }
        }
    }
}

impl Gate for Meeting {
    fn enter(&self, _worker: u32, index: u64) {
        if index == 1 {
            self.wait_for(&self.first_came, &self.second_came);
        }
        if index == 2 {
            self.wait_for(&self.second_came, &self.first_came);
        }
    }
}

impl Meeting {
    /// A gate to which none has come.
    fn new() -> Meeting {
        Meeting {
            first_came: AtomicU64::new(0),
            second_came: AtomicU64::new(0),
            met: AtomicU64::new(0),
        }
    }
}

/// Two workers that ran one after the other wouldn't meet.
#[test]
fn two_workers_sum_at_once(rt: HostRuntime) -> Result<(), Fail> {
    let gate = Meeting::new();
    let summed = chain(&rt, 2, &gate)?;
    assert_eq!(rt; summed.value, KIRBY_SUM);
    assert_eq!(rt; gate.met.load(Ordering::SeqCst), 2);
    Ok(())
}

#[test]
fn two_workers_run_at_once(rt: HostRuntime) -> Result<(), Fail> {
    let gate = Meeting::new();
    let words = ["wrt", "41", "2", "5", "--framing=0,0,0", "--workers=2"];
    let mut source = MemorySource::new(rt.alloc(), CHAIN, 8, &[])?;
    let mut out = MemorySink::new(rt.alloc(), 8, 1, &[])?;
    let mut err = MemorySink::new(rt.alloc(), 64, 3, &[])?;
    let status = run(
        &rt,
        rt.alloc(),
        &words,
        &mut source,
        &mut out,
        &mut err,
        &gate,
    );
    assert_eq!(rt; status.code(), 0);
    assert_eq!(rt; out.bytes(), b"33\n".as_slice());
    assert_eq!(rt; gate.met.load(Ordering::SeqCst), 2);
    Ok(())
}

/// The numbers 1 and 7 of two components with the colours 0 to 3.
#[test]
fn colourings_by_number(rt: HostRuntime) -> Result<(), Fail> {
    assert_eq!(rt; [colouring(2, 5, 1, 1), colouring(2, 5, 1, 2)], [0, 0]);
    assert_eq!(rt; [colouring(2, 5, 7, 1), colouring(2, 5, 7, 2)], [1, 2]);
    Ok(())
}
