//! Two halves of the workers, put together.

ghost use Rattle.std.specs.Prelude.{◌≡◌, ◌+◌, ◌^◌, ◌<◌, IfOk, IfErr};
ghost use Rattle.colour_share.specs.Merging.{IsBoth, IsLeast, IsMerged, Fits};

use crate::part::{PartFault, Summed};
use residue_ring::Ring;

/// Both sums, and the notes one after another.
fn both(ring: &Ring, left: Summed, right: Summed) -> Result<Summed, PartFault>
    requires left { left.value < ring.now }
    requires right { right.value < ring.now }
    requires room { left.turns + right.turns < 2 ^ 128 }
    ensures both { IfOk result (IsBoth ring.now left right) }
    ensures fault { IfErr result (λ fault. fault ≡ PartFault.Memory) }
{
    let mut notes = left.notes;
    let mut more = right.notes;
    match notes.append(&mut more) {
        Ok(()) => Ok(Summed {
            value: ring.add(left.value, right.value),
            turns: left.turns + right.turns,
            notes,
        }),
        Err(_) => Err(PartFault::Memory),
    }
}

/// Of two faults that of the lesser colouring.
fn least(left: PartFault, right: PartFault) -> PartFault
    ensures { IsLeast left right result }
{
    match (left, right) {
        (
            PartFault::Stopped {
                colouring: a,
                fault: first,
            },
            PartFault::Stopped {
                colouring: b,
                fault: second,
            },
        ) => {
            if a <= b {
                PartFault::Stopped {
                    colouring: a,
                    fault: first,
                }
            } else {
                PartFault::Stopped {
                    colouring: b,
                    fault: second,
                }
            }
        }
        _ => PartFault::Memory,
    }
}

/// Both sums, or the fault of the lesser colouring.
pub(crate) fn merge(
    ring: &Ring,
    left: Result<Summed, PartFault>,
    right: Result<Summed, PartFault>,
) -> Result<Summed, PartFault>
    requires { Fits ring.now left right }
    ensures { IsMerged ring.now left right result }
{
    match left {
        Ok(left) => match right {
            Ok(right) => both(ring, left, right),
            Err(right) => Err(right),
        },
        Err(left) => match right {
            Ok(_) => Err(left),
            Err(right) => Err(least(left, right)),
        },
    }
}
