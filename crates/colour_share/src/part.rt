//! What some of the workers come to.

use frontier_sweep::SweepFault;
use wenzl_table::Notes;

/// What workers come to: the sum of the terms of their colourings, as a residue, the turns of all of them, and the notes of each
/// worker in order.
#[derive(Drop)]
pub struct Summed {
    /// The sum, below the modulus.
    pub value: u64,
    /// How many turns the contractions took.
    pub turns: u128,
    /// What each worker knows of the table.
    pub notes: Vec<Notes>,
}

/// Why some of the workers come to nothing.
#[derive(Clone, Copy)]
pub(crate) enum PartFault {
    /// The contraction of that colouring, from 1 on, stopped.
    Stopped { colouring: u64, fault: SweepFault },
    /// Memory ran out beside the contractions.
    Memory,
}
