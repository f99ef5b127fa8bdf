//! Gates: what workers pass before each colouring.

/// What a worker passes before it takes a colouring (this project's own). It returns and tells nothing.
pub trait Gate {
    /// The worker, from 1 on, is about to take the colouring with this number, from 1 on.
    fn enter(&self, worker: u32, index: u64);
}

/// The gate that does nothing.
#[derive(Clone, Copy, Debug)]
pub struct NoGate;

impl Gate for NoGate {
    fn enter(&self, _worker: u32, _index: u64) {}
}
