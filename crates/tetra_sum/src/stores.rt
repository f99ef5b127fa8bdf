//! The known values of both nets.

ghost use Rattle.std.specs.Prelude.{IfOk};
ghost use Rattle.root_quantum.specs.Parameters.{Parameters};
ghost use Rattle.tetra_sum.specs.Stores.{AreStores};

use crate::known::Store;
use std::alloc::{AllocError, Global};

/// The two nets, with their values that are known.
#[derive(Drop)]
pub(crate) struct Stores {
    /// That of faces.
    pub theta: Store,
    /// That of tetrahedra.
    pub tetrahedron: Store,
}

impl Stores {
    /// Both with no value yet. The only error is want of memory.
    pub(crate) fn new(alloc: Global) -> Result<Stores, AllocError>
        ensures { IfOk result (λ stores. (p : Parameters) → AreStores p stores) }
    {
        let theta = Store::theta(alloc)?;
        let tetrahedron = Store::tetrahedron(alloc)?;
        Ok(Stores { theta, tetrahedron })
    }
}
