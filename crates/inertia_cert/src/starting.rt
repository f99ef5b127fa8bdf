//! The state at the beginning: the matrix itself, and the identity twice.

ghost use Rattle.std.specs.Prelude.{◌≡◌, true, IfOk, IfErr};
ghost use Rattle.inertia_laws.specs.Elimination.{start};
ghost use Rattle.inertia_laws.specs.Agreement.{AgreeAll};
ghost use Rattle.inertia_cert.specs.SymmetricMatrices.{entry};
ghost use Rattle.inertia_cert.specs.Grids.{CausedBy};
ghost use Rattle.inertia_cert.specs.Eliminations.{size_of, state};

use crate::arithmetic::whole;
use crate::elimination::Elimination;
use crate::fault::FormFault;
use crate::fraction::Fraction;
use crate::matrix::Matrix;
use crate::tabulate::{Rule, tabulate};
use std::alloc::Global;

/// The entries of a matrix of whole numbers.
#[derive(Drop)]
struct WholeEntries<'a> {
    matrix: &'a Matrix,
}

impl Rule for WholeEntries<'_> {
    ghost use Rattle.std.specs.Prelude.{true};
    ghost use Rattle.inertia_laws.specs.Fractions.{whole};
    ghost use Rattle.inertia_cert.specs.SymmetricMatrices.{entry};

    ghost size = { λ rule. rule.matrix.now.size };

    ghost gives = { λ rule i j. whole (entry rule.matrix.now i j) };

    ghost fits = { λ rule i j. true };

    fn entry(&self, row: usize, column: usize) -> Option<Fraction> {
        // What a matrix keeps is told by the contract of its size.
        let _size = self.matrix.size();
        Some(whole(self.matrix.entry(row as u32, column as u32)))
    }
}

/// The entries of the identity.
#[derive(Drop)]
pub(crate) struct Identity {
    pub(crate) size: usize,
}

impl Rule for Identity {
    ghost use Rattle.std.specs.Prelude.{true};
    ghost use Rattle.inertia_laws.specs.Certificates.{identity};

    ghost size = { λ rule. rule.size };

    ghost gives = { λ rule i j. identity i j };

    ghost fits = { λ rule i j. true };

    fn entry(&self, row: usize, column: usize) -> Option<Fraction> {
        if row == column {
            Some(whole(1))
        } else {
            Some(whole(0))
        }
    }
}

/// The state before the first step.
pub(crate) fn start(alloc: Global, matrix: &Matrix) -> Result<Elimination, FormFault>
    ensures sized { IfOk result (λ first. size_of first ≡ matrix.now.size) }
    ensures made { IfOk result (λ first. AgreeAll matrix.now.size (state first) (start (entry matrix.now))) }
    ensures refused { IfErr result (λ fault. CausedBy fault true) }
{
    let size = matrix.size() as usize;
    let identity = Identity { size };
    let entries = tabulate(alloc, size, &WholeEntries { matrix })?;
    let p = tabulate(alloc, size, &identity)?;
    let q = tabulate(alloc, size, &identity)?;
    Ok(Elimination {
        matrix: entries,
        p,
        q,
    })
}
