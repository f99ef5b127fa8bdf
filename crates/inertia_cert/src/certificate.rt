//! Certificates of inertia, and the elimination that makes one.

ghost use Rattle.std.specs.Prelude.{◌≡◌, ℕ, ◌<◌, ◌+◌, ◌≤◌, None, Some, IfOk, OnOk, if◌then◌else◌};
ghost use Rattle.inertia_laws.specs.Matrices.{is_positive, is_negative, is_zero};
ghost use Rattle.inertia_laws.specs.Certificates.{IsCertificate, positives, negatives, zeros};
ghost use Rattle.inertia_laws.specs.Elimination.{start, eliminated};
ghost use Rattle.inertia_laws.specs.Agreement.{AgreeAll};
ghost use Rattle.inertia_laws.specs.Range.{first_leaving};
ghost use Rattle.inertia_cert.specs.SymmetricMatrices.{entry};
ghost use Rattle.inertia_cert.specs.Values.{value};
ghost use Rattle.inertia_cert.specs.Eliminations.{size_of, state, certificate_size, p_of, q_of, diagonal_of, certified, IsReached};

use crate::elimination::Elimination;
use crate::fault::{FormFault, InertiaFault};
use crate::fraction::Fraction;
use crate::matrix::Matrix;
use crate::starting::start;
use crate::steps::step;
use std::alloc::Global;
use std::marker::Model;

/// A certificate of the inertia of a symmetric matrix: square matrices P and Q of fractions, inverse
/// to each other, and the diagonal that P-transposed times the matrix times P is.
///
/// Contracts see it as P, Q and the matrix whose diagonal counts, each with its rows one after the other.
#[derive(Drop, Debug)]
pub struct Certificate {
    done: Elimination,
}

impl Model for Certificate {
    ghost use Rattle.inertia_cert.specs.Eliminations.{CertifiedInertia, certified};

    ghost Value = { CertifiedInertia };

    ghost view = { λ certificate. certified certificate.done };
}

/// How many entries of a diagonal are positive, negative and zero.
#[derive(Clone, Copy, Debug, PartialEq, Eq)]
pub struct Counts {
    /// The entries above 0.
    pub positive: u32,
    /// The entries below 0.
    pub negative: u32,
    /// The entries that are 0.
    pub zero: u32,
}

/// The elimination of the matrix, to its end.
fn eliminate(alloc: Global, matrix: &Matrix) -> Result<Elimination, InertiaFault>
    ensures sized { IfOk result (λ done. size_of done ≡ matrix.now.size) }
    ensures made { IfOk result (λ done. AgreeAll matrix.now.size (state done) (eliminated matrix.now.size (entry matrix.now))) }
    ensures in_range { OnOk result (first_leaving matrix.now.size (entry matrix.now) ≡ None) }
    ensures range { (at : ℕ) → result ≡ Err (InertiaFault.Range at) → first_leaving matrix.now.size (entry matrix.now) ≡ Some at }
{
    let mut now = match start(alloc, matrix) {
        Ok(first) => first,
        Err(FormFault::Memory) => return Err(InertiaFault::Memory),
        Err(FormFault::OutOfBits) => unreachable!(),
    };
    for place in 0..matrix.size() {
        now = match step(alloc, now, place as usize) {
            Ok(next) => next,
            Err(FormFault::OutOfBits) => return Err(InertiaFault::Range { step: place + 1 }),
            Err(FormFault::Memory) => return Err(InertiaFault::Memory),
        };
    }
    Ok(now)
}

/// A certificate of the matrix's inertia, by symmetric elimination. (This project's own.)
///
/// `Range` holds the first step, counted from 1, in which the elimination forms a number past
/// 2^127 - 1 in size, and comes exactly where there is one: 2 for the rows t,1,1; 1,t,0; 1,0,t with
/// t = 2^60. `Memory` is want of memory. By Sylvester's law each certificate of the matrix has the
/// same counts.
pub fn inertia(alloc: Global, matrix: &Matrix) -> Result<Certificate, InertiaFault>
    ensures sized { IfOk result (λ made. certificate_size made ≡ matrix.now.size) }
    ensures certifies { IfOk result (λ made. IsCertificate matrix.now.size (entry matrix.now) (p_of made) (q_of made) (diagonal_of made)) }

    // P, Q and the diagonal are those of the elimination over fractions of any size.
    ensures eliminated { IfOk result (λ made. IsReached matrix.now.size made (eliminated matrix.now.size (entry matrix.now))) }

    // No number leaves 128 bits, or the first step with one that does is named, but where memory runs out.
    ensures in_range { OnOk result (first_leaving matrix.now.size (entry matrix.now) ≡ None) }
    ensures range { (at : ℕ) → result ≡ Err (InertiaFault.Range at) → first_leaving matrix.now.size (entry matrix.now) ≡ Some at }
{
    // What a matrix keeps is told by the contract of its size.
    let _size = matrix.size();
    let done = eliminate(alloc, matrix)?;
    Ok(Certificate { done })
}

/// The counts, with one more of the entry's sign.
fn counted(counts: Counts, entry: Fraction) -> Counts
    requires positive { counts.positive ≤ 512 }
    requires negative { counts.negative ≤ 512 }
    requires zero { counts.zero ≤ 512 }
    ensures positive { result.positive ≡ counts.positive + (if is_positive entry.num then 1 else 0) }
    ensures negative { result.negative ≡ counts.negative + (if is_negative entry.num then 1 else 0) }
    ensures zero { result.zero ≡ counts.zero + (if is_zero entry.num then 1 else 0) }
{
    if entry.num > 0 {
        return Counts {
            positive: counts.positive + 1,
            ..counts
        };
    }
    if entry.num < 0 {
        return Counts {
            negative: counts.negative + 1,
            ..counts
        };
    }
    Counts {
        zero: counts.zero + 1,
        ..counts
    }
}

impl Certificate {
    /// The elimination at its end.
    pub(crate) fn done(&self) -> &Elimination
        ensures { certified result.now ≡ self.now }
    {
        &self.done
    }

    /// The number of rows, at most 512. It takes no memory.
    pub fn size(&self) -> u32
        ensures value { result ≡ certificate_size self.now }
        ensures small { result ≤ 512 }
    {
        self.done.matrix.size as u32
    }

    /// The entry of P in this row and column, counted from 0. It takes no memory.
    pub fn p(&self, row: u32, column: u32) -> Fraction
        requires row { row < certificate_size self.now }
        requires column { column < certificate_size self.now }
        ensures { value result ≡ p_of self.now row column }
    {
        self.done.p.at(row as usize, column as usize)
    }

    /// The entry of Q in this row and column, counted from 0. It takes no memory.
    pub fn q(&self, row: u32, column: u32) -> Fraction
        requires row { row < certificate_size self.now }
        requires column { column < certificate_size self.now }
        ensures { value result ≡ q_of self.now row column }
    {
        self.done.q.at(row as usize, column as usize)
    }

    /// The entry of the diagonal in this row, counted from 0. It takes no memory.
    pub fn diagonal(&self, row: u32) -> Fraction
        requires { row < certificate_size self.now }
        ensures { value result ≡ diagonal_of self.now row }
    {
        self.done.matrix.at(row as usize, row as usize)
    }

    /// How many entries of the diagonal are positive, negative and zero. It takes no memory.
    pub fn counts(&self) -> Counts
        ensures positive { result.positive ≡ positives (certificate_size self.now) (diagonal_of self.now) }
        ensures negative { result.negative ≡ negatives (certificate_size self.now) (diagonal_of self.now) }
        ensures zero { result.zero ≡ zeros (certificate_size self.now) (diagonal_of self.now) }
    {
        let mut counts = Counts {
            positive: 0,
            negative: 0,
            zero: 0,
        };
        for row in 0..self.size() {
            counts = counted(counts, self.diagonal(row));
        }
        counts
    }
}
