//! Symmetric matrices.

ghost use Rattle.std.specs.Prelude.{◌≡◌, ◌≢◌, ◌*◌, ◌<◌, ◌≤◌, ◌↔◌, ℕ, length, IfOk, OnOk, IsTrue, MatchOption};
ghost use Rattle.inertia_laws.specs.Range.{fits};
ghost use Rattle.inertia_cert.specs.SymmetricMatrices.{square, entry, AllFit, IsEqualAcross, IsRowEqual, AreRowsEqual, IsSymmetricMatrix, IsFirstUnequal};

use crate::fault::MatrixFault;
use std::alloc::Global;
use std::marker::Model;

/// The greatest number of rows.
pub(crate) const MOST_ROWS: usize = 512;

/// A symmetric matrix of at most 512 rows, of whole numbers at most 2^127 - 1 in size.
///
/// Contracts see it as its size and the list of its entries, rows one after the other;
/// `IsSymmetricMatrix` says what each keeps.
#[derive(Drop, Debug)]
pub struct Matrix {
    size: u32,
    entries: Vec<i128>,
}

impl Model for Matrix {
    ghost use Rattle.inertia_cert.specs.SymmetricMatrices.{SquareMatrix, IsSymmetricMatrix};

    ghost Value = { SquareMatrix };

    ghost view = { λ matrix. record { size = matrix.size; entries = matrix.entries.items } };

    ghost invariant = { λ matrix. IsSymmetricMatrix record { size = matrix.size; entries = matrix.entries.items } };
}

/// The first place of the row, from the left, whose entry isn't the one across the diagonal.
fn unequal_in_row(size: usize, entries: &[i128], row: usize) -> Option<usize>
    requires small { size ≤ 512 }
    requires full { length entries.now ≡ size * size }
    requires in_range { row < size }
    ensures { let matrix = square size entries.now in
        MatchOption result (IsRowEqual matrix row size) (λ column. (column < size) × (¬ IsEqualAcross matrix row column) × IsRowEqual matrix row column) }
{
    for column in 0..size {
        if entries[row * size + column] != entries[column * size + row] {
            return Some(column);
        }
    }
    None
}

/// The first place by rows whose entry isn't the one across the diagonal.
fn first_unequal(size: usize, entries: &[i128]) -> Option<(usize, usize)>
    requires small { size ≤ 512 }
    requires full { length entries.now ≡ size * size }
    ensures { MatchOption result (AreRowsEqual (square size entries.now) size) (λ place. IsFirstUnequal (square size entries.now) place.0 place.1) }
{
    for row in 0..size {
        if let Some(column) = unequal_in_row(size, entries, row) {
            return Some((row, column));
        }
    }
    None
}

impl Matrix {
    /// The matrix of this size, which is at most 512, with these entries, rows one after the other.
    ///
    /// No entry is -2^127. `Size` comes exactly where there aren't size times size entries, then
    /// `NotSymmetric` exactly where they aren't symmetric, with the first such place by rows.
    /// `Memory` is want of memory.
    pub fn new(alloc: Global, size: u32, entries: &[i128]) -> Result<Matrix, MatrixFault>
        requires small { size ≤ 512 }
        requires fit { AllFit entries.now }
        ensures made { IfOk result (λ matrix. matrix ≡ square size entries.now) }
        ensures symmetric { OnOk result (IsSymmetricMatrix (square size entries.now)) }
        ensures size { (given wanted : ℕ) → (result ≡ Err (MatrixFault.Size given wanted))
            ↔ (length entries.now ≢ size * size) × (given ≡ length entries.now) × (wanted ≡ size * size) }
        ensures not_symmetric { (row column : ℕ) → (result ≡ Err (MatrixFault.NotSymmetric row column))
            ↔ (length entries.now ≡ size * size) × IsFirstUnequal (square size entries.now) row column }
    {
        let rows = size as usize;
        if entries.len() != rows * rows {
            return Err(MatrixFault::Size {
                given: entries.len(),
                wanted: rows * rows,
            });
        }
        match first_unequal(rows, entries) {
            Some((row, column)) => Err(MatrixFault::NotSymmetric {
                row: row as u32,
                column: column as u32,
            }),
            None => {
                let entries = Vec::from_slice(alloc, entries)?;
                Ok(Matrix { size, entries })
            }
        }
    }

    /// The number of rows, at most 512. It takes no memory.
    pub fn size(&self) -> u32
        ensures value { result ≡ self.now.size }
        ensures matrix { IsSymmetricMatrix self.now }
    {
        self.size
    }

    /// The entry in this row and column, counted from 0. It takes no memory.
    pub fn entry(&self, row: u32, column: u32) -> i128
        requires row { row < self.now.size }
        requires column { column < self.now.size }
        ensures value { result ≡ entry self.now row column }
        ensures within { IsTrue (fits result) }
    {
        self.entries[row as usize * self.size as usize + column as usize]
    }
}
