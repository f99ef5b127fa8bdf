//! The products that a check computes, entry by entry, and those that it wants.

ghost use Rattle.std.specs.Prelude.{◌≡◌, ◌<◌, ◌≤◌, ◌&&◌, ℕ, pred, length, false, MatchOption};
ghost use Rattle.inertia_laws.specs.Fractions.{times};
ghost use Rattle.inertia_laws.specs.Range.{every, multiply_fits};
ghost use Rattle.inertia_laws.specs.Checking.{summed, sum_fits, image_entry, image_fits, congruence_entry, diagonal_matrix};
ghost use Rattle.inertia_cert.specs.SymmetricMatrices.{entry};
ghost use Rattle.inertia_cert.specs.Values.{value, FormsAs};
ghost use Rattle.inertia_cert.specs.Grids.{at, listed_at, Decides};
ghost use Rattle.inertia_cert.specs.Columns.{column_fits, AreImages};

use crate::agreement::is_same;
use crate::arithmetic::whole;
use crate::fraction::Fraction;
use crate::grid::Grid;
use crate::lines::{Column, Listed, Row, WholeRow};
use crate::matrix::{MOST_ROWS, Matrix};
use crate::sums::dot;
use crate::tabulate::Rule;

/// The entries of P Q.
#[derive(Drop)]
pub(crate) struct InverseEntry<'a> {
    pub(crate) p: &'a Grid,
    pub(crate) q: &'a Grid,
    ghost same_size: { q.now.size ≡ p.now.size },
}

impl Rule for InverseEntry<'_> {
    ghost use Rattle.inertia_laws.specs.Checking.{product_entry, product_fits};
    ghost use Rattle.inertia_cert.specs.Grids.{at};

    ghost size = { λ rule. rule.p.now.size };

    ghost gives = { λ rule. product_entry rule.p.now.size (at rule.p.now) (at rule.q.now) };

    ghost fits = { λ rule. product_fits rule.p.now.size (at rule.p.now) (at rule.q.now) };

    fn entry(&self, row: usize, column: usize) -> Option<Fraction> {
        let left = Row { grid: self.p, row };
        let right = Column {
            grid: self.q,
            column,
        };
        dot(&left, &right, self.p.size)
    }
}

/// The entry of the matrix times P in this row and column.
fn image(matrix: &Matrix, p: &Grid, row: usize, column: usize) -> Option<Fraction>
    requires same_size { p.now.size ≡ matrix.now.size }
    requires row { row < matrix.now.size }
    requires column { column < matrix.now.size }
    ensures { FormsAs result (image_fits matrix.now.size (entry matrix.now) (at p.now) row column) (image_entry matrix.now.size (entry matrix.now) (at p.now) row column) }
{
    let right = Column { grid: p, column };
    dot(&WholeRow { matrix, row }, &right, p.size)
}

/// Writes this column of the matrix times P to the front of the list, unless a number that it forms leaves 128 bits.
fn write_image(
    image_column: &mut [Fraction],
    matrix: &Matrix,
    p: &Grid,
    column: usize,
) -> Option<()>
    requires room { matrix.now.size ≤ length image_column.old }
    requires same_size { p.now.size ≡ matrix.now.size }
    requires column { column < matrix.now.size }
    ensures { let n = matrix.now.size in let l = entry matrix.now in
        MatchOption result (every n (λ k. image_fits n l (at p.now) k column) ≡ false)
        (λ _. AreImages n l (at p.now) column n (listed_at image_column.new)) }
{
    for row in 0..p.size {
        image_column[row] = image(matrix, p, row, column)?;
    }
    Some(())
}

/// The sum of the products of a column of P and the listed entries.
fn column_product(p: &Grid, row: usize, entries: &[Fraction]) -> Option<Fraction>
    requires room { p.now.size ≤ length entries.now }
    requires row { row < p.now.size }
    ensures { let n = p.now.size in let x = λ (k : ℕ). at p.now k row in let y = listed_at entries.now in
        FormsAs result (every n (λ k. multiply_fits (x k) (y k)) && sum_fits (pred n) (λ k. times (x k) (y k))) (summed (pred n) (λ k. times (x k) (y k))) }
{
    let left = Column {
        grid: p,
        column: row,
    };
    let right = Listed {
        entries,
        size: p.size,
    };
    dot(&left, &right, p.size)
}

/// The entry in this row and column of the matrix that has the table's diagonal, and zeros elsewhere.
fn diagonal_entry(grid: &Grid, row: usize, column: usize) -> Fraction
    requires row { row < grid.now.size }
    requires column { column < grid.now.size }
    ensures { value result ≡ diagonal_matrix (λ i. at grid.now i i) row column }
{
    if row == column {
        grid.at(row, row)
    } else {
        whole(0)
    }
}

/// Whether this column of P-transposed times the matrix times P is that of the diagonal, unless a number that it
/// forms leaves 128 bits. The column of the matrix times P is written to the list.
fn column_agrees(
    image_column: &mut [Fraction],
    matrix: &Matrix,
    p: &Grid,
    diagonal: &Grid,
    column: usize,
) -> Option<bool>
    requires room { matrix.now.size ≤ length image_column.old }
    requires same_size { p.now.size ≡ matrix.now.size }
    requires diagonal { diagonal.now.size ≡ matrix.now.size }
    requires column { column < matrix.now.size }
    ensures { let n = matrix.now.size in let l = entry matrix.now in
        Decides result (column_fits n l (at p.now) column)
        ((i : ℕ) → i < n → congruence_entry n l (at p.now) i column ≡ diagonal_matrix (λ i. at diagonal.now i i) i column) }
{
    write_image(image_column, matrix, p, column)?;
    let mut same = true;
    for row in 0..p.size {
        let here = column_product(p, row, image_column)?;
        if !is_same(here, diagonal_entry(diagonal, row, column)) {
            same = false;
        }
    }
    Some(same)
}

/// Whether P-transposed times the matrix times P is the diagonal, unless a number that its entries form leaves 128
/// bits. Each column of the matrix times P is computed once.
pub(crate) fn congruence_agrees(matrix: &Matrix, p: &Grid, diagonal: &Grid) -> Option<bool>
    requires same_size { p.now.size ≡ matrix.now.size }
    requires diagonal { diagonal.now.size ≡ matrix.now.size }
    ensures { let n = matrix.now.size in let l = entry matrix.now in
        Decides result (every n (column_fits n l (at p.now)))
        ((j : ℕ) → j < n → (i : ℕ) → i < n → congruence_entry n l (at p.now) i j ≡ diagonal_matrix (λ i. at diagonal.now i i) i j) }
{
    let mut image_column = [whole(0); MOST_ROWS];
    let mut same = true;
    for column in 0..p.size {
        if !column_agrees(&mut image_column, matrix, p, diagonal, column)? {
            same = false;
        }
    }
    Some(same)
}
