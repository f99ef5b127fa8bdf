//! The entries that a step computes with its quotients: an entry of the pivot's row by the pivot.

ghost use Rattle.std.specs.Prelude.{◌≡◌, ◌<◌, ◌&&◌, true, false, suc};
ghost use Rattle.inertia_laws.specs.Matrices.{is_zero};
ghost use Rattle.inertia_laws.specs.Fractions.{ratio, times, minus, plus};
ghost use Rattle.inertia_laws.specs.Elimination.{is_cleared, gathered};
ghost use Rattle.inertia_laws.specs.Range.{divide_fits, multiply_fits, subtract_fits, add_fits, every, gather_place_fits};
ghost use Rattle.inertia_cert.specs.Values.{value, FormsAs};
ghost use Rattle.inertia_cert.specs.Grids.{at};

use crate::arithmetic::{minus, plus_product, ratio, times};
use crate::fraction::Fraction;
use crate::grid::Grid;
use crate::places::is_cleared;

/// The quotient of the column: its entry in the pivot's row by the pivot.
fn quotient(matrix: &Grid, pivot: usize, column: usize) -> Option<Fraction>
    requires pivot { pivot < matrix.now.size }
    requires not_zero { is_zero (at matrix.now pivot pivot).num ≡ false }
    requires column { column < matrix.now.size }
    ensures { FormsAs result (divide_fits (at matrix.now pivot column) (at matrix.now pivot pivot)) (ratio (at matrix.now pivot column) (at matrix.now pivot pivot)) }
{
    ratio(matrix.at(pivot, column), matrix.at(pivot, pivot))
}

/// The fraction less a product.
fn less_product(x: Fraction, y: Fraction, z: Fraction) -> Option<Fraction>
    ensures { FormsAs result (multiply_fits (value y) (value z) && subtract_fits (value x) (times (value y) (value z))) (minus (value x) (times (value y) (value z))) }
{
    let part = times(y, z)?;
    minus(x, part)
}

/// The entry of the matrix, less the one in the pivot's column times the quotient of its own column.
pub(crate) fn less_part(matrix: &Grid, pivot: usize, row: usize, column: usize) -> Option<Fraction>
    requires pivot { pivot < matrix.now.size }
    requires not_zero { is_zero (at matrix.now pivot pivot).num ≡ false }
    requires row { row < matrix.now.size }
    requires column { column < matrix.now.size }
    ensures { let m = at matrix.now in let rho = ratio (m pivot column) (m pivot pivot) in
        FormsAs result (divide_fits (m pivot column) (m pivot pivot) && (multiply_fits (m row pivot) rho && subtract_fits (m row column) (times (m row pivot) rho)))
        (minus (m row column) (times (m row pivot) rho)) }
{
    let rho = quotient(matrix, pivot, column)?;
    less_product(matrix.at(row, column), matrix.at(row, pivot), rho)
}

/// The entry of the other matrix, less the quotient of its column times the one in the pivot's column.
pub(crate) fn less_part_of_column(
    matrix: &Grid,
    grid: &Grid,
    pivot: usize,
    row: usize,
    column: usize,
) -> Option<Fraction>
    requires same_size { grid.now.size ≡ matrix.now.size }
    requires pivot { pivot < matrix.now.size }
    requires not_zero { is_zero (at matrix.now pivot pivot).num ≡ false }
    requires row { row < matrix.now.size }
    requires column { column < matrix.now.size }
    ensures { let m = at matrix.now in let p = at grid.now in let rho = ratio (m pivot column) (m pivot pivot) in
        FormsAs result (divide_fits (m pivot column) (m pivot pivot) && (multiply_fits rho (p row pivot) && subtract_fits (p row column) (times rho (p row pivot))))
        (minus (p row column) (times rho (p row pivot))) }
{
    let rho = quotient(matrix, pivot, column)?;
    less_product(grid.at(row, column), rho, grid.at(row, pivot))
}

/// The sum, and the quotient of the place times its row's entry in the column, if the place is cleared.
fn gathered_place(
    matrix: &Grid,
    grid: &Grid,
    pivot: usize,
    column: usize,
    place: usize,
    sum: Fraction,
) -> Option<Fraction>
    requires same_size { grid.now.size ≡ matrix.now.size }
    requires pivot { pivot < matrix.now.size }
    requires not_zero { is_zero (at matrix.now pivot pivot).num ≡ false }
    requires column { column < matrix.now.size }
    requires place { place < matrix.now.size }
    requires sum { value sum ≡ gathered pivot (at matrix.now) (at grid.now) column place }
    ensures { let m = at matrix.now in let q = at grid.now in
        FormsAs result (gather_place_fits pivot m q column place) (gathered pivot m q column (suc place)) }
{
    if is_cleared(matrix, pivot, place) {
        let rho = quotient(matrix, pivot, place)?;
        return plus_product(sum, rho, grid.at(place, column));
    }
    Some(sum)
}

/// The entry of the pivot's row, and each cleared row's entry in the column times the row's quotient.
pub(crate) fn gathered(matrix: &Grid, grid: &Grid, pivot: usize, column: usize) -> Option<Fraction>
    requires same_size { grid.now.size ≡ matrix.now.size }
    requires pivot { pivot < matrix.now.size }
    requires not_zero { is_zero (at matrix.now pivot pivot).num ≡ false }
    requires column { column < matrix.now.size }
    ensures { let m = at matrix.now in let q = at grid.now in
        FormsAs result (every matrix.now.size (gather_place_fits pivot m q column)) (gathered pivot m q column matrix.now.size) }
{
    let mut sum = grid.at(pivot, column);
    for place in 0..matrix.size {
        sum = gathered_place(matrix, grid, pivot, column, place, sum)?;
    }
    Some(sum)
}
