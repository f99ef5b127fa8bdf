//! Places of a table: which is exchanged, which is cleared, and the first that isn't zero.

ghost use Rattle.std.specs.Prelude.{◌≡◌, ◌<◌, ◌-◌, suc, not, if◌then◌else◌, IfSome};
ghost use Rattle.inertia_laws.specs.Matrices.{is_zero};
ghost use Rattle.inertia_laws.specs.Elimination.{exchanged, is_cleared, is_met, first_from};
ghost use Rattle.inertia_cert.specs.Grids.{at};

use crate::grid::Grid;

/// The place that comes to `place` where `first` and `second` are exchanged.
pub(crate) fn exchanged(first: usize, second: usize, place: usize) -> usize
    ensures { result ≡ exchanged first second place }
{
    if place == first {
        second
    } else if place == second {
        first
    } else {
        place
    }
}

/// Whether the column stands after the pivot and its entry in the pivot's row isn't 0.
pub(crate) fn is_cleared(matrix: &Grid, pivot: usize, column: usize) -> bool
    requires pivot { pivot < matrix.now.size }
    requires column { column < matrix.now.size }
    ensures { result ≡ is_cleared pivot (at matrix.now) column }
{
    pivot < column && matrix.at(pivot, column).num != 0
}

/// Whether the row stands after the pivot and its entry in the pivot's column isn't 0.
pub(crate) fn is_met(matrix: &Grid, pivot: usize, row: usize) -> bool
    requires pivot { pivot < matrix.now.size }
    requires row { row < matrix.now.size }
    ensures { result ≡ is_met pivot (at matrix.now) row }
{
    pivot < row && matrix.at(row, pivot).num != 0
}

/// The row in which a place is looked at: its own, or the row `after`.
fn looked_at(place: usize, after: usize, on_diagonal: bool) -> usize
    ensures { result ≡ (if on_diagonal then place else after) }
{
    if on_diagonal { place } else { after }
}

/// The first place after `after` whose entry, on the diagonal or else in the row `after`, isn't 0.
pub(crate) fn first_not_zero(matrix: &Grid, after: usize, on_diagonal: bool) -> Option<usize>
    requires { after < matrix.now.size }
    ensures within { IfSome result (λ place. place < matrix.now.size) }
    ensures value { result ≡ first_from (matrix.now.size - suc after) (suc after) (λ j. not (is_zero (at matrix.now (if on_diagonal then j else after) j).num)) }
{
    for place in after + 1..matrix.size {
        let row = looked_at(place, after, on_diagonal);
        if matrix.at(row, place).num != 0 {
            return Some(place);
        }
    }
    None
}
