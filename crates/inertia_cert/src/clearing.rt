//! The rules by which a step clears the row and the column of its pivot, an entry of the diagonal that isn't 0.

ghost use Rattle.std.specs.Prelude.{◌≡◌, ◌<◌, false};
ghost use Rattle.inertia_laws.specs.Matrices.{is_zero};
ghost use Rattle.inertia_cert.specs.Grids.{at};

use crate::arithmetic::whole;
use crate::fraction::Fraction;
use crate::grid::Grid;
use crate::parts::{gathered, less_part, less_part_of_column};
use crate::places::{is_cleared, is_met};
use crate::tabulate::Rule;

/// The matrix, with the pivot's row and column cleared.
#[derive(Drop)]
pub(crate) struct ClearedMatrix<'a> {
    pub(crate) matrix: &'a Grid,
    pub(crate) pivot: usize,
    ghost in_range: { pivot < matrix.now.size },
    ghost not_zero: { is_zero (at matrix.now pivot pivot).num ≡ false },
}

impl Rule for ClearedMatrix<'_> {
    ghost use Rattle.inertia_laws.specs.Elimination.{clear_matrix};
    ghost use Rattle.inertia_laws.specs.Range.{clear_matrix_fits};
    ghost use Rattle.inertia_cert.specs.Grids.{at};

    ghost size = { λ rule. rule.matrix.now.size };

    ghost gives = { λ rule. clear_matrix rule.pivot (at rule.matrix.now) };

    ghost fits = { λ rule. clear_matrix_fits rule.pivot (at rule.matrix.now) };

    fn entry(&self, row: usize, column: usize) -> Option<Fraction> {
        if row == self.pivot && is_cleared(self.matrix, self.pivot, column) {
            return Some(whole(0));
        }
        if column == self.pivot && is_cleared(self.matrix, self.pivot, row) {
            return Some(whole(0));
        }
        if is_cleared(self.matrix, self.pivot, column) && is_met(self.matrix, self.pivot, row) {
            return less_part(self.matrix, self.pivot, row, column);
        }
        Some(self.matrix.at(row, column))
    }
}

/// The matrix P, with the pivot's column, times each quotient, taken from the columns that are cleared.
#[derive(Drop)]
pub(crate) struct ClearedColumns<'a> {
    pub(crate) matrix: &'a Grid,
    pub(crate) grid: &'a Grid,
    pub(crate) pivot: usize,
    ghost in_range: { pivot < matrix.now.size },
    ghost same_size: { grid.now.size ≡ matrix.now.size },
    ghost not_zero: { is_zero (at matrix.now pivot pivot).num ≡ false },
}

impl Rule for ClearedColumns<'_> {
    ghost use Rattle.inertia_laws.specs.Elimination.{clear_columns};
    ghost use Rattle.inertia_laws.specs.Range.{clear_columns_fits};
    ghost use Rattle.inertia_cert.specs.Grids.{at};

    ghost size = { λ rule. rule.matrix.now.size };

    ghost gives = { λ rule. clear_columns rule.pivot (at rule.matrix.now) (at rule.grid.now) };

    ghost fits = { λ rule. clear_columns_fits rule.pivot (at rule.matrix.now) (at rule.grid.now) };

    fn entry(&self, row: usize, column: usize) -> Option<Fraction> {
        if is_cleared(self.matrix, self.pivot, column) {
            less_part_of_column(self.matrix, self.grid, self.pivot, row, column)
        } else {
            Some(self.grid.at(row, column))
        }
    }
}

/// The matrix Q, with the rows that are cleared, times their quotients, added to the pivot's row.
#[derive(Drop)]
pub(crate) struct GatheredRow<'a> {
    pub(crate) matrix: &'a Grid,
    pub(crate) grid: &'a Grid,
    pub(crate) pivot: usize,
    ghost in_range: { pivot < matrix.now.size },
    ghost same_size: { grid.now.size ≡ matrix.now.size },
    ghost not_zero: { is_zero (at matrix.now pivot pivot).num ≡ false },
}

impl Rule for GatheredRow<'_> {
    ghost use Rattle.std.specs.Prelude.{◌==◌, if◌then◌else◌};
    ghost use Rattle.inertia_laws.specs.Elimination.{gathered};
    ghost use Rattle.inertia_laws.specs.Range.{gather_fits};
    ghost use Rattle.inertia_cert.specs.Grids.{at};

    ghost size = { λ rule. rule.matrix.now.size };

    ghost gives = { λ rule i j. if i == rule.pivot then gathered rule.pivot (at rule.matrix.now) (at rule.grid.now) j rule.matrix.now.size else at rule.grid.now i j };

    ghost fits = { λ rule. gather_fits rule.matrix.now.size rule.pivot (at rule.matrix.now) (at rule.grid.now) };

    fn entry(&self, row: usize, column: usize) -> Option<Fraction> {
        if row == self.pivot {
            gathered(self.matrix, self.grid, self.pivot, column)
        } else {
            Some(self.grid.at(row, column))
        }
    }
}
