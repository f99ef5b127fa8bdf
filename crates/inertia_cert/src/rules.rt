//! The rules for the entries of the elimination's moves: places exchanged, and one place added to another or taken from it.

ghost use Rattle.std.specs.Prelude.{◌≡◌, ◌<◌};

use crate::arithmetic::{minus, plus};
use crate::fraction::Fraction;
use crate::grid::Grid;
use crate::places::exchanged;
use crate::tabulate::Rule;

/// The places `first` and `second` exchanged, among the rows, the columns or both.
#[derive(Drop)]
pub(crate) struct Exchanged<'a> {
    pub(crate) grid: &'a Grid,
    pub(crate) first: usize,
    pub(crate) second: usize,
    pub(crate) rows: bool,
    pub(crate) columns: bool,
    ghost first_in_range: { first < grid.now.size },
    ghost second_in_range: { second < grid.now.size },
}

impl Rule for Exchanged<'_> {
    ghost use Rattle.std.specs.Prelude.{if◌then◌else◌, true};
    ghost use Rattle.inertia_laws.specs.Elimination.{exchanged};
    ghost use Rattle.inertia_cert.specs.Grids.{at};

    ghost size = { λ rule. rule.grid.now.size };

    ghost gives = { λ rule i j. at rule.grid.now (if rule.rows then exchanged rule.first rule.second i else i) (if rule.columns then exchanged rule.first rule.second j else j) };

    ghost fits = { λ rule i j. true };

    fn entry(&self, row: usize, column: usize) -> Option<Fraction> {
        let row = if self.rows {
            exchanged(self.first, self.second, row)
        } else {
            row
        };
        let column = if self.columns {
            exchanged(self.first, self.second, column)
        } else {
            column
        };
        Some(self.grid.at(row, column))
    }
}

/// How one row or column changes by another.
#[derive(Clone, Copy)]
pub(crate) enum Change {
    /// The column `from` is added to the column `to`.
    ColumnAdded,
    /// The row `from` is added to the row `to`.
    RowAdded,
    /// The row `to` is taken from the row `from`.
    RowTaken,
}

/// A row or a column changed by another one.
#[derive(Drop)]
pub(crate) struct Changed<'a> {
    pub(crate) grid: &'a Grid,
    pub(crate) change: Change,
    pub(crate) to: usize,
    pub(crate) from: usize,
    ghost to_in_range: { to < grid.now.size },
    ghost from_in_range: { from < grid.now.size },
}

impl Rule for Changed<'_> {
    ghost use Rattle.inertia_cert.specs.Grids.{at};
    ghost use Rattle.inertia_cert.specs.Changes.{changed, change_fits};

    ghost size = { λ rule. rule.grid.now.size };

    ghost gives = { λ rule. changed rule.change rule.to rule.from (at rule.grid.now) };

    ghost fits = { λ rule. change_fits rule.change rule.to rule.from (at rule.grid.now) };

    fn entry(&self, row: usize, column: usize) -> Option<Fraction> {
        let here = self.grid.at(row, column);
        match self.change {
            Change::ColumnAdded if column == self.to => { plus(here, self.grid.at(row, self.from)) }
            Change::RowAdded if row == self.to => plus(here, self.grid.at(self.from, column)),
            Change::RowTaken if row == self.from => minus(here, self.grid.at(self.to, column)),
            _ => Some(here),
        }
    }
}
