//! Lines of a matrix: a row or a column, entry by entry.

ghost use Rattle.std.specs.Prelude.{◌≡◌, ℕ, ◌<◌, ◌≤◌, length};
ghost use Rattle.inertia_laws.specs.Fractions as logic;
ghost use Rattle.inertia_cert.specs.Values.{value};

use crate::arithmetic::whole;
use crate::fraction::Fraction;
use crate::grid::Grid;
use crate::matrix::Matrix;

/// A row or a column.
pub(crate) trait Line {
    ghost size: { Self → ℕ };

    ghost gives: { Self → ℕ → logic.Fraction };

    /// The entry at this place, counted from 0.
    fn at(&self, place: usize) -> Fraction
        requires { place < size self.now }
        ensures { value result ≡ gives self.now place };
}

/// A row of a table.
#[derive(Drop)]
pub(crate) struct Row<'a> {
    pub(crate) grid: &'a Grid,
    pub(crate) row: usize,
    ghost in_range: { row < grid.now.size },
}

impl Line for Row<'_> {
    ghost use Rattle.inertia_cert.specs.Grids.{at};

    ghost size = { λ line. line.grid.now.size };

    ghost gives = { λ line k. at line.grid.now line.row k };

    fn at(&self, place: usize) -> Fraction {
        self.grid.at(self.row, place)
    }
}

/// A column of a table.
#[derive(Drop)]
pub(crate) struct Column<'a> {
    pub(crate) grid: &'a Grid,
    pub(crate) column: usize,
    ghost in_range: { column < grid.now.size },
}

impl Line for Column<'_> {
    ghost use Rattle.inertia_cert.specs.Grids.{at};

    ghost size = { λ line. line.grid.now.size };

    ghost gives = { λ line k. at line.grid.now k line.column };

    fn at(&self, place: usize) -> Fraction {
        self.grid.at(place, self.column)
    }
}

/// A row of a matrix of whole numbers.
#[derive(Drop)]
pub(crate) struct WholeRow<'a> {
    pub(crate) matrix: &'a Matrix,
    pub(crate) row: usize,
    ghost in_range: { row < matrix.now.size },
}

impl Line for WholeRow<'_> {
    ghost use Rattle.inertia_laws.specs.Fractions.{whole};
    ghost use Rattle.inertia_cert.specs.SymmetricMatrices.{entry};

    ghost size = { λ line. line.matrix.now.size };

    ghost gives = { λ line k. whole (entry line.matrix.now line.row k) };

    fn at(&self, place: usize) -> Fraction {
        // What a matrix keeps is told by the contract of its size.
        let _size = self.matrix.size();
        whole(self.matrix.entry(self.row as u32, place as u32))
    }
}

/// The first entries of a list.
#[derive(Drop)]
pub(crate) struct Listed<'a> {
    pub(crate) entries: &'a [Fraction],
    pub(crate) size: usize,
    ghost full: { size ≤ length entries.now },
}

impl Line for Listed<'_> {
    ghost use Rattle.inertia_cert.specs.Grids.{listed_at};

    ghost size = { λ line. line.size };

    ghost gives = { λ line. listed_at line.entries.now };

    fn at(&self, place: usize) -> Fraction {
        self.entries[place]
    }
}
