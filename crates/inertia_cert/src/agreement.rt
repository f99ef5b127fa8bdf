//! Whether two rules give the same table.

ghost use Rattle.std.specs.Prelude.{◌≡◌, ℕ, ◌<◌, ◌&&◌, ◌↔◌, IsTrue};
ghost use Rattle.inertia_laws.specs.Range.{every, every_place};
ghost use Rattle.inertia_laws.specs.Agreement.{Agree};
ghost use Rattle.inertia_cert.specs.Values.{value};
ghost use Rattle.inertia_cert.specs.Grids.{Decides};

use crate::fraction::Fraction;
use crate::tabulate::Rule;

/// Whether the fractions are the same.
pub(crate) fn is_same(x: Fraction, y: Fraction) -> bool
    ensures { IsTrue result ↔ (value x ≡ value y) }
{
    x.num == y.num && x.den == y.den
}

/// Whether both rules give the same entry at this place.
fn entry_agrees<M: Rule, W: Rule>(made: &M, wanted: &W, row: usize, column: usize) -> Option<bool>
    requires made_row { row < M.size made.now }
    requires made_column { column < M.size made.now }
    requires wanted_row { row < W.size wanted.now }
    requires wanted_column { column < W.size wanted.now }
    ensures { Decides result (W.fits wanted.now row column && M.fits made.now row column) (M.gives made.now row column ≡ W.gives wanted.now row column) }
{
    let aim = wanted.entry(row, column)?;
    let here = made.entry(row, column)?;
    Some(is_same(here, aim))
}

/// Whether both rules give the same row.
fn row_agrees<M: Rule, W: Rule>(size: usize, made: &M, wanted: &W, row: usize) -> Option<bool>
    requires made_size { M.size made.now ≡ size }
    requires wanted_size { W.size wanted.now ≡ size }
    requires in_range { row < size }
    ensures { Decides result (every size (λ j. W.fits wanted.now row j && M.fits made.now row j))
        ((j : ℕ) → j < size → M.gives made.now row j ≡ W.gives wanted.now row j) }
{
    let mut same = true;
    for column in 0..size {
        if !entry_agrees(made, wanted, row, column)? {
            same = false;
        }
    }
    Some(same)
}

/// Whether both rules give the same table, unless a number that an entry forms leaves 128 bits. Every
/// entry is computed.
pub(crate) fn agrees<M: Rule, W: Rule>(size: usize, made: &M, wanted: &W) -> Option<bool>
    requires made_size { M.size made.now ≡ size }
    requires wanted_size { W.size wanted.now ≡ size }
    ensures { Decides result (every_place size (λ i j. W.fits wanted.now i j && M.fits made.now i j)) (Agree size (M.gives made.now) (W.gives wanted.now)) }
{
    let mut same = true;
    for row in 0..size {
        if !row_agrees(size, made, wanted, row)? {
            same = false;
        }
    }
    Some(same)
}
