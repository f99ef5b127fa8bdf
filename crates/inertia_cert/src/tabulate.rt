//! Tables made from a rule for their entries.

ghost use Rattle.std.specs.Prelude.{◌≡◌, ℕ, ◌<◌, ◌≤◌, ◌++◌, Bool, true, IfOk, OnOk, IfErr};
ghost use Rattle.inertia_laws.specs.Fractions as logic;
ghost use Rattle.inertia_laws.specs.Range.{every, every_place};
ghost use Rattle.inertia_laws.specs.Agreement.{Agree};
ghost use Rattle.inertia_cert.specs.Values.{value, FormsAs};
ghost use Rattle.inertia_cert.specs.Grids.{at, values, listed, CausedBy};

use crate::fault::FormFault;
use crate::fraction::Fraction;
use crate::grid::Grid;
use std::alloc::Global;

impl Grid {
    /// The entry in this row and column, counted from 0.
    pub(crate) fn at(&self, row: usize, column: usize) -> Fraction
        requires row { row < self.now.size }
        requires column { column < self.now.size }
        ensures { value result ≡ at self.now row column }
    {
        self.entries[row * self.size + column]
    }
}

/// A rule that gives each entry of a square table, unless a number that it forms leaves 128 bits.
pub(crate) trait Rule {
    ghost size: { Self → ℕ };

    ghost gives: { Self → ℕ → ℕ → logic.Fraction };

    ghost fits: { Self → ℕ → ℕ → Bool };

    /// The entry in this row and column, counted from 0.
    fn entry(&self, row: usize, column: usize) -> Option<Fraction>
        requires row { row < size self.now }
        requires column { column < size self.now }
        ensures { FormsAs result (fits self.now row column) (gives self.now row column) };
}

/// Appends a row by the rule.
fn push_row<R: Rule>(
    entries: &mut Vec<Fraction>,
    size: usize,
    rule: &R,
    row: usize,
) -> Result<(), FormFault>
    requires size { R.size rule.now ≡ size }
    requires in_range { row < size }
    ensures made { OnOk result (values entries.new.items ≡ values entries.old.items ++ listed size (R.gives rule.now row)) }
    ensures fit { OnOk result (every size (R.fits rule.now row) ≡ true) }
    ensures refused { IfErr result (λ fault. CausedBy fault (every size (R.fits rule.now row))) }
{
    for column in 0..size {
        match rule.entry(row, column) {
            Some(fraction) => entries.push(fraction)?,
            None => return Err(FormFault::OutOfBits),
        }
    }
    Ok(())
}

/// The table whose entries the rule gives.
pub(crate) fn tabulate<R: Rule>(alloc: Global, size: usize, rule: &R) -> Result<Grid, FormFault>
    requires size { R.size rule.now ≡ size }
    requires small { size ≤ 512 }
    ensures sized { IfOk result (λ grid. grid.size ≡ size) }
    ensures made { IfOk result (λ grid. Agree size (at grid) (R.gives rule.now)) }
    ensures fit { OnOk result (every_place size (R.fits rule.now) ≡ true) }
    ensures refused { IfErr result (λ fault. CausedBy fault (every_place size (R.fits rule.now))) }
{
    let mut entries = Vec::with_capacity(alloc, size * size)?;
    for row in 0..size {
        push_row(&mut entries, size, rule, row)?;
    }
    Ok(Grid { size, entries })
}
