//! Square tables of fractions.

ghost use Rattle.std.specs.Prelude.{◌≡◌, ◌≤◌, ◌*◌, length};

use crate::fraction::Fraction;

/// A square table of fractions, rows one after the other, of at most 512 rows.
#[derive(Drop, Debug)]
pub(crate) struct Grid {
    pub(crate) size: usize,
    pub(crate) entries: Vec<Fraction>,
    pub ghost small: { size ≤ 512 },
    pub ghost full: { length entries.items ≡ size * size },
}
