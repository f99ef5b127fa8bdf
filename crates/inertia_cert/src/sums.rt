//! Sums of products of two lines, term by term, with reduced fractions.

ghost use Rattle.std.specs.Prelude.{◌≡◌, ℕ, ◌<◌, ◌&&◌, pred};
ghost use Rattle.inertia_laws.specs.Fractions.{times};
ghost use Rattle.inertia_laws.specs.Range.{every, multiply_fits};
ghost use Rattle.inertia_laws.specs.Checking.{summed, sum_fits};
ghost use Rattle.inertia_cert.specs.Values.{FormsAs};

use crate::arithmetic::{plus_product, times};
use crate::fraction::Fraction;
use crate::lines::Line;

/// The sum of the products of the lines' entries, which begins with the first product and reduces each sum,
/// unless a number that it forms leaves 128 bits.
pub(crate) fn dot<L: Line, R: Line>(left: &L, right: &R, count: usize) -> Option<Fraction>
    requires left { L.size left.now ≡ count }
    requires right { R.size right.now ≡ count }
    requires some { 0 < count }
    ensures { FormsAs result
        (every count (λ k. multiply_fits (L.gives left.now k) (R.gives right.now k)) && sum_fits (pred count) (λ k. times (L.gives left.now k) (R.gives right.now k)))
        (summed (pred count) (λ k. times (L.gives left.now k) (R.gives right.now k))) }
{
    let mut sum = times(left.at(0), right.at(0))?;
    for place in 1..count {
        sum = plus_product(sum, left.at(place), right.at(place))?;
    }
    Some(sum)
}
