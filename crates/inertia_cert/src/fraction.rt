//! Fractions in lowest terms.

ghost use Rattle.std.specs.Prelude.{◌≡◌, true, unsigned_abs, IsTrue};
ghost use Rattle.inertia_laws.specs.Matrices.{is_positive};
ghost use Rattle.inertia_laws.specs.Fractions.{gcd};
ghost use Rattle.inertia_laws.specs.Range.{fits};

/// A fraction in lowest terms. Its type keeps that the denominator is above 0, that the two have no
/// common divisor but 1, so that zero is 0 over 1, and that no numerator is -2^127.
#[derive(Clone, Copy, PartialEq, Eq, Debug)]
pub struct Fraction {
    /// The numerator, of either sign.
    pub num: i128,
    /// The denominator, above 0.
    pub den: i128,
    pub ghost above_zero: { is_positive den ≡ true },
    pub ghost lowest: { gcd (unsigned_abs num) (unsigned_abs den) ≡ 1 },
    pub ghost within: { IsTrue (fits num) },
}
