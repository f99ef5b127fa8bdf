//! Sums, differences, products and quotients of fractions, which say where a number that they form leaves 128 bits.

ghost use Rattle.std.specs.Prelude.{◌≡◌, ℤ, ◌+ℤ◌, ◌-ℤ◌, ◌*ℤ◌, neg_ℤ, unsigned_abs, IsTrue, SomeIff, ◌&&◌, true, false, MatchOption};
ghost use Rattle.inertia_laws.specs.Matrices.{is_positive, is_zero};
ghost use Rattle.inertia_laws.specs.Range.{fits, add_fits, subtract_fits, multiply_fits, divide_fits};
ghost use Rattle.inertia_laws.specs.Fractions.{whole, gcd, reduce, plus, minus, times, ratio};
ghost use Rattle.inertia_cert.specs.Values.{value, opposite, reciprocal, crossed_fits, FormsAs};

use crate::fraction::Fraction;

/// The whole number as a fraction.
pub(crate) fn whole(number: i128) -> Fraction
    requires { IsTrue (fits number) }
    ensures { value result ≡ whole number }
{
    Fraction {
        num: number,
        den: 1,
    }
}

/// The number, unless it is the one of size 2^127.
fn kept(z: i128) -> Option<i128>
    ensures { SomeIff result (IsTrue (fits z)) z }
{
    if z == i128::MIN { None } else { Some(z) }
}

fn product(a: i128, b: i128) -> Option<i128>
    ensures { SomeIff result (IsTrue (fits (a *ℤ b))) (a *ℤ b) }
{
    match a.checked_mul(b) {
        Some(c) => kept(c),
        None => None,
    }
}

fn sum(a: i128, b: i128) -> Option<i128>
    ensures { SomeIff result (IsTrue (fits (a +ℤ b))) (a +ℤ b) }
{
    match a.checked_add(b) {
        Some(c) => kept(c),
        None => None,
    }
}

/// The greatest common divisor.
fn divisor(mut a: u128, mut b: u128) -> u128
    ensures { result ≡ gcd a b }
{
    while b != 0 {
        let rest = a % b;
        a = b;
        b = rest;
    }
    a
}

/// The fraction in lowest terms.
fn lowest(num: i128, den: i128) -> Fraction
    requires fit { IsTrue (fits num) }
    requires above_zero { is_positive den ≡ true }
    ensures { value result ≡ reduce record { num = num; den = den } }
{
    let common = divisor(num.unsigned_abs(), den.unsigned_abs());
    let by = common as i128;
    Fraction {
        num: num / by,
        den: den / by,
    }
}

/// The product, unless a number that it forms leaves 128 bits.
pub(crate) fn times(x: Fraction, y: Fraction) -> Option<Fraction>
    ensures { FormsAs result (multiply_fits (value x) (value y)) (times (value x) (value y)) }
{
    let top = product(x.num, y.num)?;
    let bottom = product(x.den, y.den)?;
    Some(lowest(top, bottom))
}

/// The numerator of a sum, before it is reduced.
fn crossed(x: Fraction, y: Fraction) -> Option<i128>
    ensures { MatchOption result (crossed_fits (value x) (value y) ≡ false) (λ r. (crossed_fits (value x) (value y) ≡ true) × (r ≡ x.num *ℤ y.den +ℤ y.num *ℤ x.den)) }
{
    let left = product(x.num, y.den)?;
    let right = product(y.num, x.den)?;
    sum(left, right)
}

/// The sum, unless a number that it forms leaves 128 bits.
pub(crate) fn plus(x: Fraction, y: Fraction) -> Option<Fraction>
    ensures { FormsAs result (add_fits (value x) (value y)) (plus (value x) (value y)) }
{
    let top = crossed(x, y)?;
    let bottom = product(x.den, y.den)?;
    Some(lowest(top, bottom))
}

/// The sum and a product.
pub(crate) fn plus_product(x: Fraction, y: Fraction, z: Fraction) -> Option<Fraction>
    ensures { FormsAs result (multiply_fits (value y) (value z) && add_fits (value x) (times (value y) (value z))) (plus (value x) (times (value y) (value z))) }
{
    let part = times(y, z)?;
    plus(x, part)
}

/// The fraction with the other sign.
fn negated(x: Fraction) -> Fraction
    ensures { value result ≡ opposite (value x) }
{
    Fraction {
        num: -x.num,
        den: x.den,
    }
}

/// The difference, unless a number that it forms leaves 128 bits.
pub(crate) fn minus(x: Fraction, y: Fraction) -> Option<Fraction>
    ensures { FormsAs result (subtract_fits (value x) (value y)) (minus (value x) (value y)) }
{
    plus(x, negated(y))
}

/// One over the fraction, which is above 0.
fn flipped(x: Fraction) -> Fraction
    requires { is_positive x.num ≡ true }
    ensures { value result ≡ record { num = x.den; den = x.num } }
{
    Fraction {
        num: x.den,
        den: x.num,
    }
}

/// One over the fraction, which isn't 0.
fn reciprocal(x: Fraction) -> Fraction
    requires { is_zero x.num ≡ false }
    ensures { value result ≡ reciprocal (value x) }
{
    if x.num < 0 {
        return negated(flipped(negated(x)));
    }
    flipped(x)
}

/// The quotient, unless a number that it forms leaves 128 bits. The divisor isn't 0.
pub(crate) fn ratio(x: Fraction, y: Fraction) -> Option<Fraction>
    requires { is_zero y.num ≡ false }
    ensures { FormsAs result (divide_fits (value x) (value y)) (ratio (value x) (value y)) }
{
    times(x, reciprocal(y))
}
