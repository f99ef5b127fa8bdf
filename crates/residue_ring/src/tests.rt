// Worked values: each public call at numbers that were computed by other programs. Small functions without clauses make
// the calls, and give numbers; those answer `None` where the modulus is refused or a number is no residue.
use super::*;

const TOP: u64 = (1 << 62) - 1;

/// Numbers that are no modulus.
const NO_MODULI: [u64; 4] = [0, 1, 1 << 62, u64::MAX];

/// m, x, y, then the sum, the difference and the product.
const SUMS: [(u64, u64, u64, [u64; 3]); 5] = [
    (41, 6, 35, [0, 12, 5]),
    (2, 1, 1, [0, 0, 1]),
    (TOP, TOP - 2, TOP - 3, [TOP - 5, 1, 6]),
    (
        TOP,
        TOP - 1,
        1_234_567_890_123_456_789,
        [
            1_234_567_890_123_456_788,
            3_377_118_128_303_931_113,
            3_377_118_128_303_931_114,
        ],
    ),
    (
        2_305_843_009_213_693_954,
        12_345_678_901_234_567,
        98_765_432_109_876_543,
        [
            111_111_111_011_111_110,
            2_219_423_256_005_051_978,
            1_689_114_112_546_158_261,
        ],
    ),
];

/// m, x, e, then the power.
const POWERS: [(u64, u64, u64, u64); 4] = [
    (41, 2, 19, 21),
    (41, 0, 0, 1),
    (TOP, 7, 1 << 63, 5_764_801),
    (
        1_000_000_000_000_000_004,
        3,
        1_000_000_000_000_000,
        577_095_766_373_980_345,
    ),
];

/// m, x, then the inverse or the common divisor.
const INVERSES: [(u64, u64, Result<u64, Common>); 6] = [
    (41, 2, Ok(21)),
    (TOP, 5, Ok(2_767_011_611_056_432_742)),
    (
        1_000_000_000_000_000_000,
        123_456_789,
        Ok(56_031_880_109_890_109),
    ),
    (TOP, 12_345, Err(Common { gcd: 3 })),
    (1_000_000_000_000_000_000, 6, Err(Common { gcd: 2 })),
    (41, 0, Err(Common { gcd: 41 })),
];

/// m, x, the greatest exponent, then the order.
const ORDERS: [(u64, u64, u32, Option<u32>); 5] = [
    (41, 2, 20, Some(20)),
    (41, 2, 19, None),
    (13, 3, 12, Some(3)),
    (41, 6, 20, None),
    (41, 1, 0, None),
];

/// The ring of residues modulo m, which it names as its modulus.
fn ring(m: u64) -> Option<Ring> {
    match Ring::new(m) {
        Ok(ring) if ring.modulus() == m => Some(ring),
        _ => None,
    }
}

/// x + y modulo m.
fn sum(m: u64, x: u64, y: u64) -> Option<u64> {
    match ring(m) {
        Some(ring) if x < ring.modulus() && y < ring.modulus() => Some(ring.add(x, y)),
        _ => None,
    }
}

/// x - y modulo m.
fn difference(m: u64, x: u64, y: u64) -> Option<u64> {
    match ring(m) {
        Some(ring) if x < ring.modulus() && y < ring.modulus() => Some(ring.sub(x, y)),
        _ => None,
    }
}

/// -x modulo m.
fn negative(m: u64, x: u64) -> Option<u64> {
    match ring(m) {
        Some(ring) if x < ring.modulus() => Some(ring.neg(x)),
        _ => None,
    }
}

/// x y modulo m.
fn product(m: u64, x: u64, y: u64) -> Option<u64> {
    match ring(m) {
        Some(ring) if x < ring.modulus() && y < ring.modulus() => Some(ring.mul(x, y)),
        _ => None,
    }
}

/// x to the e modulo m.
fn power(m: u64, x: u64, e: u64) -> Option<u64> {
    match ring(m) {
        Some(ring) if x < ring.modulus() => Some(ring.pow(x, e)),
        _ => None,
    }
}

/// The inverse of x modulo m.
fn inverse(m: u64, x: u64) -> Option<Result<u64, Common>> {
    match ring(m) {
        Some(ring) if x < ring.modulus() => Some(ring.inverse(x)),
        _ => None,
    }
}

/// The order of x modulo m, where it is at most so much.
fn order(m: u64, x: u64, at_most: u32) -> Option<Option<u32>> {
    match ring(m) {
        Some(ring) if x < ring.modulus() => Some(ring.order(x, at_most)),
        _ => None,
    }
}

/// x - y modulo m as the negative of y - x.
fn turned_difference(m: u64, x: u64, y: u64) -> Option<u64> {
    negative(m, difference(m, y, x)?)
}

#[test]
fn moduli(rt: HostRuntime) {
    for m in NO_MODULI {
        assert!(rt; matches!(Ring::new(m), Err(OutOfRange)), "modulus {m}");
    }
}

/// Whether these are x + y, x - y (twice) and x y modulo m.
fn is_worked(m: u64, x: u64, y: u64, wanted: [u64; 3]) -> bool {
    sum(m, x, y) == Some(wanted[0])
        && difference(m, x, y) == Some(wanted[1])
        && turned_difference(m, x, y) == Some(wanted[1])
        && product(m, x, y) == Some(wanted[2])
}

#[test]
fn sums_and_products(rt: HostRuntime) {
    for (m, x, y, wanted) in SUMS {
        assert!(rt; is_worked(m, x, y, wanted), "{x} and {y} modulo {m}");
    }
}

#[test]
fn powers(rt: HostRuntime) {
    for (m, x, e, wanted) in POWERS {
        assert!(rt; power(m, x, e) == Some(wanted), "{x} to the {e} modulo {m}");
    }
}

#[test]
fn inverses(rt: HostRuntime) {
    for (m, x, wanted) in INVERSES {
        assert!(rt;
            inverse(m, x) == Some(wanted),
            "the inverse of {x} modulo {m}"
        );
    }
}

#[test]
fn orders(rt: HostRuntime) {
    for (m, x, at_most, wanted) in ORDERS {
        assert!(rt;
            order(m, x, at_most) == Some(wanted),
            "the order of {x} modulo {m}"
        );
    }
}
