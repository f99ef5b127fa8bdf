// Worked values: each public call at numbers that were computed by other programs. Small functions without clauses make
// the calls, and give numbers; those answer `None` where the parameters are refused.
use super::*;
use residue_ring::Common;

/// The form, m, A and r.
type Row = (Form, u64, u64, u32);

const SMALL: Row = (Form::All, 41, 2, 5);

/// A prime near 2^62 and an A of order 40.
const LARGE: Row = (
    Form::All,
    4_611_686_018_427_387_761,
    1_002_010_485_394_536_764,
    10,
);

/// The even form: 2 has order 10 modulo 11 and order 20 modulo 41.
const EVEN: Row = (Form::Even, 11, 2, 5);

const EVEN_SMALL: Row = (Form::Even, 41, 2, 5);

/// Rows that are no parameters, and why.
const FAULTS: [(Row, ParamFault); 10] = [
    ((Form::All, 1, 1, 3), ParamFault::Modulus),
    ((Form::All, 41, 0, 2), ParamFault::Root),
    ((Form::All, 41, 2, 2), ParamFault::Level),
    ((Form::All, 13, 3, 3), ParamFault::Order { found: Some(3) }),
    ((Form::All, 41, 6, 5), ParamFault::Order { found: None }),
    ((Form::All, 11, 2, 5), ParamFault::Order { found: Some(10) }),
    ((Form::Even, 41, 6, 10), ParamFault::EvenLevel),
    ((Form::Even, 13, 3, 3), ParamFault::Order { found: Some(3) }),
    ((Form::Even, 41, 6, 5), ParamFault::Order { found: None }),
    ((Form::Even, 41, 2, 11), ParamFault::Level),
];

/// The greatest colour, A^-1 and the loop value.
const NUMBERS: [(Row, u32, u64, u64); 3] = [
    (SMALL, 4, 21, 6),
    (LARGE, 8, 3_990_480_285_431_296_851, 750_338_419_935_798_171),
    (EVEN, 4, 6, 4),
];

/// Delta_0 to Delta_4.
const DELTAS: [(Row, [u64; 5]); 2] = [(SMALL, [1, 6, 35, 40, 0]), (EVEN, [1, 4, 4, 1, 0])];

/// n, t and mu_n to the power t.
const TWISTS: [(Row, u32, i64, u64); 6] = [
    (SMALL, 0, 1, 1),
    (SMALL, 1, 1, 33),
    (SMALL, 2, 1, 10),
    (SMALL, 3, 1, 32),
    (SMALL, 2, -1, 37),
    (LARGE, 7, i64::MIN, 3_567_205_924_774_836_943),
];

/// n and the inverse of Delta_n.
const INVERSES: [(Row, u32, Result<u64, Common>); 2] = [
    (SMALL, 1, Ok(7)),
    (SMALL, 4, Err(Common { gcd: 41 })),
];

/// Two rows, and whether their parameters are equal.
const PAIRS: [(Row, Row, bool); 4] = [
    (SMALL, SMALL, true),
    (SMALL, (Form::All, 41, 5, 5), false),
    (SMALL, EVEN_SMALL, false),
    (EVEN_SMALL, EVEN_SMALL, true),
];

/// The parameters of a row.
fn made(row: Row) -> Result<Params, ParamFault> {
    let (form, m, a, r) = row;
    match form {
        Form::All => Params::new(m, a, r),
        Form::Even => Params::new_even(m, a, r),
    }
}

/// Why there are none.
fn fault(row: Row) -> Option<ParamFault> {
    match made(row) {
        Ok(_) => None,
        Err(fault) => Some(fault),
    }
}

/// What the parameters of a row name as their form, m, A and r.
fn named(row: Row) -> Option<Row> {
    match made(row) {
        Ok(params) => Some((
            params.form(),
            params.ring().modulus(),
            params.root(),
            params.level(),
        )),
        Err(_) => None,
    }
}

/// The greatest colour, A^-1 and the loop value.
fn numbers(row: Row) -> Option<(u32, u64, u64)> {
    match made(row) {
        Ok(params) => Some((
            params.top_colour(),
            params.root_inverse(),
            params.loop_value(),
        )),
        Err(_) => None,
    }
}

/// Delta_n.
fn delta(row: Row, n: u32) -> Option<u64> {
    match made(row) {
        Ok(params) if n <= 16 => Some(params.delta(n)),
        _ => None,
    }
}

/// mu_n to the power t.
fn twist(row: Row, n: u32, t: i64) -> Option<u64> {
    match made(row) {
        Ok(params) if n <= 8 => Some(params.twist(n, t)),
        _ => None,
    }
}

/// The inverse of Delta_n.
fn inverse(row: Row, n: u32) -> Option<Result<u64, Common>> {
    match made(row) {
        Ok(params) if n <= 16 => Some(params.inverse_delta(n)),
        _ => None,
    }
}

/// Whether the parameters of both rows are equal.
fn are_equal(row: Row, other: Row) -> Option<bool> {
    match (made(row), made(other)) {
        (Ok(params), Ok(others)) => Some(params == others),
        _ => None,
    }
}

#[test]
fn faults(rt: HostRuntime) {
    for (row, why) in FAULTS {
        assert!(rt; fault(row) == Some(why));
    }
}

#[test]
fn worked_rows(rt: HostRuntime) {
    for (row, top_colour, inverse, loop_value) in NUMBERS {
        assert!(rt; named(row) == Some(row));
        assert!(rt; numbers(row) == Some((top_colour, inverse, loop_value)));
    }
    for (row, other, alike) in PAIRS {
        assert!(rt; are_equal(row, other) == Some(alike));
    }
}

#[test]
fn deltas(rt: HostRuntime) {
    for (row, values) in DELTAS {
        for (n, value) in values.into_iter().enumerate() {
            assert!(rt; delta(row, n as u32) == Some(value));
        }
    }
    assert!(rt; delta(LARGE, 16) == Some(4_473_667_239_601_627_971));
}

#[test]
fn twists(rt: HostRuntime) {
    for (row, n, t, power) in TWISTS {
        assert!(rt; twist(row, n, t) == Some(power));
    }
}

#[test]
fn inverses(rt: HostRuntime) {
    for (row, n, wanted) in INVERSES {
        assert!(rt; inverse(row, n) == Some(wanted));
    }
}
