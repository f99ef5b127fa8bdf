//! Worked rows. Small functions without clauses make the calls, and say yes or no, or give numbers.

use super::*;
use root_quantum::Params;
use std::alloc::Global;
use std::test::Fail;
use temperley_lieb::close;

/// m, A and r.
type Row = (u64, u64, u32);

const SMALL: Row = (41, 2, 5);

/// 2 has order 24 modulo 119, which is 7 times 17, and Delta_1 is a multiple of 17.
const COMPOSITE: Row = (119, 2, 6);

/// A prime near 2^62 and an A of order 40.
const LARGE: Row = (4_611_686_018_427_387_761, 1_002_010_485_394_536_764, 10);

/// The fault of the composite modulus.
const NO_INVERSE: WenzlFault = WenzlFault::NoInverse {
    index: 1,
    common: 17,
};

/// The weights and partners of the terms of colour 2.
const TERMS: [(u64, [u8; 4]); 2] = [(34, [1, 0, 3, 2]), (1, [3, 2, 1, 0])];

/// The projector of a colour, where the row's parameters have it.
fn built(alloc: Global, row: Row, colour: u32) -> Option<Result<Projector, WenzlFault>> {
    match Params::new(row.0, row.1, row.2) {
        Ok(params) if colour >= 1 && colour <= params.top_colour() => {
            Some(build(alloc, &params, colour))
        }
        _ => None,
    }
}

/// Why there is none.
fn fault(alloc: Global, row: Row, colour: u32) -> Option<WenzlFault> {
    match built(alloc, row, colour) {
        Some(Err(fault)) => Some(fault),
        _ => None,
    }
}

/// The value of a projector's closure.
fn closed(projector: &Projector) -> u64 {
    close(projector.params(), projector.element())
}

/// The value of the closure of a colour's projector.
fn closed_value(alloc: Global, row: Row, colour: u32) -> Option<u64> {
    match built(alloc, row, colour) {
        Some(Ok(projector)) => Some(closed(&projector)),
        _ => None,
    }
}

/// Delta_n.
fn delta(row: Row, n: u32) -> Option<u64> {
    match Params::new(row.0, row.1, row.2) {
        Ok(params) if n <= 16 => Some(params.delta(n)),
        _ => None,
    }
}

/// The number of terms of a colour's projector, and the value of its closure.
fn counted_and_closed(alloc: Global, row: Row, colour: u32) -> Option<(usize, u64)> {
    match built(alloc, row, colour) {
        Some(Ok(projector)) => Some((projector.element().terms().len(), closed(&projector))),
        _ => None,
    }
}

/// Whether the projector has this colour and the row's parameters.
fn is_of(projector: &Projector, row: Row, colour: u32) -> bool {
    match Params::new(row.0, row.1, row.2) {
        Ok(params) => projector.colour() == colour && *projector.params() == params,
        Err(_) => false,
    }
}

/// Whether the terms of the projector are those of colour 2.
fn has_terms(projector: &Projector) -> bool {
    let terms = projector.element().terms();
    for (term, (weight, partners)) in terms.iter().zip(&TERMS) {
        if term.weight != *weight || term.pairing.partners() != partners.as_slice() {
            return false;
        }
    }
    terms.len() == TERMS.len()
}

/// Whether the projector of colour 2 is the worked one.
fn is_worked(alloc: Global) -> bool {
    match built(alloc, SMALL, 2) {
        Some(Ok(projector)) => is_of(&projector, SMALL, 2) && has_terms(&projector),
        _ => false,
    }
}

#[test]
fn two_strands(rt: HostRuntime) {
    assert!(rt; is_worked(rt.alloc()));
    assert!(rt; closed_value(rt.alloc(), SMALL, 2) == Some(35));
}

#[test]
fn no_inverse(rt: HostRuntime) {
    assert!(rt; fault(rt.alloc(), COMPOSITE, 2) == Some(NO_INVERSE));
    assert!(rt; closed_value(rt.alloc(), COMPOSITE, 1) == delta(COMPOSITE, 1));
}

#[test]
fn colour_eight(rt: HostRuntime) -> Result<(), Fail> {
    let (count, value) = counted_and_closed(rt.alloc(), LARGE, 8).ok_or("a projector")?;
    assert!(rt; count == 1430);
    assert!(rt; delta(LARGE, 8) == Some(value));
    Ok(())
}

/// Whether it is the one that the cell holds, and of colour 2.
fn is_shared(found: &Found) -> bool {
    match found {
        Found::Shared(projector) => projector.colour() == 2,
        Found::Own(_) => false,
    }
}

/// The table of the row's parameters for the colours up to this one.
fn table(alloc: Global, row: Row, top: u32) -> Option<Table> {
    match Params::new(row.0, row.1, row.2) {
        Ok(params) if top <= params.top_colour() => match Table::new(alloc, params, top) {
            Ok(table) => Some(table),
            Err(_) => None,
        },
        _ => None,
    }
}

/// Whether the table names the row's parameters and its greatest colour.
fn is_named(alloc: Global, row: Row, top: u32) -> bool {
    match (table(alloc, row, top), Params::new(row.0, row.1, row.2)) {
        (Some(table), Ok(params)) => *table.params() == params && table.top() == top,
        _ => false,
    }
}

/// Whether the table finds the projector of colour 2 in its cell twice, for two holders of notes, which agree.
fn both_find(alloc: Global, table: &Table) -> bool {
    if table.top() < 2 {
        return false;
    }
    let Ok(mut mine) = table.notes(alloc) else {
        return false;
    };
    let Ok(mut others) = table.notes(alloc) else {
        return false;
    };
    let Ok(first) = table.projector(alloc, 2, &mut mine) else {
        return false;
    };
    let Ok(second) = table.projector(alloc, 2, &mut others) else {
        return false;
    };
    mine.compare(&mut others);
    is_shared(&first) && is_shared(&second)
}

/// The same for a table of the row's parameters.
fn both_find_in(alloc: Global, row: Row, top: u32) -> bool {
    match table(alloc, row, top) {
        Some(table) => both_find(alloc, &table),
        None => false,
    }
}

#[test]
fn both_share(rt: HostRuntime) {
    assert!(rt; is_named(rt.alloc(), SMALL, 4));
    assert!(rt; both_find_in(rt.alloc(), SMALL, 4));
}

/// Why the table finds no projector of its greatest colour.
fn table_fault(alloc: Global, table: &Table) -> Option<WenzlFault> {
    let top = table.top();
    if top < 2 {
        return None;
    }
    let Ok(mut notes) = table.notes(alloc) else {
        return None;
    };
    match table.projector(alloc, top, &mut notes) {
        Ok(_) => None,
        Err(fault) => Some(fault),
    }
}

/// The same for a table of the row's parameters.
fn fault_in_table(alloc: Global, row: Row, top: u32) -> Option<WenzlFault> {
    table_fault(alloc, &table(alloc, row, top)?)
}

#[test]
fn no_inverse_in_a_table(rt: HostRuntime) {
    assert!(rt; fault_in_table(rt.alloc(), COMPOSITE, 3) == Some(NO_INVERSE));
}

/// Calls each law at the projector.
fn call_laws(projector: &Projector) {
    hook_above(projector);
    hook_below(projector);
    own_square(projector);
    closure(projector);
    mirror_image(projector);
    half_turn(projector);
}

/// Calls the laws at the projector of a colour, and gives the value of its closure.
fn closed_by_laws(alloc: Global, row: Row, colour: u32) -> Option<u64> {
    match built(alloc, row, colour) {
        Some(Ok(projector)) => {
            call_laws(&projector);
            Some(closed(&projector))
        }
        _ => None,
    }
}

#[test]
fn laws(rt: HostRuntime) {
    assert!(rt; closed_by_laws(rt.alloc(), SMALL, 3) == Some(40));
}
