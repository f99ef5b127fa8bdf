//! Worked rows at modulus 41, where a loop is worth 6.

use super::*;
use root_quantum::Params;
use std::test::Fail;

/// An element's coefficients and partners are these, in order.
fn is(element: &Element, rows: &[(u64, &[u8])]) -> bool {
    let terms = element.terms();
    if terms.len() != rows.len() {
        return false;
    }
    for (term, row) in terms.iter().zip(rows) {
        if term.weight != row.0 || term.pairing.partners() != row.1 {
            return false;
        }
    }
    true
}

/// The noncrossing pairings of two strands: the hook, then the straight strands.
const HOOK: &[u8] = &[1, 0, 3, 2];

const STRAIGHT: &[u8] = &[3, 2, 1, 0];

/// How many noncrossing pairings there are of 0 to 8 strands: Catalan's numbers.
const CATALAN: [usize; 9] = [1, 1, 2, 5, 14, 42, 132, 429, 1430];

#[test]
fn sizes(rt: HostRuntime) -> Result<(), Fail> {
    let params = Params::new(41, 2, 5)?;
    for n in 0..=8 {
        let element = identity(rt.alloc(), &params, n)?;
        assert_eq!(rt; element.strands(), n);
        assert_eq!(rt; Some(&element.terms().len()), CATALAN.get(n as usize));
    }
    Ok(())
}

#[test]
fn two_strands(rt: HostRuntime) -> Result<(), Fail> {
    let params = Params::new(41, 2, 5)?;
    let one = identity(rt.alloc(), &params, 2)?;
    let cup = hook(rt.alloc(), &params, 2, 1)?;
    assert!(rt; is(&one, &[(0, HOOK), (1, STRAIGHT)]));
    assert!(rt; is(&cup, &[(1, HOOK), (0, STRAIGHT)]));
    let both = add(rt.alloc(), &params, &one, &cup)?;
    assert!(rt; is(&both, &[(1, HOOK), (1, STRAIGHT)]));
    let many = scale(rt.alloc(), &params, &both, 40)?;
    assert!(rt; is(&many, &[(40, HOOK), (40, STRAIGHT)]));
    let single = identity(rt.alloc(), &params, 1)?;
    let wider = beside(rt.alloc(), &params, &single)?;
    assert!(rt; is(&wider, &[(0, HOOK), (1, STRAIGHT)]));
    Ok(())
}

#[test]
fn products(rt: HostRuntime) -> Result<(), Fail> {
    let params = Params::new(41, 2, 5)?;
    let cup = hook(rt.alloc(), &params, 2, 1)?;
    let square = multiply(rt.alloc(), &params, &cup, &cup)?;
    assert!(rt; is(&square, &[(6, HOOK), (0, STRAIGHT)]));
    // hook 2 on hook 1 joins 0 with 1, 2 with 5 and 3 with 4
    let first = hook(rt.alloc(), &params, 3, 1)?;
    let second = hook(rt.alloc(), &params, 3, 2)?;
    let product = multiply(rt.alloc(), &params, &second, &first)?;
    for (at, weight) in [0, 1, 0, 0, 0].iter().enumerate() {
        assert_eq!(rt;
            product.terms().get(at).map(|term| term.weight),
            Some(*weight)
        );
    }
    Ok(())
}

#[test]
fn closures(rt: HostRuntime) -> Result<(), Fail> {
    let params = Params::new(41, 2, 5)?;
    // 1, 6, 36 and 216 = 5 * 41 + 11
    for (n, loops) in [(0, 1), (1, 6), (2, 36), (3, 11)] {
        let element = identity(rt.alloc(), &params, n)?;
        assert_eq!(rt; close(&params, &element), loops);
    }
    let cup = hook(rt.alloc(), &params, 2, 1)?;
    assert_eq!(rt; close(&params, &cup), 6);
    Ok(())
}
