//! The slide of the Hopf link.

use super::*;
use crate::edges::top;
use pd_reader::read_pd;
use planar_check::{Framed, Sign, check};
use slide_laws::SlideFault;
use std::alloc::Global;
use std::test::*;

const HOPF: &[u8] = b"PD[X[2,4,3,1],X[4,2,1,3]]";

/// The Hopf link slid at its edge 1 along its edge 2, by hand.
const SLID: &[u8] = b"PD[X[5,7,6,5],X[2,4,3,7],X[4,2,8,3],X[8,1,1,6]]";

/// The Hopf link, framed 0 and 0.
fn hopf(alloc: Global) -> Option<Framed> {
    let planar = check(alloc, read_pd(alloc, HOPF).ok()?).ok()?;
    Framed::new(alloc, planar, &[0, 0]).ok()
}

/// The Hopf link slid at an edge along another one, where the labels leave room for it.
fn slid(alloc: Global, edge: u32, along: u32) -> Result<Slid, SlideFault> {
    let Some(framed) = hopf(alloc) else {
        return Err(SlideFault::Memory);
    };
    if top(alloc, framed.planar().diagram().items())? > GREATEST_LABEL {
        return Err(SlideFault::Memory);
    }
    slide(alloc, &framed, edge, along)
}

/// Whether the diagram's items are those of a text.
fn is_drawn(alloc: Global, framed: &Framed, text: &[u8]) -> bool {
    match read_pd(alloc, text) {
        Ok(wanted) => framed.planar().diagram().items() == wanted.items(),
        Err(_) => false,
    }
}

/// The framings of a diagram of two components.
fn framings(framed: &Framed) -> Option<(i64, i64)> {
    if framed.planar().components() != 2 {
        return None;
    }
    Some((framed.framing(1), framed.framing(2)))
}

/// Whether it is the slide that was found by hand.
fn is_found_by_hand(alloc: Global, slid: &Slid) -> bool {
    is_drawn(alloc, &slid.framed, SLID)
        && framings(&slid.framed) == Some((-2, 0))
        && slid.sign == Sign::Minus
        && slid.against.as_slice() == [false, false].as_slice()
}

#[test]
fn hopf_link_slid(rt: HostRuntime) -> Result<(), Fail> {
    let slid = slid(rt.alloc(), 1, 2).ok().ok_or("slid")?;
    assert!(rt; is_found_by_hand(rt.alloc(), &slid));
    Ok(())
}

#[test]
fn one_component(rt: HostRuntime) {
    assert!(rt; matches!(slid(rt.alloc(), 1, 4), Err(SlideFault::SameComponent)));
}
