//! Worked rows.

use super::*;
use crate::edges::fresh;
use diagram_moves::{Factor, MoveFault};
use pd_reader::{Item, read_pd, torus};
use planar_check::{Framed, Planar, Sign, check};
use script_reader::Step;
use std::alloc::Global;
use std::test::*;

const TREFOIL: &[u8] = b"PD[X[1,4,2,5],X[3,6,4,1],X[5,2,6,3]]";

const PUSHED: &[u8] = b"PD[X[1,4,2,5],X[3,6,4,8],X[5,2,6,10],X[9,1,10,7],X[3,8,9,7]]";

const WITH_TRIANGLE: &[u8] = b"PD[X[2,5,4,1],X[3,3,6,5],X[6,2,1,4]]";

const SLID: &[u8] = b"PD[X[4,3,2,5],X[6,5,1,1],X[3,4,6,2]]";

const CURLED: &[u8] = b"PD[X[1,1,2,2]]";

/// The edge 1 is one of the triangle's.
const ANCHORED_TRIANGLE: &[u8] = b"PD[X[2,5,1,4],X[3,3,6,5],X[6,2,4,1]]";

const PLAIN: Factor = Factor { curl: 0, circle: 0 };

const UNCURLED: Factor = Factor {
    curl: -1,
    circle: 0,
};

const CURL: Factor = Factor { curl: 1, circle: 0 };

/// A diagram, a step, its result and factor.
const ACCEPTED: [(&[u8], Step, &[u8], Factor); 10] = [
    (TREFOIL, Step::R2 { over: 1, under: 3 }, PUSHED, PLAIN),
    (
        PUSHED,
        Step::R2Undo {
            first: 4,
            second: 5,
        },
        TREFOIL,
        PLAIN,
    ),
    (
        TREFOIL,
        Step::Curl {
            edge: 1,
            sign: Sign::Plus,
        },
        b"PD[X[1,4,2,5],X[3,6,4,8],X[5,2,6,3],X[1,8,7,7]]",
        CURL,
    ),
    (
        WITH_TRIANGLE,
        Step::R3 {
            first: 1,
            second: 2,
            third: 3,
        },
        SLID,
        PLAIN,
    ),
    (
        SLID,
        Step::R3 {
            first: 1,
            second: 2,
            third: 3,
        },
        WITH_TRIANGLE,
        PLAIN,
    ),
    (
        SLID,
        Step::CurlUndo { crossing: 2 },
        b"PD[X[4,3,2,1],X[3,4,1,2]]",
        UNCURLED,
    ),
    (
        b"PD[Loop[2],Loop[1]]",
        Step::Curl {
            edge: 1,
            sign: Sign::Plus,
        },
        b"PD[Loop[2],X[1,1,3,3]]",
        CURL,
    ),
    (
        CURLED,
        Step::CurlUndo { crossing: 1 },
        b"PD[Loop[1]]",
        UNCURLED,
    ),
    (
        b"PD[]",
        Step::BlowUp { sign: Sign::Minus },
        b"PD[Loop[1]]",
        Factor { curl: 0, circle: 1 },
    ),
    (
        b"PD[Loop[1]]",
        Step::BlowUp { sign: Sign::Plus },
        b"PD[Loop[1],Loop[2]]",
        Factor { curl: 0, circle: 1 },
    ),
];

/// A diagram, a step, and why it is refused.
const REFUSED: [(&[u8], Step, MoveFault); 8] = [
    (TREFOIL, Step::R2 { over: 1, under: 1 }, MoveFault::SameEdge),
    (
        TREFOIL,
        Step::R2 { over: 1, under: 9 },
        MoveFault::NoEdge { edge: 9 },
    ),
    (
        TREFOIL,
        Step::R2 { over: 1, under: 6 },
        MoveFault::NotSameFace,
    ),
    (
        TREFOIL,
        Step::R2Undo {
            first: 1,
            second: 2,
        },
        MoveFault::NotBigon,
    ),
    (TREFOIL, Step::CurlUndo { crossing: 1 }, MoveFault::NotCurl),
    (
        TREFOIL,
        Step::CurlUndo { crossing: 4 },
        MoveFault::NoCrossing { crossing: 4 },
    ),
    (
        TREFOIL,
        Step::R3 {
            first: 1,
            second: 2,
            third: 3,
        },
        MoveFault::NotTriangle,
    ),
    (
        b"PD[X[1,1,2,2],Loop[3]]",
        Step::R2 { over: 1, under: 3 },
        MoveFault::LoopEdge { edge: 3 },
    ),
];

/// The planar diagram of a text.
fn planar(alloc: Global, text: &[u8]) -> Option<Planar> {
    check(alloc, read_pd(alloc, text).ok()?).ok()
}

/// Makes a step that is no slide, where the labels leave room for it.
fn made(alloc: Global, diagram: &Planar, step: &Step) -> Result<Moved, MoveFault> {
    if step.is_slide() || fresh(alloc, diagram.diagram().items())? > GREATEST_LABEL {
        return Err(MoveFault::Memory);
    }
    apply(alloc, diagram, step)
}

/// The same with colours, where there are as many as components.
fn made_coloured(
    alloc: Global,
    diagram: &Planar,
    colours: &[u32],
    step: &Step,
) -> Result<Moved, MoveFault> {
    if step.is_slide() || fresh(alloc, diagram.diagram().items())? > GREATEST_LABEL {
        return Err(MoveFault::Memory);
    }
    if colours.len() != diagram.components() as usize {
        return Err(MoveFault::Memory);
    }
    apply_coloured(alloc, diagram, colours, step)
}

/// What steps give.
#[test]
fn accepted_steps(rt: HostRuntime) -> Result<(), Fail> {
    for (text, step, result, factor) in ACCEPTED {
        let diagram = planar(rt.alloc(), text).ok_or("a diagram")?;
        let moved = made(rt.alloc(), &diagram, &step).ok().ok_or("a move")?;
        let wanted = planar(rt.alloc(), result).ok_or("a result")?;
        assert_eq!(rt; moved.diagram.diagram().items(), wanted.diagram().items());
        assert_eq!(rt; moved.factor, factor);
    }
    Ok(())
}

/// Which steps are refused, and why.
#[test]
fn refused_steps(rt: HostRuntime) -> Result<(), Fail> {
    for (text, step, fault) in REFUSED {
        let diagram = planar(rt.alloc(), text).ok_or("a diagram")?;
        assert_eq!(rt; made(rt.alloc(), &diagram, &step).err(), Some(fault));
    }
    Ok(())
}

/// A diagram of 256 items has no room for a curl.
#[test]
fn no_room(rt: HostRuntime) -> Result<(), Fail> {
    let full = torus(rt.alloc(), 256).ok().ok_or("memory")?;
    let diagram = check(rt.alloc(), full).ok().ok_or("a diagram")?;
    let step = Step::Curl {
        edge: 1,
        sign: Sign::Minus,
    };
    let fault = made(rt.alloc(), &diagram, &step).err();
    assert_eq!(rt; fault, Some(MoveFault::TooMany { limit: 256 }));
    Ok(())
}

/// A diagram, the colours of its components, a step, and the refusal that it has, if any.
const COLOURED: [(&[u8], &[u32], Step, Option<MoveFault>); 10] = [
    (
        CURLED,
        &[2],
        Step::CurlUndo { crossing: 1 },
        Some(MoveFault::AnchorInside { component: 1 }),
    ),
    (CURLED, &[1], Step::CurlUndo { crossing: 1 }, None),
    (
        CURLED,
        &[2],
        Step::CurlUndo { crossing: 2 },
        Some(MoveFault::NoCrossing { crossing: 2 }),
    ),
    (
        b"PD[Loop[1],X[2,2,3,3]]",
        &[2, 2],
        Step::CurlUndo { crossing: 1 },
        Some(MoveFault::AnchorInside { component: 2 }),
    ),
    (
        WITH_TRIANGLE,
        &[2, 2],
        Step::R3 {
            first: 1,
            second: 2,
            third: 3,
        },
        None,
    ),
    (
        ANCHORED_TRIANGLE,
        &[2, 1],
        Step::R3 {
            first: 1,
            second: 2,
            third: 3,
        },
        Some(MoveFault::AnchorInside { component: 1 }),
    ),
    (
        ANCHORED_TRIANGLE,
        &[1, 2],
        Step::R3 {
            first: 1,
            second: 2,
            third: 3,
        },
        None,
    ),
    (
        b"PD[X[1,2,3,4],X[3,2,1,4]]",
        &[3, 1],
        Step::R2Undo {
            first: 1,
            second: 2,
        },
        Some(MoveFault::AnchorInside { component: 1 }),
    ),
    (
        b"PD[X[1,2,3,4],X[3,2,1,4]]",
        &[1, 3],
        Step::R2Undo {
            first: 1,
            second: 2,
        },
        None,
    ),
    (TREFOIL, &[5], Step::R2 { over: 1, under: 3 }, None),
];

/// Which steps are refused with colours, and why.
#[test]
fn coloured_steps(rt: HostRuntime) -> Result<(), Fail> {
    for (text, colours, step, fault) in COLOURED {
        let diagram = planar(rt.alloc(), text).ok_or("a diagram")?;
        let moved = made_coloured(rt.alloc(), &diagram, colours, &step);
        assert_eq!(rt; moved.err(), fault);
    }
    Ok(())
}

/// Framings, and those after a blow-up.
#[test]
fn framings_kept(rt: HostRuntime) -> Result<(), Fail> {
    let diagram = planar(rt.alloc(), b"PD[Loop[1]]").ok_or("a diagram")?;
    let framed = Framed::new(rt.alloc(), diagram, &[3]).ok().ok_or("framed")?;
    if fresh(rt.alloc(), framed.planar().diagram().items())? > GREATEST_LABEL {
        return Err(Fail::from("labels"));
    }
    let blown = blow_up(rt.alloc(), &framed, Sign::Minus)
        .ok()
        .ok_or("room")?;
    assert_eq!(rt; blown.planar().components(), 2);
    assert_eq!(rt;
        blown.planar().diagram().items(),
        [Item::Loop(1), Item::Loop(2)].as_slice()
    );
    Ok(())
}
