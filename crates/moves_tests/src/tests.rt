//! Drawn diagrams and closed braids, on which every step is tried. How many steps are accepted was counted face by face by an independent
//! program; all of these but the two blow-ups are taken back.

use crate::coloured::try_coloured;
use crate::curls::{Curls, try_curls};
use crate::slides::{Slides, try_slides};
use crate::trials::{LEVEL, MODULUS, ROOT, Seen, try_all};
use braid_closures::closure;
use braid_trace::read_braid;
use pd_reader::{Diagram, read_pd};
use planar_check::check;
use root_quantum::Params;
use std::alloc::Global;
use std::test::*;

/// The trefoil, the Hopf link, the figure eight, 5_2, the Borromean rings, a chain of three, a pushed trefoil, a triangle before and after its
/// slide, both curls, and diagrams with loops: with the number of steps that are accepted.
const DRAWN: [(&[u8], u32); 13] = [
    (b"PD[X[1,4,2,5],X[3,6,4,1],X[5,2,6,3]]", 32),
    (b"PD[X[2,4,3,1],X[4,2,1,3]]", 18),
    (b"PD[X[4,2,5,1],X[8,6,1,5],X[6,3,7,4],X[2,7,3,8]]", 46),
    (
        b"PD[X[1,4,2,5],X[3,8,4,9],X[5,10,6,1],X[9,6,10,7],X[7,2,8,3]]",
        64,
    ),
    (
        b"PD[X[6,1,7,2],X[12,8,9,7],X[4,12,1,11],X[10,5,11,6],X[8,4,5,3],X[2,9,3,10]]",
        74,
    ),
    (b"PD[X[1,6,2,5],X[6,3,5,2],X[3,8,4,7],X[8,1,7,4]]", 48),
    (
        b"PD[X[1,4,2,5],X[3,6,4,8],X[5,2,6,10],X[9,1,10,7],X[3,8,9,7]]",
        68,
    ),
    (b"PD[X[2,5,4,1],X[3,3,6,5],X[6,2,1,4]]", 41),
    (b"PD[X[4,3,2,5],X[6,5,1,1],X[3,4,6,2]]", 41),
    (b"PD[X[1,1,2,2]]", 9),
    (b"PD[X[1,2,2,1]]", 9),
    (b"PD[Loop[2],X[1,1,3,3],Loop[4]]", 13),
    (
        b"PD[X[1,4,2,5],X[3,6,4,1],X[5,2,6,3],X[7,7,8,8],Loop[9]]",
        41,
    ),
];

/// Closed braids of up to 12 crossings, with the same.
const BRAIDS: [(&[u8], u32); 11] = [
    (b"BR[3,{1,-2,1,-2,1,-2}]", 74),
    (b"BR[3,{1,-2,1,-2,1,-2,1,-2,1,-2,1,-2}]", 182),
    (b"BR[4,{1,2,3,1,2,3,1,2,3}]", 158),
    (b"BR[3,{1,2,1,-2,-1,-2}]", 122),
    (b"BR[4,{1,-3,2,1,-3,2}]", 90),
    (b"BR[5,{1,3}]", 18),
    (b"BR[2,{1,-1,1,-1}]", 58),
    (b"BR[4,{1,2,1,-3,2,-1,-2}]", 133),
    (b"BR[3,{1,1,-2,-2,1,1,-2,-2,1,1,-2,-2}]", 194),
    (b"BR[6,{1,2,3,4,5}]", 64),
    (b"BR[4,{1,2,-1,3,-2,1,-3,2,3,-1}]", 186),
];

/// What is to be seen, where so many steps are accepted: all but the two blow-ups are taken back.
fn wanted(accepted: u32) -> Option<Seen> {
    Some(Seen {
        accepted,
        kept: accepted,
        taken_back: accepted.saturating_sub(2),
        not_planar: 0,
    })
}

/// What is seen on a diagram.
fn seen_on(alloc: Global, diagram: Diagram) -> Option<Seen> {
    let params = Params::new(MODULUS, ROOT, LEVEL).ok()?;
    let planar = check(alloc, diagram).ok()?;
    try_all(alloc, &params, &planar)
}

/// What is seen on the diagram of a text.
fn seen_on_drawn(alloc: Global, text: &[u8]) -> Option<Seen> {
    seen_on(alloc, read_pd(alloc, text).ok()?)
}

/// What is seen on the closure of the braid of a text.
fn seen_on_closed(alloc: Global, text: &[u8]) -> Option<Seen> {
    let braid = read_braid(alloc, text).ok()?;
    seen_on(alloc, closure(alloc, &braid).ok()?)
}

#[test]
fn steps_on_drawn_diagrams(rt: HostRuntime) {
    for (text, accepted) in DRAWN {
        assert_eq!(rt; seen_on_drawn(rt.alloc(), text), wanted(accepted));
    }
}

#[test]
fn steps_on_closed_braids(rt: HostRuntime) {
    for (text, accepted) in BRAIDS {
        assert_eq!(rt; seen_on_closed(rt.alloc(), text), wanted(accepted));
    }
}

/// The Hopf link, the same with a curl and with curls to come, the torus link of four crossings, a chain of three, the Whitehead link and the Borromean
/// rings: with framings, the greatest label, and the number of slides that are accepted: the ordered pairs of edges on different components with
/// a common face.
const FRAMED: [(&[u8], &[i64], u32, u32); 7] = [
    (b"PD[X[2,4,3,1],X[4,2,1,3]]", &[0, 0], 4, 8),
    (b"PD[X[2,4,3,1],X[4,2,6,3],X[6,1,5,5]]", &[1, 0], 6, 14),
    (b"PD[X[2,4,3,1],X[4,2,1,3]]", &[2, 3], 4, 8),
    (
        b"PD[X[6,1,7,2],X[8,3,5,4],X[2,5,3,6],X[4,7,1,8]]",
        &[1, -2],
        8,
        24,
    ),
    (
        b"PD[X[1,6,2,5],X[6,3,5,2],X[3,8,4,7],X[8,1,7,4]]",
        &[1, -1, 2],
        8,
        28,
    ),
    (
        b"PD[X[6,1,7,2],X[10,7,5,8],X[4,5,1,6],X[2,10,3,9],X[8,4,9,3]]",
        &[0, 1],
        10,
        28,
    ),
    (
        b"PD[X[6,1,7,2],X[12,8,9,7],X[4,12,1,11],X[10,5,11,6],X[8,4,5,3],X[2,9,3,10]]",
        &[0, 0, 1],
        12,
        48,
    ),
];

/// What is to be seen, where so many slides are accepted.
fn wanted_slides(accepted: u32) -> Option<Slides> {
    Some(Slides {
        accepted,
        kept: accepted,
    })
}

#[test]
fn slides_at_level_3(rt: HostRuntime) -> Result<(), Fail> {
    let params = Params::new(13, 2, 3).ok().ok_or("parameters")?;
    for (text, framings, greatest, accepted) in FRAMED {
        let seen = try_slides(&rt, rt.alloc(), &params, text, framings, greatest);
        assert_eq!(rt; seen, wanted_slides(accepted));
    }
    Ok(())
}

/// The first two: the values of the others have more open ends than a sweep takes, or take longer.
#[test]
fn slides_at_level_5(rt: HostRuntime) -> Result<(), Fail> {
    let params = Params::new(41, 2, 5).ok().ok_or("parameters")?;
    for (text, framings, greatest, accepted) in &FRAMED[..2] {
        let seen = try_slides(&rt, rt.alloc(), &params, text, framings, *greatest);
        assert_eq!(rt; seen, wanted_slides(*accepted));
    }
    Ok(())
}

/// The trefoil, the Hopf link, the figure eight, a triangle before and after its slide, 5_2, and a closed braid of eight crossings, with colours up to 3.
const COLOURED: [(&[u8], &[u32]); 9] = [
    (b"PD[X[1,4,2,5],X[3,6,4,1],X[5,2,6,3]]", &[2]),
    (b"PD[X[1,4,2,5],X[3,6,4,1],X[5,2,6,3]]", &[3]),
    (b"PD[X[2,4,3,1],X[4,2,1,3]]", &[1, 3]),
    (b"PD[X[2,4,3,1],X[4,2,1,3]]", &[2, 2]),
    (b"PD[X[4,2,5,1],X[8,6,1,5],X[6,3,7,4],X[2,7,3,8]]", &[2]),
    (b"PD[X[2,5,4,1],X[3,3,6,5],X[6,2,1,4]]", &[2, 1]),
    (b"PD[X[4,3,2,5],X[6,5,1,1],X[3,4,6,2]]", &[1, 2]),
    (
        b"PD[X[1,4,2,5],X[3,8,4,9],X[5,10,6,1],X[9,6,10,7],X[7,2,8,3]]",
        &[2],
    ),
    (b"BR[3,{1,-2,1,-2,1,-2,1,-2}]", &[1]),
];

/// Some of Reidemeister's second and third moves are accepted on each, and all of these keep the coloured value.
#[test]
fn coloured_moves(rt: HostRuntime) -> Result<(), Fail> {
    let params = Params::new(41, 2, 5).ok().ok_or("parameters")?;
    for (text, colours) in COLOURED {
        let seen = try_coloured(&rt, rt.alloc(), &params, text, colours).ok_or("a diagram")?;
        assert_eq!(rt; seen.kept, seen.accepted);
        assert!(rt; seen.accepted > 0);
    }
    Ok(())
}

/// A loop, a loop with a curl, the Hopf link, the trefoil and the Whitehead link with colours up to 5, and how many curls are tried: two an edge.
const CURLED: [(&[u8], &[u32], u32); 6] = [
    (b"PD[Loop[1]]", &[5], 2),
    (b"PD[X[1,1,2,2]]", &[4], 4),
    (b"PD[X[1,1,2,2]]", &[5], 4),
    (b"PD[X[2,4,3,1],X[4,2,1,3]]", &[2, 3], 8),
    (b"PD[X[1,4,2,5],X[3,6,4,1],X[5,2,6,3]]", &[2], 12),
    (
        b"PD[X[6,1,7,2],X[10,7,5,8],X[4,5,1,6],X[2,10,3,9],X[8,4,9,3]]",
        &[2, 0],
        20,
    ),
];

/// A curl on any edge, boxed or not, multiplies the coloured value by the twist of its colour, and the value comes back where it is undone.
#[test]
fn coloured_curls(rt: HostRuntime) -> Result<(), Fail> {
    let params = Params::new(29, 2, 7).ok().ok_or("parameters")?;
    for (text, colours, accepted) in CURLED {
        let seen = try_curls(&rt, rt.alloc(), &params, text, colours);
        let wanted = Curls {
            accepted,
            multiplied: accepted,
        };
        assert_eq!(rt; seen, Some(wanted));
    }
    Ok(())
}
