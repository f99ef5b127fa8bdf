//! Worked rows, and one call of each public function.

use super::*;
use pd_reader::{Item, TextFault};
use planar_check::Sign;
use std::alloc::AllocError;
use std::test::*;

/// Texts that are refused, and why.
const REFUSED: [(&[u8], TextFault); 20] = [
    (b"", TextFault::Text { at: 0 }),
    (b"PD[]", TextFault::Head { at: 0 }),
    (b"Moves[]", TextFault::Text { at: 6 }),
    (b"Moves[PD[X[1,4,2", TextFault::Text { at: 16 }),
    (b"Moves[PD[],]", TextFault::Text { at: 11 }),
    (b"Moves[PD[],R[1,2]]", TextFault::Text { at: 12 }),
    (b"Moves[PD[],R2U[1,2]]", TextFault::Text { at: 14 }),
    (b"Moves[PD[],R2 Undo[1,2]]", TextFault::Head { at: 14 }),
    (b"Moves[PD[],R2[1]]", TextFault::Text { at: 15 }),
    (b"Moves[PD[],R3[1,2]]", TextFault::Text { at: 17 }),
    (b"Moves[PD[],R4[1,2]]", TextFault::Number { at: 12 }),
    (b"Moves[PD[],Curl[1,2]]", TextFault::Number { at: 18 }),
    (b"Moves[PD[],Curl[+,1]]", TextFault::Text { at: 16 }),
    (b"Moves[PD[],BlowUp[0]]", TextFault::Number { at: 18 }),
    (b"Moves[PD[],Slid[1,2]]", TextFault::Text { at: 15 }),
    (b"Moves[PD[],Slide[1]]", TextFault::Text { at: 18 }),
    (b"Moves[PD[],Slide[+,1]]", TextFault::Text { at: 17 }),
    (b"Moves[PD[],BlowUp[+]]x", TextFault::Head { at: 21 }),
    (
        b"Moves[PD[X[1,1,1,2]]]",
        TextFault::Label { label: 1, count: 3 },
    ),
    (
        b"Moves[PD[Loop[1],Loop[1]]]",
        TextFault::Label { label: 1, count: 4 },
    ),
];

/// Which texts are refused, and why.
#[test]
fn refused_texts(rt: HostRuntime) -> Result<(), Fail> {
    for (text, fault) in REFUSED {
        assert_eq!(rt; read_script(rt.alloc(), text).err(), Some(fault));
    }
    Ok(())
}

/// Texts that are read, and what they spell.
const READ: [(&[u8], &[Item], &[Step]); 4] = [
    (b"Moves[PD[]]", &[], &[]),
    (
        b"Moves[PD[],Slide[12,3]]",
        &[],
        &[Step::Slide { edge: 12, along: 3 }],
    ),
    (
        b"Moves[PD[X[2,5,4,1],X[3,3,6,5],X[6,2,1,4]],R3[1,2,3],CurlUndo[2]]",
        &[
            Item::X([2, 5, 4, 1]),
            Item::X([3, 3, 6, 5]),
            Item::X([6, 2, 1, 4]),
        ],
        &[
            Step::R3 {
                first: 1,
                second: 2,
                third: 3,
            },
            Step::CurlUndo { crossing: 2 },
        ],
    ),
    (
        b" Moves [PD [ Loop[1] ] ,BlowUp[ + ], Curl[1 , - ],R2Undo[4,5],R2[1,3]\t]\n",
        &[Item::Loop(1)],
        &[
            Step::BlowUp { sign: Sign::Plus },
            Step::Curl {
                edge: 1,
                sign: Sign::Minus,
            },
            Step::R2Undo {
                first: 4,
                second: 5,
            },
            Step::R2 { over: 1, under: 3 },
        ],
    ),
];

/// What texts spell.
#[test]
fn read_texts(rt: HostRuntime) -> Result<(), Fail> {
    for (text, items, steps) in READ {
        let script = read_script(rt.alloc(), text).ok().ok_or("a text")?;
        assert_eq!(rt; script.diagram.items(), items);
        assert_eq!(rt; script.steps.as_slice(), steps);
    }
    Ok(())
}

/// A script with so many loops and so many steps.
fn many(rt: &HostRuntime, loops: u32, steps: u32) -> Result<Vec<u8>, AllocError> {
    let mut text = Vec::from_slice(rt.alloc(), b"Moves[PD[Loop[1]")?;
    for _ in 1..loops {
        text.extend_from_slice(b",Loop[1]")?;
    }
    text.extend_from_slice(b"]")?;
    for _ in 0..steps {
        text.extend_from_slice(b",BlowUp[+]")?;
    }
    text.extend_from_slice(b"]")?;
    Ok(text)
}

/// Numbers of items and of steps that are too many, the items' first, and labels after both.
const MANY: [(u32, u32, Option<TextFault>); 5] = [
    (1, 1000, None),
    (1, 1001, Some(TextFault::TooMany { limit: 1000 })),
    (2, 1001, Some(TextFault::TooMany { limit: 1000 })),
    (257, 1001, Some(TextFault::TooMany { limit: 256 })),
    (2, 1000, Some(TextFault::Label { label: 1, count: 4 })),
];

/// At most 1,000 steps are read.
#[test]
fn most_steps(rt: HostRuntime) -> Result<(), Fail> {
    for (loops, steps, fault) in MANY {
        let text = many(&rt, loops, steps)?;
        assert_eq!(rt; read_script(rt.alloc(), &text).err(), fault);
    }
    Ok(())
}
