//! Worked rows.

use super::*;
use std::test::*;

/// Texts that are refused, and why.
const REFUSED: [(&[u8], TetraText); 8] = [
    (b"", TetraText::Text { at: 0 }),
    (b"TV[F[1,2]]", TetraText::Text { at: 8 }),
    (b"TV[F[1,2,0]]", TetraText::Number { at: 9 }),
    (b"TV[X[1,2,3]]", TetraText::Head { at: 3 }),
    (b"T[]", TetraText::Text { at: 1 }),
    (
        b"TV[F[1,2,3],T[1,2,3,4,5,6]]",
        TetraText::Face { tetrahedron: 1 },
    ),
    (
        b"TV[T[1,1,1,1,1,1],F[1,1,1],T[1,1,1,2,2,2]]",
        TetraText::Face { tetrahedron: 2 },
    ),
    (
        b"TV[F[1,1,2],T[2,2,2,2,2,2]]",
        TetraText::Face { tetrahedron: 1 },
    ),
];

/// Which texts are refused, and what a text spells.
#[test]
fn worked_texts(rt: HostRuntime) -> Result<(), Fail> {
    for (text, fault) in REFUSED {
        assert_eq!(rt; read_tetra(rt.alloc(), text).err(), Some(fault));
    }
    let text = b" TV[F[3,2,1], F[6,1,5],F[4,6,2],F[5,3,4],T[1,2,3,4,5,6]]";
    let tetra = read_tetra(rt.alloc(), text).ok().ok_or("a text")?;
    let faces = [[3, 2, 1], [6, 1, 5], [4, 6, 2], [5, 3, 4]];
    assert_eq!(rt; tetra.faces(), faces.as_slice());
    let tetrahedra = [[1, 2, 3, 4, 5, 6]];
    assert_eq!(rt; tetra.tetrahedra(), tetrahedra.as_slice());
    Ok(())
}
