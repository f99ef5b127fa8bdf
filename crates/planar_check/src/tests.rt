//! Worked rows, found by hand: diagrams and nets with their numbers of faces, faces, components, framings and
//! linking matrices.

use crate::{
    Face, Framed, FramedFault, Planar, PlanarFault, check, check_net, faces, linking_matrix,
};
use inertia_cert::Matrix;
use pd_reader::{Diagram, NetDiagram, read_net, read_pd};
use std::alloc::Global;

/// The left-handed trefoil.
const TREFOIL: &[u8] = b"PD[X[1,4,2,5],X[3,6,4,1],X[5,2,6,3]]";

/// A chain of three, whose middle is component 1.
const CHAIN: &[u8] = b"PD[X[1,6,2,5],X[6,3,5,2],X[3,8,4,7],X[8,1,7,4]]";

const HOPF_LINK: &[u8] = b"PD[X[2,4,3,1],X[4,2,1,3]]";

const FIGURE_EIGHT: &[u8] = b"PD[X[4,2,5,1],X[8,6,1,5],X[6,3,7,4],X[2,7,3,8]]";

/// Text, number of faces and number that is wanted; planar where they are equal. Loops have no face.
const DIAGRAMS: [(&[u8], Option<PlanarFault>); 12] = [
    (b"PD[]", None),
    (b"PD[Loop[1]]", None),
    (b"PD[Loop[7],Loop[2]]", None),
    (TREFOIL, None),
    (FIGURE_EIGHT, None),
    (b"PD[X[1,1,2,2]]", None),
    (b"PD[X[1,2,2,1]]", None),
    (b"PD[X[1,1,2,2],Loop[5],X[3,4,4,3]]", None),
    (HOPF_LINK, None),
    (CHAIN, None),
    (
        b"PD[X[1,2,1,2]]",
        Some(PlanarFault::NotPlanar {
            faces: 1,
            wanted: 3,
        }),
    ),
    (
        b"PD[X[1,1,2,2],X[3,4,3,4]]",
        Some(PlanarFault::NotPlanar {
            faces: 4,
            wanted: 6,
        }),
    ),
];

const NETS: [(&[u8], Option<PlanarFault>); 4] = [
    (b"Net[]", None),
    (b"Net[Y[1,2,3],Y[3,2,1]]", None),
    (b"Net[Y[1,2,3],Y[1,5,6],Y[2,6,4],Y[3,4,5]]", None),
    (
        b"Net[Y[1,2,3],Y[1,2,3]]",
        Some(PlanarFault::NotPlanar {
            faces: 1,
            wanted: 3,
        }),
    ),
];

/// Text and faces.
const FACES: [(&[u8], &[&[u32]]); 3] = [
    (
        TREFOIL,
        &[&[0, 4, 8], &[1, 7], &[2, 10, 6], &[3, 9], &[5, 11]],
    ),
    (b"PD[Loop[3],X[1,1,2,2]]", &[&[0, 2], &[1], &[3]]),
    (b"PD[Loop[1]]", &[]),
];

/// Of each place of the trefoil the label, the other place, the least place of its face, and whether the walk enters
/// there.
const TREFOIL_PLACES: [(u32, u32, u32, bool); 12] = [
    (1, 7, 0, true),
    (4, 6, 1, true),
    (2, 9, 2, false),
    (5, 8, 3, false),
    (3, 11, 0, true),
    (6, 10, 5, true),
    (4, 1, 2, false),
    (1, 0, 1, false),
    (5, 3, 0, true),
    (2, 2, 3, true),
    (6, 5, 2, false),
    (3, 4, 5, false),
];

/// The first places of the trefoil's labels, and of one that it does not have.
const TREFOIL_FIRSTS: [(u32, Option<u32>); 7] = [
    (1, Some(0)),
    (2, Some(2)),
    (3, Some(4)),
    (4, Some(1)),
    (5, Some(3)),
    (6, Some(5)),
    (7, None),
];

/// Text, and of each component the least label and the writhe.
const COMPONENTS: [(&[u8], &[(u32, i64)]); 8] = [
    (b"PD[]", &[]),
    (TREFOIL, &[(1, -3)]),
    (FIGURE_EIGHT, &[(1, 0)]),
    (b"PD[X[1,1,2,2]]", &[(1, 1)]),
    (b"PD[X[999998,999999,999999,999998]]", &[(999_998, -1)]),
    (HOPF_LINK, &[(1, 0), (2, 0)]),
    (
        b"PD[X[1,1,2,2],Loop[5],X[3,4,4,3]]",
        &[(1, 1), (3, -1), (5, 0)],
    ),
    (
        b"PD[X[1,6,2,5],X[6,3,5,2],X[3,8,4,7],X[8,1,7,4],Loop[9]]",
        &[(1, 0), (5, 0), (7, 0), (9, 0)],
    ),
];

/// The component of each label of the Hopf link, and of one that it does not have.
const HOPF: [(u32, Option<u32>); 5] = [
    (1, Some(1)),
    (2, Some(2)),
    (3, Some(2)),
    (4, Some(1)),
    (5, None),
];

/// 2^60.
const GREATEST: i64 = 1_152_921_504_606_846_976;

/// Framings for the chain of three, and why they are not its framings.
const FRAMINGS: [(&[i64], Option<FramedFault>); 6] = [
    (&[0, GREATEST, -GREATEST], None),
    (
        &[0, 0],
        Some(FramedFault::Count {
            given: 2,
            wanted: 3,
        }),
    ),
    (
        &[GREATEST + 1],
        Some(FramedFault::Count {
            given: 1,
            wanted: 3,
        }),
    ),
    (
        &[0, GREATEST + 1, -GREATEST - 1],
        Some(FramedFault::Size { component: 2 }),
    ),
    (
        &[0, 0, -GREATEST - 1],
        Some(FramedFault::Size { component: 3 }),
    ),
    (&[i64::MIN, 0, 0], Some(FramedFault::Size { component: 1 })),
];

/// Text, framings, and the linking matrix by rows.
const MATRICES: [(&[u8], &[i64], &[i128]); 5] = [
    (b"PD[]", &[], &[]),
    (TREFOIL, &[-1], &[-1]),
    (b"PD[Loop[7],Loop[2]]", &[3, -5], &[3, 0, 0, -5]),
    (HOPF_LINK, &[2, -7], &[2, 1, 1, -7]),
    (CHAIN, &[0, 0, 0], &[0, 1, 1, 1, 0, 0, 1, 0, 0]),
];

/// The planar diagram of a text.
fn planar(alloc: Global, text: &[u8]) -> Option<Planar> {
    match read_pd(alloc, text) {
        Ok(diagram) => match check(alloc, diagram) {
            Ok(planar) => Some(planar),
            Err(_) => None,
        },
        Err(_) => None,
    }
}

/// The diagram of a text, with these framings.
fn framed(alloc: Global, text: &[u8], framings: &[i64]) -> Result<Framed, FramedFault> {
    match planar(alloc, text) {
        Some(planar) => Framed::new(alloc, planar, framings),
        None => Err(FramedFault::Memory),
    }
}

/// How many components a framed diagram has, and the framing of the third.
fn third_framing(framed: &Framed) -> (u32, Option<i64>) {
    let count = framed.planar().components();
    if count < 3 {
        return (count, None);
    }
    (count, Some(framed.framing(3)))
}

/// Whether the chain of three takes the framings, or refuses them for this reason.
fn takes_framings(alloc: Global, framings: &[i64], fault: Option<FramedFault>) -> bool {
    match framed(alloc, CHAIN, framings) {
        Ok(framed) => { fault.is_none() && third_framing(&framed) == (3, framings.get(2).copied()) }
        Err(found) => fault == Some(found),
    }
}

#[test]
fn framings(rt: HostRuntime) {
    for (framings, fault) in FRAMINGS {
        assert!(rt; takes_framings(rt.alloc(), framings, fault));
    }
}

/// The entry of the matrix in this row and column, where it has them.
fn matrix_entry(matrix: &Matrix, row: u32, column: u32) -> Option<i128> {
    let size = matrix.size();
    if row >= size || column >= size {
        return None;
    }
    Some(matrix.entry(row, column))
}

/// Whether these are the entries of the matrix, by rows.
fn has_entries(matrix: &Matrix, entries: &[i128]) -> bool {
    let mut wanted = entries.iter();
    for row in 0..matrix.size() {
        for column in 0..matrix.size() {
            if matrix_entry(matrix, row, column) != wanted.next().copied() {
                return false;
            }
        }
    }
    wanted.next().is_none()
}

/// Whether the linking matrix of the framed diagram has these entries, by rows.
fn is_linked(alloc: Global, text: &[u8], framings: &[i64], entries: &[i128]) -> bool {
    match framed(alloc, text, framings) {
        Ok(framed) => match linking_matrix(alloc, &framed) {
            Ok(matrix) => has_entries(&matrix, entries),
            Err(_) => false,
        },
        Err(_) => false,
    }
}

#[test]
fn matrices(rt: HostRuntime) {
    for (text, framings, entries) in MATRICES {
        assert!(rt; is_linked(rt.alloc(), text, framings, entries));
    }
}

/// The least label and the writhe of a component, where the diagram has it.
fn component_row(planar: &Planar, component: u32) -> Option<(u32, i64)> {
    if component == 0 || component > planar.components() {
        return None;
    }
    Some((planar.least_label(component), planar.writhe(component)))
}

/// Whether the components of a text have these least labels and writhes.
fn has_components(alloc: Global, text: &[u8], rows: &[(u32, i64)]) -> bool {
    let Some(planar) = planar(alloc, text) else {
        return false;
    };
    let mut wanted = rows.iter();
    for component in 1..=planar.components() {
        if component_row(&planar, component) != wanted.next().copied() {
            return false;
        }
    }
    wanted.next().is_none()
}

#[test]
fn components(rt: HostRuntime) {
    for (text, rows) in COMPONENTS {
        assert!(rt; has_components(rt.alloc(), text, rows));
    }
}

/// The linking number of two components and the sum of the signs between them, where the diagram has them and they
/// are different.
fn link_numbers(planar: &Planar, first: u32, second: u32) -> Option<(i64, i64)> {
    let count = planar.components();
    if first == 0 || first > count || second == 0 || second > count || first == second {
        return None;
    }
    Some((
        planar.linking(first, second),
        planar.sign_sum(first, second),
    ))
}

/// Whether the sum of the signs between each two components of a text is even.
fn has_even_sums(alloc: Global, text: &[u8]) -> bool {
    let Some(planar) = planar(alloc, text) else {
        return false;
    };
    for first in 1..=planar.components() {
        for second in 1..first {
            match link_numbers(&planar, first, second) {
                Some((_, sum)) if sum % 2 == 0 => {}
                _ => return false,
            }
        }
    }
    true
}

/// The sum of the signs between two components of a planar diagram is even.
#[test]
fn even_sums(rt: HostRuntime) {
    for (text, _) in COMPONENTS {
        assert!(rt; has_even_sums(rt.alloc(), text));
    }
}

/// How many components the Hopf link has, their linking number, and the sum of the signs between them.
fn hopf_numbers(alloc: Global) -> Option<(u32, Option<(i64, i64)>)> {
    match planar(alloc, HOPF_LINK) {
        Some(hopf) => Some((hopf.components(), link_numbers(&hopf, 2, 1))),
        None => None,
    }
}

/// Whether the label of the Hopf link lies in this component, or in none.
fn lies_in(alloc: Global, label: u32, component: Option<u32>) -> bool {
    match planar(alloc, HOPF_LINK) {
        Some(hopf) => hopf.component_of(label) == component,
        None => false,
    }
}

/// The Hopf link's components, their linking number, and the sum of the signs between them.
#[test]
fn hopf_link(rt: HostRuntime) {
    assert!(rt; hopf_numbers(rt.alloc()) == Some((2, Some((1, 2)))));
    for (label, component) in HOPF {
        assert!(rt; lies_in(rt.alloc(), label, component), "label {label}");
    }
}

/// The label at a place, its other place, the least place of its face, and whether the walk enters there, where there
/// is such a place.
fn place_row(planar: &Planar, place: u32) -> Option<(u32, u32, u32, bool)> {
    if place >= planar.places() {
        return None;
    }
    Some((
        planar.label_at(place),
        planar.other_place(place),
        planar.face_of(place),
        planar.enters(place),
    ))
}

/// Whether the places of the trefoil are those of the rows.
fn has_trefoil_places(alloc: Global) -> bool {
    let Some(trefoil) = planar(alloc, TREFOIL) else {
        return false;
    };
    let mut wanted = TREFOIL_PLACES.iter();
    for place in 0..trefoil.places() {
        if place_row(&trefoil, place) != wanted.next().copied() {
            return false;
        }
    }
    wanted.next().is_none()
}

/// How many places a text has, and the first of the label.
fn first_place(alloc: Global, text: &[u8], label: u32) -> Option<(u32, Option<u32>)> {
    match planar(alloc, text) {
        Some(planar) => Some((planar.places(), planar.first_place(label))),
        None => None,
    }
}

#[test]
fn places(rt: HostRuntime) {
    assert!(rt; has_trefoil_places(rt.alloc()));
    for (label, first) in TREFOIL_FIRSTS {
        assert!(rt;
            first_place(rt.alloc(), TREFOIL, label) == Some((12, first)),
            "label {label}"
        );
    }
    assert!(rt; first_place(rt.alloc(), b"PD[Loop[7]]", 7) == Some((0, None)));
}

/// Whether the diagram is found planar, with as many items as it has, or refused for this reason.
fn is_found(alloc: Global, diagram: Diagram, fault: Option<PlanarFault>) -> bool {
    let size = diagram.items().len();
    match check(alloc, diagram) {
        Ok(planar) => fault.is_none() && planar.diagram().items().len() == size,
        Err(found) => fault == Some(found),
    }
}

/// Whether the diagram of a text is found planar, or refused for this reason.
fn is_text_found(alloc: Global, text: &[u8], fault: Option<PlanarFault>) -> bool {
    match read_pd(alloc, text) {
        Ok(diagram) => is_found(alloc, diagram, fault),
        Err(_) => false,
    }
}

#[test]
fn worked_rows(rt: HostRuntime) {
    for (text, fault) in DIAGRAMS {
        assert!(rt; is_text_found(rt.alloc(), text, fault));
    }
}

/// Whether the net is found planar, with as many items as it has, or refused for this reason.
fn is_net_found(alloc: Global, net: NetDiagram, fault: Option<PlanarFault>) -> bool {
    let size = net.items().len();
    match check_net(alloc, net) {
        Ok(planar) => fault.is_none() && planar.net().items().len() == size,
        Err(found) => fault == Some(found),
    }
}

/// Whether the net of a text is found planar, or refused for this reason.
fn is_net_text_found(alloc: Global, text: &[u8], fault: Option<PlanarFault>) -> bool {
    match read_net(alloc, text) {
        Ok(net) => is_net_found(alloc, net, fault),
        Err(_) => false,
    }
}

#[test]
fn nets(rt: HostRuntime) {
    for (text, fault) in NETS {
        assert!(rt; is_net_text_found(rt.alloc(), text, fault));
    }
}

/// Whether the faces have these places.
fn have_places(found: &[Face], wanted: &[&[u32]]) -> bool {
    if found.len() != wanted.len() {
        return false;
    }
    for (face, places) in found.iter().zip(wanted) {
        if face.places.as_slice() != *places {
            return false;
        }
    }
    true
}

/// Whether the diagram of a text has these faces.
fn has_faces(alloc: Global, text: &[u8], wanted: &[&[u32]]) -> bool {
    match read_pd(alloc, text) {
        Ok(diagram) => match faces(alloc, &diagram) {
            Ok(found) => have_places(&found, wanted),
            Err(_) => false,
        },
        Err(_) => false,
    }
}

#[test]
fn face_lists(rt: HostRuntime) {
    for (text, wanted) in FACES {
        assert!(rt; has_faces(rt.alloc(), text, wanted));
    }
}
